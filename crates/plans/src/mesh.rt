// The mesh.
ghost use Rattle.plans.specs.Mesh.{mesh_rounds, mesh_names};
ghost use Rattle.plans.specs.LawsLemmas.{mesh_laws};

use crate::plan::{Plan, rounds_from_2_to_16};
use crate::turn::Turn;

// One round, in which everyone speaks to everyone else (in the field's terms, a
// decentralized exchange over the complete graph).
#[derive(Clone, Copy, Debug, PartialEq, Eq)]
pub struct Mesh;

impl Plan for Mesh {
    ghost rounds = { λ _. mesh_rounds };

    ghost names = { λ _. mesh_names };

    ghost laws = { λ p. mesh_laws };

    fn rounds(&self, n: u8) -> u8 {
        rounds_from_2_to_16(n, 1)
    }

    fn names(&self, n: u8, turn: Turn) -> bool {
        turn.is_proper(n, self.rounds(n))
    }
}
