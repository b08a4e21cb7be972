// The star.
ghost use Rattle.plans.specs.Star.{star_rounds, star_names};
ghost use Rattle.plans.specs.LawsLemmas.{star_laws};

use crate::plan::{Plan, rounds_from_2_to_16};
use crate::turn::Turn;

// Two rounds: the others speak to office 0, then office 0 speaks to the others (in the field's terms, a
// centralized plan, with office 0 as coordinator).
#[derive(Clone, Copy, Debug, PartialEq, Eq)]
pub struct Star;

impl Plan for Star {
    ghost rounds = { λ _. star_rounds };

    ghost names = { λ _. star_names };

    ghost laws = { λ p. star_laws };

    fn rounds(&self, n: u8) -> u8 {
        rounds_from_2_to_16(n, 2)
    }

    fn names(&self, n: u8, turn: Turn) -> bool {
        turn.is_proper(n, self.rounds(n))
            && match turn.round {
                1 => turn.listener == 0,
                _ => turn.speaker == 0,
            }
    }
}
