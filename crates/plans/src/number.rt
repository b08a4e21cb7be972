// Plans by their numbers.
ghost use Rattle.std.specs.Prelude.{◌≡◌, ℕ};
ghost use Rattle.plans.specs.Numbers.{numbered_rounds, numbered_names};
ghost use Rattle.plans.specs.LawsLemmas.{numbered_laws};
ghost use Rattle.plans.specs.Numbering.{number_of, Decodes};

use crate::cube::Cube;
use crate::mesh::Mesh;
use crate::plan::Plan;
use crate::star::Star;
use crate::turn::Turn;

// The plans that have a number.
#[derive(Clone, Copy, Debug, PartialEq, Eq)]
pub enum NumberedPlan {
    Mesh = 0,
    Star = 1,
    Cube = 2,
}

// A number that no plan has.
#[derive(Clone, Copy, Debug, PartialEq, Eq)]
pub struct UnknownPlan(pub u8);

// Written out: a derive states nothing of what it gives.
impl TryFrom<u8> for NumberedPlan {
    type Error = UnknownPlan;

    ghost try_from_gives = { Decodes };

    fn try_from(number: u8) -> Result<Self, UnknownPlan> {
        match number {
            0 => Ok(NumberedPlan::Mesh),
            1 => Ok(NumberedPlan::Star),
            2 => Ok(NumberedPlan::Cube),
            _ => Err(UnknownPlan(number)),
        }
    }
}

// Two matches: a function that hands out the plan would need a dyn, and one that takes a visitor more lines.
impl Plan for NumberedPlan {
    ghost rounds = { λ p. numbered_rounds (number_of p) };

    ghost names = { λ p. numbered_names (number_of p) };

    ghost laws = { λ p. numbered_laws (number_of p) };

    fn rounds(&self, n: u8) -> u8 {
        match self {
            NumberedPlan::Mesh => Mesh.rounds(n),
            NumberedPlan::Star => Star.rounds(n),
            NumberedPlan::Cube => Cube.rounds(n),
        }
    }

    fn names(&self, n: u8, turn: Turn) -> bool {
        match self {
            NumberedPlan::Mesh => Mesh.names(n, turn),
            NumberedPlan::Star => Star.names(n, turn),
            NumberedPlan::Cube => Cube.names(n, turn),
        }
    }
}

// The plan with this number: 0 is the mesh, 1 the star, 2 the cube; any other is none, and serves no n.
pub fn plan_numbered(number: u8) -> Option<NumberedPlan>
    ensures rounds { (n : ℕ) → ⟦<Option<NumberedPlan> as Plan>⟧.rounds result n ≡ numbered_rounds number n }
    ensures names { (n r s l : ℕ) → ⟦<Option<NumberedPlan> as Plan>⟧.names result n r s l ≡ numbered_names number n r s l }
{
    NumberedPlan::try_from(number).ok()
}
