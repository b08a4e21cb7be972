// The cube.
ghost use Rattle.std.specs.Prelude.{◌≡◌};
ghost use Rattle.plans.specs.Cube.{cube_rounds, cube_names, Logarithm};
ghost use Rattle.plans.specs.LawsLemmas.{cube_laws};

use crate::plan::Plan;
use crate::turn::Turn;

// For 2, 4, 8 or 16 offices as many rounds as the base-2 logarithm of their number, in each of which
// those whose numbers differ in exactly one bit speak to each other (in the field's terms, a hypercube).
#[derive(Clone, Copy, Debug, PartialEq, Eq)]
pub struct Cube;

impl Plan for Cube {
    ghost rounds = { λ _. cube_rounds };

    ghost names = { λ _. cube_names };

    ghost laws = { λ p. cube_laws };

    fn rounds(&self, n: u8) -> u8
        ensures value { result ≡ cube_rounds n }
        ensures log { Logarithm n result }
    {
        logarithm(n)
    }

    fn names(&self, n: u8, turn: Turn) -> bool {
        turn.is_proper(n, self.rounds(n)) && (turn.speaker ^ turn.listener).count_ones() == 1
    }
}

// The base-2 logarithm of 2, 4, 8 and 16; 0 of any other number. (Its proof is written by hand, so it stands
// below the plan's rounds: a bug planted there is refused there.)
fn logarithm(n: u8) -> u8
    ensures value { result ≡ cube_rounds n }
    ensures log { Logarithm n result }
{
    if n.is_power_of_two() && n <= 16 {
        n.ilog2() as u8
    } else {
        0
    }
}
