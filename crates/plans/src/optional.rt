// Plans that may be missing.
ghost use Rattle.plans.specs.Optional.{optional_rounds, optional_names};
ghost use Rattle.plans.specs.LawsLemmas.{optional_laws};

use crate::plan::Plan;
use crate::turn::Turn;

// A plan that is missing serves no number of offices and names nobody.
impl<P: Plan> Plan for Option<P> {
    ghost rounds = { optional_rounds P.Plan.rounds };

    ghost names = { optional_names P.Plan.names };

    ghost laws = { optional_laws P.Plan.rounds P.Plan.names P.Plan.laws };

    fn rounds(&self, n: u8) -> u8 {
        self.as_ref().map_or(0, |plan| plan.rounds(n))
    }

    fn names(&self, n: u8, turn: Turn) -> bool {
        self.as_ref().is_some_and(|plan| plan.names(n, turn))
    }
}
