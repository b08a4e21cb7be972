// Plans of any kind, their laws, and whom they may name.
ghost use Rattle.std.specs.Prelude.{◌≡◌, ℕ, cond};
ghost use Rattle.plans.specs.Covering.{Talk};
ghost use Rattle.plans.specs.Laws.{PlanLaws};
ghost use Rattle.plans.specs.Serving.{served, two_to_sixteen};

use crate::turn::Turn;

// A plan (in the field's terms, a communication topology and its schedule): for each number n of offices, the
// rounds that it has and who speaks to whom in each. After the last round each office knows of all.
pub trait Plan {
    // The rounds for n offices, 1 to 16; 0 where the plan does not serve n, which is how many it has then.
    ghost rounds: { Self → ℕ → ℕ };

    // Whom the plan names: by the number of offices, the round, the speaker and the listener.
    ghost names: { Self → ℕ → Talk };

    fn rounds(&self, n: u8) -> u8
        ensures { result ≡ rounds self.now n };

    // Whether, among n offices, the turn's speaker speaks to its listener in its round.
    fn names(&self, n: u8, turn: Turn) -> bool
        ensures { result ≡ names self.now n turn.round turn.speaker turn.listener };

    // Whether the plan serves n offices.
    fn serves(&self, n: u8) -> bool
        ensures { result ≡ served (rounds self.now) n }
    {
        0 < self.rounds(n)
    }

    // What holds of every plan, covering among it.
    ghost laws: { (p : Self) → PlanLaws (rounds p) (names p) };
}

// So many rounds for 2 to 16 offices, and none for any other number.
pub(crate) fn rounds_from_2_to_16(n: u8, rounds: u8) -> u8
    ensures { result ≡ cond (two_to_sixteen n) rounds 0 }
{
    if (2..=16).contains(&n) { rounds } else { 0 }
}
