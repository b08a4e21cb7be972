// One office's turn to speak to another.
ghost use Rattle.std.specs.Prelude.{◌≡◌};
ghost use Rattle.plans.specs.Pairs.{proper};

// A round, and in it a speaker and a listener (in the field's terms, one scheduled transmission).
#[derive(Clone, Copy, Debug, PartialEq, Eq)]
pub struct Turn {
    pub round: u8,
    pub speaker: u8,
    pub listener: u8,
}

impl Turn {
    // Whether the round is one of h rounds, and the speaker and the listener are two of n offices.
    pub(crate) fn is_proper(self, n: u8, h: u8) -> bool
        ensures { result ≡ proper n h self.round self.speaker self.listener }
    {
        (1..=h).contains(&self.round)
            && self.speaker < n
            && self.listener < n
            && self.speaker != self.listener
    }
}
