// Addresses: where a word stands in a post.
ghost use Rattle.std.specs.Prelude.{◌≡◌, true, MatchResult};
ghost use Rattle.posts.specs.Addresses.{Refused};
ghost use Rattle.posts.specs.Places.{legal, within};

use crate::fault::PostFault;

// The address of a place (in the field's terms, of a slot of a mailbox): who sends, who receives, and in
// which round. The numbers may be any: a post asks first whether it serves them.
#[derive(Clone, Copy, Debug, PartialEq, Eq)]
pub struct Address {
    pub sender: u8,
    pub receiver: u8,
    pub round: u8,
}

impl Address {
    // Whether both offices are below 16 and differ.
    fn is_legal(self) -> bool
        ensures { result ≡ legal self.sender self.receiver }
    {
        self.sender < 16 && self.receiver < 16 && self.sender != self.receiver
    }

    // Whether the round is 1 to the reach.
    fn is_within(self, reach: u8) -> bool
        ensures { result ≡ within reach self.round }
    {
        1 <= self.round && self.round <= reach
    }
}

// An address that a post of this reach serves: two offices below 16, and a round within the reach. That the
// reach is the post's own ties two values, so it stands in the clauses of what takes both.
#[derive(Clone, Copy, Debug, PartialEq, Eq)]
pub(crate) struct Served {
    pub(crate) at: Address,
    pub(crate) reach: u8,
    ghost pair: { legal at.sender at.receiver ≡ true },
    ghost round: { within reach at.round ≡ true },
}

impl Served {
    // Asks the questions of an address.
    pub(crate) fn of(at: Address, reach: u8) -> Result<Served, PostFault>
        ensures { MatchResult result (λ s. (s.at ≡ at) × (s.reach ≡ reach)) (Refused at.sender at.receiver at.round reach) }
    {
        if !at.is_legal() {
            return Err(PostFault::Offices);
        }
        if !at.is_within(reach) {
            return Err(PostFault::Round);
        }
        Ok(Served { at, reach })
    }
}
