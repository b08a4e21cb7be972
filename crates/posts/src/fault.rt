// Why a post refuses.
ghost use Rattle.posts.specs.Faults.{post_number};
ghost use Rattle.std.proofs.Common.{rules};

use refusals::Refusal;

// What posting and taking are refused for.
#[derive(Clone, Copy, Debug, PartialEq, Eq)]
pub enum PostFault {
    // The two offices are not both below 16, or they are the same.
    Offices = 31,
    // The round is not 1 to the reach.
    Round = 32,
    // The sender has another word in that round.
    OtherWord = 33,
    // The place holds a word already.
    Filled = 34,
    // No word waits in the place.
    NothingWaits = 35,
}

impl Refusal for PostFault {
    ghost number = { post_number };

    ghost digits = { Prim.search rules };

    fn number(&self) -> u8 {
        *self as u8
    }
}
