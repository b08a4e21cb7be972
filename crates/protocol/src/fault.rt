// Why a call of a release is refused.
ghost use Rattle.protocol.specs.Faults.{call_number};
ghost use Rattle.std.proofs.Common.{rules};

use posts::PostFault;
use refusals::Refusal;

// The question of a call that got a no, by its case.
#[derive(Clone, Copy, Debug, PartialEq, Eq)]
pub enum CallFault {
    // an office's number is not below the number of offices
    NoSuchOffice,
    // the two offices are one
    SameOffice,
    // the acting office dropped out
    DroppedOut,
    // the vote is neither 0 nor 1
    NoSuchVote,
    // the office is in the termination
    NotVoting,
    // the office voted before
    AlreadyVoted,
    // the office is in voting, and has not voted or has no round left
    MayNotSpeak,
    // the plan does not name the pair in this round
    NotNamed,
    // the office's round is not open
    RoundNotOpen,
    // the office has not spoken to all whom it must speak to
    NotSpokenToAll,
    // the office has not heard all whom it must hear
    NotHeardAll,
    // the other office has not dropped out
    StillStanding,
    // the office was told before
    AlreadyTold,
    // a termination word from the other waits for the office
    WordWaits,
    // no termination word waits for the office
    NoWordWaits,
    // a question of the post
    Post(PostFault),
}

impl Refusal for CallFault {
    ghost number = { call_number };

    ghost digits = { Prim.search rules };

    // `as` takes no enum with a variant that has a field, and no other form is plainer than the match.
    fn number(&self) -> u8 {
        match self {
            CallFault::NoSuchOffice => 5,
            CallFault::SameOffice => 6,
            CallFault::DroppedOut => 7,
            CallFault::NoSuchVote => 8,
            CallFault::NotVoting => 9,
            CallFault::AlreadyVoted => 10,
            CallFault::MayNotSpeak => 11,
            CallFault::NotNamed => 12,
            CallFault::RoundNotOpen => 13,
            CallFault::NotSpokenToAll => 14,
            CallFault::NotHeardAll => 15,
            CallFault::StillStanding => 16,
            CallFault::AlreadyTold => 17,
            CallFault::WordWaits => 18,
            CallFault::NoWordWaits => 19,
            CallFault::Post(fault) => fault.number(),
        }
    }
}
