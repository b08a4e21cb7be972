// The record of an office.
use words::{Decision, Knowledge, Offices, TermWord};

// What an office in the termination says (in the field's terms, the state messages that it sends).
#[derive(Clone, Copy, Debug, PartialEq, Eq)]
pub struct Spoken {
    // its word of this termination round
    pub word: TermWord,
    // its word of the termination round before, if there was one
    pub prior: Option<TermWord>,
}

// What a release keeps of one office (in the field's terms, the local state of a site). It keeps no
// copy of what the office heard: words that were taken stay in the posts.
#[derive(Clone, Copy, Debug, PartialEq, Eq)]
pub struct Office {
    // it has not dropped out
    pub standing: bool,
    // its words of the termination, once it has entered it; until then it is in voting
    pub termination: Option<Spoken>,
    // it has voted
    pub voted: bool,
    // the round of its phase that it is in, from 1
    pub round: u8,
    // what it knows of the vote; frozen once it entered the termination
    pub knowledge: Knowledge,
    // the offices of whose drop-out it was told
    pub told: Offices,
    // what it decided, if anything
    pub decision: Option<Decision>,
    // the termination round in which it decided, if it decided in the termination
    pub deciding: Option<u8>,
}
