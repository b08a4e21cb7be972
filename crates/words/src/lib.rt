// Words: what one office tells another, told equal or different, joined and summed.
#![tactic(auto)]

mod knowledge;
mod offices;
mod term;
mod word;

pub use knowledge::{Class, Decision, Knowledge};
pub use offices::Offices;
pub use term::TermWord;
pub use word::{Joining, Word, sum};
