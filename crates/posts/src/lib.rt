// Posts: where an office leaves words for the others, round by round, and where they take them.
#![tactic(auto)]

mod address;
mod board;
mod entry;
mod fault;
mod fill;
mod grid;
mod place;
mod post;
mod questions;
mod stored;

pub use address::Address;
pub use board::{Board, BoardEntry};
pub use entry::Entry;
pub use fault::PostFault;
pub use grid::Grid;
pub use place::Place;
pub use post::{Post, PostView};
pub use questions::{any_waiting, ever_posted};
pub use stored::Stored;
