// Counter notices: a text by its code, in the office's language or else in English, and the line that
// shows it.
#![tactic(auto)]

mod fault;
mod line;
mod lookup;
mod table;

pub use fault::{NoticeFault, TextFault};
pub use line::{CounterNotice, LONGEST_LINE};
pub use lookup::Tables;
