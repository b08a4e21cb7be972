// The protocol of a release: the record of an office and its part of each call, the model of a release,
// and what a release promises over every list of calls.
#![tactic(auto)]

mod call;
mod fault;
mod office;
mod promise;

pub use call::Call;
pub use fault::CallFault;
pub use office::{Office, Spoken};
pub use promise::promise_stands;
