// Communication plans: for each number of offices, who speaks to whom in each round.
#![tactic(auto)]

mod cube;
mod mesh;
mod number;
mod optional;
mod plan;
mod star;
mod turn;

pub use cube::Cube;
pub use mesh::Mesh;
pub use number::{NumberedPlan, UnknownPlan, plan_numbered};
pub use plan::Plan;
pub use star::Star;
pub use turn::Turn;
