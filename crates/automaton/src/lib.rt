// The automaton table of a dictionary: made whole, judged where it is lent, or written there.
#![tactic(auto)]

mod borders;
mod building;
mod lending;
mod rows;

pub use building::Built;
pub use lending::{judge_table, write_table};
