// The columns of a text: the state and the count at each of its positions.
#![tactic(auto)]

mod checking;
mod entries;
mod reaching;
mod scanning;

pub use checking::are_columns;
pub use entries::MOST_COUNTED;
pub use scanning::{Findings, scan};
