// The family of small cases that the programs `many` and `second` answer, and the checksum that they mix the answers into.
// How a case is drawn, and what is mixed in, stands in the main file of `second`.
#![tactic(auto)]

mod cases;
mod checksum;
mod random;
#[cfg(test)]
mod tests;

pub use cases::{CASES, Case, FIRST_STATE, next_case};
pub use checksum::Checksum;
