// The readings of a scanned text, listed one after the other in a buffer.
#![tactic(auto)]

mod changing;
mod ending;
mod given;
mod leading;
mod listed;

pub use ending::longest_ending;
pub use given::is_reading;
pub use listed::{first, next};
