// The readings of a scanned text by their numbers: the place that each has, from 0, in the list that first and next go through. Found
// by the counts alone.
#![tactic(auto)]

mod jumping;
mod lasts;
mod placing;

pub use jumping::jump;
pub use placing::place;
