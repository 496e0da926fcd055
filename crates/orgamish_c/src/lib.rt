// The public calls under C names. Each asks the call of the same name and passes its answer on: the refusal's number, 0 for none, is
// the result; its place and the values go to five lent numbers.
#![tactic(auto)]

mod books;
mod lists;
mod numbers;
mod scans;
mod tables;
mod told;

pub use books::{orgamish_block, orgamish_check_book, orgamish_identity};
pub use lists::{orgamish_first, orgamish_next};
pub use numbers::{orgamish_jump, orgamish_place};
pub use scans::orgamish_scan;
pub use tables::{orgamish_build, orgamish_narrow, orgamish_widen};
