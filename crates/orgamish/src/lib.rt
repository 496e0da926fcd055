// The public calls: each takes every input, ends, and is decided by its contract.
#![tactic(auto)]

mod answers;
mod books;
mod lists;
mod numbers;
mod scans;
mod tables;

pub use answers::{Built, Checked, Scanned};
pub use books::{block, block_part, check_book};
pub use letters::{Reason, Refusal, identity};
pub use lists::{first, next};
pub use numbers::{jump, place};
pub use records::BlockPart;
pub use scans::scan;
pub use tables::{build, narrow, widen};
pub use tree::MOST_NUMBERS;
