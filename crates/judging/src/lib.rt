// The tests that the calls share, with their refusals in order.
#![tactic(auto)]

mod judging;
mod maps;

pub use judging::{judge_count, judge_list, judge_rows, judge_scan};
pub use maps::{check_words, is_map};
