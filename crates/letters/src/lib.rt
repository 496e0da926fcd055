// Letters under a map, and the record that stands at an offset; marks and limits.
// Of what is exported only `same_letters` requires anything, that both parts lie within the bytes; each contract decides the answer.
#![tactic(auto)]

mod letters;
mod limits;
mod record;
mod refusal;

pub use letters::{identity, letter, same_letters};
pub use limits::{LETTER_VALUES, LONGEST_BOOK, LONGEST_TEXT, MOST_LETTERS, MOST_WORDS};
pub use record::{Record, block_at, record_at, word_len};
pub use refusal::{Reason, Refusal};
