// The stored forms: the dictionary and the book, runs of word records and of block records.
// No call here requires anything, and each contract decides the answer for all bytes.
#![tactic(auto)]

mod book;
mod dictionary;
mod repeats;

pub use book::{BlockPart, Book, block, block_part, book_words, check_book};
pub use dictionary::{Dictionary, check_dictionary, word_place};
