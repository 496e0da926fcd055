// The words of a book, and the table that they give.
use super::blocks::print_blocks;
use super::stop::Stop;
use orgamish::{MOST_NUMBERS, build, identity};
use records::book_words;

pub fn print_book(rt: &impl Print, book: &[u8]) -> Result<(), Stop> {
    let map = identity();
    let words = book_words(&map, book)?;
    let mut table = [0; MOST_NUMBERS];
    build(&map, &book[..usize::from(words.end)], &mut table)?;
    print_blocks(rt, &map, book, words, &table)
}
