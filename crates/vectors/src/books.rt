// The book check and blocks.
use super::lent::Words;
use super::lines::checked_line;
use super::making::{write_blocks, write_word_and_block};
use super::scans::scan_line;
use orgamish::{block, block_part, check_book};
use std::io;

pub fn book_line(rt: &impl Print, name: &str, map: &[u8], book: &[u8]) -> io::Result<()> {
    checked_line(rt, name, check_book(map, book))
}

// The text of block n, in brackets.
pub fn text_line(rt: &impl Print, name: &str, map: &[u8], book: &[u8], n: usize) -> io::Result<()> {
    print!(rt; "{name} [")?;
    rt.write_all(block(map, book, n))?;
    print!(rt; "]\n")
}

// The offset and the length of block n's text.
fn part_line(rt: &impl Print, name: &str, map: &[u8], book: &[u8], n: usize) -> io::Result<()> {
    let part = block_part(map, book, n);
    println!(rt; "{name} {} {}", part.start, part.len)
}

pub fn print_example(rt: &impl Print, set_e: Words, book: &[u8]) -> io::Result<()> {
    let map = set_e.map;
    let table = set_e.table::<80>();
    scan_line::<7>(rt, "block-0", set_e, &table, block(map, book, 0))?;
    scan_line::<7>(rt, "block-1", set_e, &table, block(map, book, 1))?;
    scan_line::<7>(rt, "block-2", set_e, &table, block(map, book, 2))?;
    scan_line::<7>(rt, "block-3", set_e, &table, block(map, book, 3))?;
    book_line(rt, "book", map, book)?;
    text_line(rt, "text-0", map, book, 0)?;
    text_line(rt, "text-1", map, book, 1)?;
    text_line(rt, "text-4", map, book, 4)?;
    part_line(rt, "part-0", map, book, 0)?;
    part_line(rt, "part-1", map, book, 1)?;
    part_line(rt, "part-3", map, book, 3)?;
    part_line(rt, "part-4", map, book, 4)
}

// 16 blocks, and one byte more.
pub fn print_book_lengths(rt: &impl Print, map: &[u8]) -> io::Result<()> {
    let mut room = [0; 65536];
    let mut longer = [0; 65537];
    write_blocks(&mut room);
    write_blocks(&mut longer);
    book_line(rt, "book-65536", map, &room)?;
    book_line(rt, "book-65537", map, &longer)
}

// The word a, and a block.
pub fn print_block_lengths(rt: &impl Print, map: &[u8]) -> io::Result<()> {
    let mut b96 = [0; 4104];
    let mut b97 = [0; 4105];
    write_word_and_block(&mut b96);
    write_word_and_block(&mut b97);
    book_line(rt, "block-4096", map, &b96)?;
    book_line(rt, "block-4097", map, &b97)
}

pub fn print_bad_books(rt: &impl Print, map: &[u8]) -> io::Result<()> {
    let word_after = b"WD\x01aTB\x01\x00aWD\x01b";
    book_line(rt, "book-no-mark", map, b"WD\x01aWE\x01b")?;
    book_line(rt, "book-word-twice", map, b"WD\x01aWD\x01aTB\x00\x00")?;
    book_line(rt, "block-no-length", map, b"WD\x01aTB\x01")?;
    book_line(rt, "block-cut", map, b"WD\x01aTB\x02\x00a")?;
    book_line(rt, "word-after-block", map, word_after)?;
    text_line(rt, "text-refused", map, word_after, 0)?;
    part_line(rt, "part-refused", map, word_after, 0)
}
