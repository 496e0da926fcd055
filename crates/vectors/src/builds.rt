// Build: limits and refusals of dictionary and table.
use super::lent::Words;
use super::lines::built_line;
use super::making::{write_word, write_words, write_words_and_one};
use orgamish::build;
use std::io;

// Build, with so many numbers lent, all 7. Told is what they are then.
pub fn build_line<const N: usize>(
    rt: &impl Print,
    name: &str,
    words: Words,
) -> io::Result<[u16; N]> {
    let mut table = [7; N];
    let told = build(words.map, words.dict, &mut table);
    built_line(rt, name, told, &table)?;
    Ok(table)
}

pub fn print_table_room(rt: &impl Print, set_e: Words) -> io::Result<()> {
    build_line::<79>(rt, "table-79", set_e)?;
    build_line::<80>(rt, "table-80", set_e)?;
    Ok(())
}

// This and the two below are kept out of main, whose frame would have room for all their tables throughout.
#[inline(never)]
pub fn print_word_lengths(rt: &impl Print, map: &[u8]) -> io::Result<()> {
    let mut d64 = [0; 67];
    let mut d65 = [0; 68];
    write_word(&mut d64, b'a');
    write_word(&mut d65, b'a');
    build_line::<528>(rt, "word-64", Words::new(map, &d64))?;
    build_line::<528>(rt, "word-65", Words::new(map, &d65))?;
    Ok(())
}

// 31 words of 64 letters, and one of 63 or 64 letters.
#[inline(never)]
pub fn print_letters_in_all(rt: &impl Print, map: &[u8]) -> io::Result<()> {
    let mut d47 = [0; 2143];
    let mut d48 = [0; 2144];
    write_words_and_one::<67>(&mut d47, 2077);
    write_words_and_one::<67>(&mut d48, 2077);
    build_line::<16384>(rt, "letters-2047", Words::new(map, &d47))?;
    build_line::<16392>(rt, "letters-2048", Words::new(map, &d48))?;
    Ok(())
}

// All words of one letter, and one of two letters.
#[inline(never)]
pub fn print_number_of_words(rt: &impl Print, map: &[u8]) -> io::Result<()> {
    let mut d256 = [0; 1024];
    let mut d257 = [0; 1029];
    write_words::<4>(&mut d256);
    write_words_and_one::<4>(&mut d257, 1024);
    build_line::<2056>(rt, "words-256", Words::new(map, &d256))?;
    build_line::<2072>(rt, "words-257", Words::new(map, &d257))?;
    Ok(())
}

// With room for ten states.
fn bad_line(rt: &impl Print, name: &str, map: &[u8], dict: &[u8]) -> io::Result<()> {
    build_line::<80>(rt, name, Words::new(map, dict))?;
    Ok(())
}

pub fn print_bad_records(rt: &impl Print, map: &[u8]) -> io::Result<()> {
    bad_line(rt, "no-mark", map, b"WD\x01aWE\x01b")?;
    bad_line(rt, "one-byte-left", map, b"WD\x01aW")?;
    bad_line(rt, "block-mark", map, b"WD\x01aTB\x00\x00")?;
    bad_line(rt, "length-0", map, b"WD\x01aWD\x00")?;
    bad_line(rt, "no-length", map, b"WD\x01aWD")?;
    bad_line(rt, "word-cut", map, b"WD\x01aWD\x02b")?;
    bad_line(rt, "word-twice", map, b"WD\x01aWD\x01bWD\x01a")
}
