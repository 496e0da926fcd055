// Letter maps: 18 before all others in every call, letters joined and exchanged, and what a map leaves alone.
use super::books::{book_line, text_line};
use super::builds::build_line;
use super::lent::{Lent, Memory, Words};
use super::lines::numbers_line;
use super::lists::{first_line, next_line};
use super::moves::{narrow_line, widen_line};
use super::numbers::jump_and_place_lines;
use super::scans::scan_line;
use orgamish::{block, identity};
use std::io;

// The calls on a dictionary that is refused for a repeated word, all lent memory too short.
fn print_calls_on(rt: &impl Print, twice: Words) -> io::Result<()> {
    let lent = Lent {
        words: twice,
        table: &[7; 8],
        text: b"aa",
        states: &[7],
        counts: &[7],
    };
    build_line::<8>(rt, " build", twice)?;
    widen_line::<8>(rt, " widen", twice, &[7; 7])?;
    narrow_line::<7>(rt, " narrow", twice, &[7; 8])?;
    scan_line::<1>(rt, " scan", twice, lent.table, lent.text)?;
    first_line::<1>(rt, " first", lent)?;
    next_line(rt, " next", lent, &mut [7], 2)?;
    jump_and_place_lines(rt, " jump", lent)?;
    book_line(rt, " book", twice.map, twice.dict)
}

// Under a map that is refused.
fn print_calls_under(rt: &impl Print, name: &str, map: &[u8]) -> io::Result<()> {
    let dict = b"WD\x01aWD\x01a";
    println!(rt; "{name}")?;
    print_calls_on(rt, Words::new(map, dict))?;
    text_line(rt, " block", map, b"WD\x01aTB\x01\x00a", 0)
}

pub fn print_map_lengths(rt: &impl Print) -> io::Result<()> {
    print_calls_under(rt, "map-0", &[])?;
    print_calls_under(rt, "map-255", &[0; 255])?;
    print_calls_under(rt, "map-257", &[0; 257])
}

// Each byte to itself, but b to a.
fn joining() -> [u8; 256] {
    let mut map = identity();
    map[usize::from(b'b')] = b'a';
    map
}

// The table of three states.
fn print_table(rt: &impl Print, name: &str, words: Words) -> io::Result<()> {
    let table = build_line::<24>(rt, name, words)?;
    numbers_line(rt, " rows", &table)
}

// The words a and ab are a and aa. As bytes they have another table.
pub fn print_joined(rt: &impl Print) -> io::Result<()> {
    let dict = b"WD\x01aWD\x02ab";
    let map = joining();
    let identity = identity();
    let joined = Words::new(&map, dict);
    let bytes = Words::new(&identity, dict);
    print_table(rt, "join-table", joined)?;
    scan_line::<4>(rt, "join-scan", joined, &joined.table::<24>(), b"aba")?;
    scan_line::<4>(rt, "join-other-table", joined, &bytes.table::<24>(), b"aba")
}

// The words a and b, by themselves and in a book.
pub fn print_joined_twice(rt: &impl Print) -> io::Result<()> {
    let map = joining();
    let dict = b"WD\x01aWD\x01b";
    build_line::<8>(rt, "join-twice", Words::new(&map, dict))?;
    book_line(rt, "join-book", &map, b"WD\x01aWD\x01bTB\x00\x00")
}

// Next, for the words a and ab and the text aba.
pub fn print_joined_list(rt: &impl Print) -> io::Result<()> {
    let map = joining();
    let words = Words::new(&map, b"WD\x01aWD\x02ab");
    let memory = Memory::<24, 4>::scanned(words, b"aba");
    let lent = memory.lent(words, b"aba");
    let mut reading = [0, 1, 7];
    next_line(rt, "join-next", lent, &mut reading, 2)?;
    next_line(rt, "join-last", lent, &mut reading, 2)?;
    next_line(rt, "join-end", lent, &mut reading, 3)
}

// Jump and place, for the words a and aa and the text aba.
pub fn print_joined_number(rt: &impl Print) -> io::Result<()> {
    let map = joining();
    let words = Words::new(&map, b"WD\x01aWD\x02aa");
    let memory = Memory::<24, 94>::scanned(words, b"aba");
    jump_and_place_lines(rt, "join-jump", memory.lent(words, b"aba"))
}

// First, for the word a and the text ab, with the columns that the scan under a map leaves. The
// table is the same under both maps.
pub fn print_joined_first(rt: &impl Print) -> io::Result<()> {
    let dict = b"WD\x01a";
    let map = joining();
    let identity = identity();
    let joined = Words::new(&map, dict);
    let bytes = Words::new(&identity, dict);
    let memory = Memory::<16, 3>::scanned(joined, b"ab");
    first_line::<2>(rt, "join-first", memory.lent(joined, b"ab"))?;
    let other = Memory::<16, 3>::scanned(bytes, b"ab");
    first_line::<2>(rt, "join-other-columns", other.lent(joined, b"ab"))
}

// The letters a and b exchanged: siblings rise by the map's numbers.
pub fn print_exchanged(rt: &impl Print) -> io::Result<()> {
    let mut map = identity();
    map[usize::from(b'a')] = b'b';
    map[usize::from(b'b')] = b'a';
    let dict = b"WD\x01aWD\x01b";
    print_table(rt, "exchange", Words::new(&map, dict))
}

// Each byte to 0: marks and lengths are bytes as they are, and so is the text of a block.
pub fn print_one_letter(rt: &impl Print) -> io::Result<()> {
    let map = [0; 256];
    let words = Words::new(&map, b"WD\x01aWD\x02bc");
    let book = b"WD\x01aWD\x02bcTB\x03\x00xyz";
    let table = words.table::<24>();
    print_table(rt, "one-table", words)?;
    scan_line::<4>(rt, "one-scan", words, &table, block(&map, book, 0))?;
    book_line(rt, "one-book", &map, book)?;
    text_line(rt, "one-text", &map, book, 0)
}

// Bytes that the map makes the letters of a mark are no mark.
pub fn print_marks_as_bytes(rt: &impl Print) -> io::Result<()> {
    let map = [0; 256];
    let dict = b"WW\x01a";
    build_line::<8>(rt, "one-word-mark", Words::new(&map, dict))?;
    book_line(rt, "one-block-mark", &map, b"WD\x01aTT\x00\x00")
}
