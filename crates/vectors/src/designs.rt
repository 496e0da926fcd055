// Dictionaries that need no listing, and one that does: texts of three letters, from build to the end of the list.
use super::builds::build_line;
use super::lent::{Lent, Memory, Words};
use super::lines::{listed_line, numbers_line, scanned_line, written_line};
use orgamish::{identity, scan};
use std::io;

// First, and then next up to twice.
fn list_lines(rt: &impl Print, lent: Lent) -> io::Result<()> {
    let mut reading = [7; 3];
    let told = lent.first(&mut reading);
    written_line(rt, " first", told, &reading)?;
    let mut written = told.ok();
    for _ in 0..2 {
        let Some(words) = written else {
            return Ok(());
        };
        let before = reading;
        let told = lent.next(&mut reading, usize::from(words));
        listed_line(rt, " next", told, &reading, &before)?;
        written = told.ok().flatten();
    }
    Ok(())
}

// There is room for six states.
fn design_lines(rt: &impl Print, name: &str, words: Words, text: &[u8]) -> io::Result<()> {
    let Words { map, dict } = words;
    let table = build_line::<48>(rt, name, words)?;
    let mut states = [7; 4];
    let mut counts = [7; 4];
    let told = scan(map, dict, &table, text, &mut states, &mut counts);
    scanned_line(rt, " scan", told, &states, &counts)?;
    numbers_line(rt, " counts", &counts)?;
    let memory = Memory {
        table,
        states,
        counts,
    };
    list_lines(rt, memory.lent(words, text))
}

// The words a, ab, bb; then a, ba, bb; then a, ab, ba.
pub fn print_designs(rt: &impl Print, map: &[u8]) -> io::Result<()> {
    let suffix_free = b"WD\x01aWD\x02abWD\x02bb";
    let prefix_free = b"WD\x01aWD\x02baWD\x02bb";
    let neither = b"WD\x01aWD\x02abWD\x02ba";
    design_lines(rt, "suffix-free", Words::new(map, suffix_free), b"abb")?;
    design_lines(rt, "prefix-free", Words::new(map, prefix_free), b"bba")?;
    design_lines(rt, "neither", Words::new(map, neither), b"aba")
}

// The words A, ab, ba: as bytes, and with A taken for a.
pub fn print_designs_under(rt: &impl Print) -> io::Result<()> {
    let map = identity();
    let mut joined = map;
    joined[usize::from(b'A')] = b'a';
    let dict = b"WD\x01AWD\x02abWD\x02ba";
    design_lines(rt, "cased", Words::new(&map, dict), b"Aba")?;
    design_lines(rt, "cased-joined", Words::new(&joined, dict), b"Aba")
}
