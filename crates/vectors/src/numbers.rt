// Jump and place: the readings of a text by their numbers, the buffer's room, and refusals.
use super::lent::{Lent, Memory, Words};
use super::lines::{numbers_line, placed_line, written_line};
use std::io;

// With a table for ten states and columns for 94 letters.
type Room = Memory<80, 95>;

// Reading 1, into a buffer of two entries, and the place of what these are then.
pub fn jump_and_place_lines(rt: &impl Print, name: &str, lent: Lent) -> io::Result<()> {
    let mut reading = [7; 2];
    written_line(rt, name, lent.jump(&mut reading, 1), &reading)?;
    placed_line(rt, " place", lent.place(&reading, 2))
}

// Reading n, with a buffer of so many entries, all 7. Told is what they are then.
fn jump_line<const N: usize>(
    rt: &impl Print,
    name: &str,
    words: Words,
    text: &[u8],
    n: u64,
) -> io::Result<[u16; N]> {
    let memory = Room::scanned(words, text);
    let mut reading = [7; N];
    let told = memory.lent(words, text).jump(&mut reading, n);
    written_line(rt, name, told, &reading)?;
    Ok(reading)
}

fn place_line(
    rt: &impl Print,
    name: &str,
    words: Words,
    text: &[u8],
    reading: &[u16],
    given: usize,
) -> io::Result<()> {
    let memory = Room::scanned(words, text);
    placed_line(rt, name, memory.lent(words, text).place(reading, given))
}

// Reading n, and its place.
fn number_lines(rt: &impl Print, name: &str, words: Words, text: &[u8], n: u64) -> io::Result<()> {
    let memory = Room::scanned(words, text);
    let lent = memory.lent(words, text);
    let mut reading = [7; 94];
    let told = lent.jump(&mut reading, n);
    written_line(rt, name, told, &reading)?;
    if let Ok(given) = told {
        placed_line(rt, " place", lent.place(&reading, usize::from(given)))?;
    }
    Ok(())
}

// The words a and aa: aaa has three readings.
fn print_numbers_of_aaa(rt: &impl Print, runs: Words) -> io::Result<()> {
    let text = b"aaa";
    number_lines(rt, "jump-0", runs, text, 0)?;
    number_lines(rt, "jump-1", runs, text, 1)?;
    number_lines(rt, "jump-2", runs, text, 2)?;
    number_lines(rt, "jump-3", runs, text, 3)
}

fn print_only_reading(rt: &impl Print, set_e: Words) -> io::Result<()> {
    number_lines(rt, "jump-only", set_e, b"aaaaab", 0)?;
    number_lines(rt, "jump-only-past", set_e, b"aaaaab", 1)
}

fn print_empty_text(rt: &impl Print, set_e: Words) -> io::Result<()> {
    number_lines(rt, "jump-empty", set_e, b"", 0)?;
    number_lines(rt, "jump-empty-past", set_e, b"", 1)
}

fn print_no_reading(rt: &impl Print, set_e: Words) -> io::Result<()> {
    number_lines(rt, "jump-no-reading", set_e, b"aaa", 0)?;
    place_line(rt, "place-no-reading", set_e, b"aaa", &[7, 7], 0)
}

// 40 letters a have 165,580,141 readings.
fn print_numbers_of_40(rt: &impl Print, runs: Words) -> io::Result<()> {
    let text = [b'a'; 40];
    number_lines(rt, "jump-40-first", runs, &text, 0)?;
    number_lines(rt, "jump-40-middle", runs, &text, 82790070)?;
    number_lines(rt, "jump-40-last", runs, &text, 165580140)?;
    number_lines(rt, "jump-40-past", runs, &text, 165580141)
}

// 92 letters a have 12,200,160,415,121,876,738 readings.
fn print_numbers_of_92(rt: &impl Print, runs: Words) -> io::Result<()> {
    let text = [b'a'; 92];
    number_lines(rt, "jump-92-first", runs, &text, 0)?;
    number_lines(rt, "jump-92-last", runs, &text, 12200160415121876737)?;
    number_lines(rt, "jump-92-past", runs, &text, 12200160415121876738)
}

// 93 letters a have more readings than 64 bits count.
fn print_numbers_of_93(rt: &impl Print, runs: Words) -> io::Result<()> {
    let text = [b'a'; 93];
    number_lines(rt, "jump-93-first", runs, &text, 0)?;
    number_lines(rt, "jump-93-past", runs, &text, 18446744073709551615)?;
    place_line(rt, "place-93", runs, &text, &[0; 93], 93)
}

// One letter b more: the text has no reading, and only the count before it is the greatest.
fn print_capped_before_end(rt: &impl Print, runs: Words) -> io::Result<()> {
    let mut text = [b'a'; 94];
    text[93] = b'b';
    number_lines(rt, "jump-93-b", runs, &text, 0)?;
    place_line(rt, "place-93-b", runs, &text, &[0; 94], 94)
}

// Reading 2 of aaa has three words.
fn print_jump_room(rt: &impl Print, runs: Words) -> io::Result<()> {
    jump_line::<2>(rt, "jump-room-2", runs, b"aaa", 2)?;
    jump_line::<3>(rt, "jump-room-3", runs, b"aaa", 2)?;
    Ok(())
}

// 21 comes before 14.
fn print_past_without_room(rt: &impl Print, runs: Words) -> io::Result<()> {
    jump_line::<0>(rt, "jump-past-room-0", runs, b"aaa", 3)?;
    Ok(())
}

fn print_entries_past(rt: &impl Print, runs: Words) -> io::Result<()> {
    let reading = jump_line::<4>(rt, "jump-room-4", runs, b"aaa", 1)?;
    numbers_line(rt, " entries", &reading)
}

// The first entries are a reading: two of four are given, then three of two.
fn print_entries_given(rt: &impl Print, runs: Words) -> io::Result<()> {
    let text = b"aaa";
    place_line(rt, "place-2-of-4", runs, text, &[1, 0, 0, 0], 2)?;
    place_line(rt, "place-3-of-2", runs, text, &[0, 1], 3)
}

// Words that spell too much and too little.
fn print_no_places(rt: &impl Print, runs: Words) -> io::Result<()> {
    let text = b"aaa";
    place_line(rt, "place-longer", runs, text, &[0, 0, 0, 0], 4)?;
    place_line(rt, "place-shorter", runs, text, &[0, 0], 2)
}

// Numbers that no word has.
fn print_no_words(rt: &impl Print, runs: Words) -> io::Result<()> {
    let text = b"aaa";
    place_line(rt, "place-word-5", runs, text, &[0, 5], 2)?;
    place_line(rt, "place-word-65535", runs, text, &[65535, 0], 2)
}

// The columns of 93 letters a, lent with a text of another last letter: 11 comes before 22.
fn print_other_columns(rt: &impl Print, runs: Words) -> io::Result<()> {
    let scanned = [b'a'; 93];
    let mut text = scanned;
    text[92] = b'b';
    let memory = Memory::<24, 94>::scanned(runs, &scanned);
    jump_and_place_lines(rt, "jump-columns", memory.lent(runs, &text))
}

pub fn print_numbers_of_readings(rt: &impl Print, set_e: Words, runs: Words) -> io::Result<()> {
    print_numbers_of_aaa(rt, runs)?;
    print_only_reading(rt, set_e)?;
    print_empty_text(rt, set_e)?;
    print_no_reading(rt, set_e)?;
    print_numbers_of_40(rt, runs)?;
    print_numbers_of_92(rt, runs)?;
    print_numbers_of_93(rt, runs)?;
    print_capped_before_end(rt, runs)?;
    print_jump_room(rt, runs)?;
    print_past_without_room(rt, runs)?;
    print_entries_past(rt, runs)?;
    print_entries_given(rt, runs)?;
    print_no_places(rt, runs)?;
    print_no_words(rt, runs)?;
    print_other_columns(rt, runs)
}
