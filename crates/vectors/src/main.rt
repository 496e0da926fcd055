// Runs the examples, the limits from both sides and every refusal of each public call. A line is a vector's name and what the call
// told: numbers, `end`, or `refused` with number and place. After the refusal of a call that writes stands whether all lent memory
// was kept.
#![tactic(auto)]

mod books;
mod builds;
mod designs;
mod lent;
mod lines;
mod lists;
mod making;
mod maps;
mod moves;
mod numbers;
mod scans;

use books::{print_bad_books, print_block_lengths, print_book_lengths, print_example};
use builds::{
    print_bad_records, print_letters_in_all, print_number_of_words, print_table_room,
    print_word_lengths,
};
use designs::{print_designs, print_designs_under};
use lent::Words;
use lists::{print_list, print_no_reading, print_reading_room, print_unscanned};
use maps::{
    print_exchanged, print_joined, print_joined_first, print_joined_list, print_joined_number,
    print_joined_twice, print_map_lengths, print_marks_as_bytes, print_one_letter,
};
use moves::{print_moves, print_narrow_refusals, print_widen_refusals};
use numbers::print_numbers_of_readings;
use orgamish::identity;
use scans::{
    print_column_room, print_counts_at_cap, print_farthest, print_table_refusals,
    print_text_lengths,
};
use std::io;

// The calls under the map that sends each byte to itself. E is the words aa, aaaab, aaaba, aab and ab, and the book has these and
// four blocks.
fn print_vectors(rt: &impl Print, map: &[u8]) -> io::Result<()> {
    let set_e = Words::new(map, b"WD\x02aaWD\x05aaaabWD\x05aaabaWD\x03aabWD\x02ab");
    let book =
        b"WD\x02aaWD\x05aaaabWD\x05aaabaWD\x03aabWD\x02abTB\x06\x00aaaaabTB\x00\x00TB\x03\x00aaaTB\x02\x00ba";
    let runs = Words::new(map, b"WD\x01aWD\x02aa");
    let nested = Words::new(map, b"WD\x01aWD\x03abc");
    print_table_room(rt, set_e)?;
    print_word_lengths(rt, map)?;
    print_letters_in_all(rt, map)?;
    print_number_of_words(rt, map)?;
    print_bad_records(rt, map)?;
    print_moves(rt, set_e)?;
    print_widen_refusals(rt, set_e)?;
    print_narrow_refusals(rt, set_e)?;
    print_counts_at_cap(rt, runs)?;
    print_farthest(rt, nested)?;
    print_text_lengths(rt, set_e)?;
    print_table_refusals(rt, set_e)?;
    print_column_room(rt, set_e)?;
    print_reading_room(rt, set_e)?;
    print_list(rt, runs)?;
    print_unscanned(rt, runs)?;
    print_no_reading(rt, runs)?;
    print_numbers_of_readings(rt, set_e, runs)?;
    print_example(rt, set_e, book)?;
    print_book_lengths(rt, map)?;
    print_block_lengths(rt, map)?;
    print_bad_books(rt, map)
}

// .. and under others, or under several.
fn print_under_maps(rt: &impl Print) -> io::Result<()> {
    print_map_lengths(rt)?;
    print_joined(rt)?;
    print_joined_twice(rt)?;
    print_joined_list(rt)?;
    print_joined_number(rt)?;
    print_joined_first(rt)?;
    print_exchanged(rt)?;
    print_one_letter(rt)?;
    print_marks_as_bytes(rt)
}

fn main(rt: HostRuntime) -> io::Result<()> {
    let map = identity();
    print_vectors(&rt, &map)?;
    print_under_maps(&rt)?;
    print_designs(&rt, &map)?;
    print_designs_under(&rt)
}
