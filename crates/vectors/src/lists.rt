// First and next: the buffer's room, the end of the list, and refusals.
ghost use Rattle.std.specs.Prelude.{◌≤◌};

use super::lent::{Lent, Memory, Words};
use super::lines::{listed_line, written_line};
use std::io;

// First, with a buffer of so many entries, all 7.
pub fn first_line<const N: usize>(rt: &impl Print, name: &str, lent: Lent) -> io::Result<()>
    requires { N ≤ 65536 }
{
    let mut reading = [7; N];
    let told = lent.first(&mut reading);
    written_line(rt, name, told, &reading)
}

// Next, with so many entries given.
pub fn next_line<const N: usize>(
    rt: &impl Print,
    name: &str,
    lent: Lent,
    reading: &mut [u16; N],
    given: usize,
) -> io::Result<()> {
    let before = *reading;
    let told = lent.next(reading, given);
    listed_line(rt, name, told, reading, &before)
}

// The only reading of aaaaab has three words.
pub fn print_reading_room(rt: &impl Print, set_e: Words) -> io::Result<()> {
    let text = b"aaaaab";
    let memory = Memory::<80, 7>::scanned(set_e, text);
    let lent = memory.lent(set_e, text);
    first_line::<2>(rt, "first-room-2", lent)?;
    first_line::<3>(rt, "first-room-3", lent)
}

// The words a and aa: aaa has readings of two, two and three words.
pub fn print_list(rt: &impl Print, runs: Words) -> io::Result<()> {
    let memory = Memory::<24, 4>::scanned(runs, b"aaa");
    let lent = memory.lent(runs, b"aaa");
    first_line::<2>(rt, "list-first", lent)?;
    next_line(rt, "list-next", lent, &mut [0, 1], 2)?;
    let mut room_3 = [1, 0, 7];
    next_line(rt, "next-room-2", lent, &mut [1, 0], 2)?;
    next_line(rt, "next-room-3", lent, &mut room_3, 2)?;
    next_line(rt, "list-end", lent, &mut room_3, 3)
}

// Columns that no scan wrote.
pub fn print_unscanned(rt: &impl Print, runs: Words) -> io::Result<()> {
    let memory = Memory::<24, 4>::built(runs);
    let lent = memory.lent(runs, b"aaa");
    first_line::<2>(rt, "first-columns", lent)?;
    next_line(rt, "next-columns", lent, &mut [0, 1], 2)
}

// The text b, and entries that are no reading of aaa.
pub fn print_no_reading(rt: &impl Print, runs: Words) -> io::Result<()> {
    let memory = Memory::<24, 2>::scanned(runs, b"b");
    first_line::<2>(rt, "first-no-reading", memory.lent(runs, b"b"))?;
    let memory = Memory::<24, 4>::scanned(runs, b"aaa");
    let lent = memory.lent(runs, b"aaa");
    next_line(rt, "next-no-reading", lent, &mut [0, 0], 2)?;
    next_line(rt, "next-given-3-of-2", lent, &mut [0, 0], 3)
}
