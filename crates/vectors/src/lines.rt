// The lines of what the calls told.
use orgamish::{Built, Checked, Refusal, Scanned};
use std::fmt::Display;
use std::io;

// Numbers, a space before each, to the end of a line.
fn end_line<T: Display>(rt: &impl Print, numbers: &[T]) -> io::Result<()> {
    for n in numbers {
        print!(rt; " {n}")?;
    }
    print!(rt; "\n")
}

pub fn numbers_line<T: Display>(rt: &impl Print, name: &str, numbers: &[T]) -> io::Result<()> {
    print!(rt; "{name}")?;
    end_line(rt, numbers)
}

// Whether every number is the mark 7.
fn all_marked<T: Copy + Into<u64>>(numbers: &[T]) -> bool {
    numbers.iter().all(|n| (*n).into() == 7)
}

fn refused_line(rt: &impl Print, name: &str, refusal: Refusal) -> io::Result<()> {
    println!(rt; "{name} refused {refusal}")
}

fn kept_line(rt: &impl Print, name: &str, refusal: Refusal, kept: bool) -> io::Result<()> {
    let memory = if kept { "kept" } else { "changed" };
    println!(rt; "{name} refused {refusal} {memory}")
}

// What build, widen or narrow told. All numbers that it was to write were 7.
pub fn built_line(
    rt: &impl Print,
    name: &str,
    told: Result<Built, Refusal>,
    table: &[u16],
) -> io::Result<()> {
    match told {
        Ok(built) => println!(rt; "{name} {} {} {}", built.words, built.states, built.longest),
        Err(refusal) => kept_line(rt, name, refusal, all_marked(table)),
    }
}

// What scan told. All entries of the columns were 7.
pub fn scanned_line(
    rt: &impl Print,
    name: &str,
    told: Result<Scanned, Refusal>,
    states: &[u16],
    counts: &[u64],
) -> io::Result<()> {
    match told {
        Ok(found) => {
            let verdict = if found.accepted { "yes" } else { "no" };
            println!(rt;
                "{name} {verdict} {} {} {}",
                found.farthest, found.count, found.probes
            )
        }
        Err(refusal) => {
            let kept = all_marked(states) && all_marked(counts);
            kept_line(rt, name, refusal, kept)
        }
    }
}

// The first entries, so many as there are words.
fn reading_line(rt: &impl Print, name: &str, reading: &[u16], words: u16) -> io::Result<()> {
    print!(rt; "{name} {words}")?;
    let written = usize::from(words).min(reading.len());
    end_line(rt, &reading[..written])
}

// What first or jump told and wrote. All entries of the buffer were 7.
pub fn written_line(
    rt: &impl Print,
    name: &str,
    told: Result<u16, Refusal>,
    reading: &[u16],
) -> io::Result<()> {
    match told {
        Ok(words) => reading_line(rt, name, reading, words),
        Err(refusal) => kept_line(rt, name, refusal, all_marked(reading)),
    }
}

// What next told and wrote. `before` is a copy of the buffer.
pub fn listed_line(
    rt: &impl Print,
    name: &str,
    told: Result<Option<u16>, Refusal>,
    reading: &[u16],
    before: &[u16],
) -> io::Result<()> {
    match told {
        Ok(Some(words)) => reading_line(rt, name, reading, words),
        Ok(None) => println!(rt; "{name} end"),
        Err(refusal) => kept_line(rt, name, refusal, reading == before),
    }
}

pub fn placed_line(rt: &impl Print, name: &str, told: Result<u64, Refusal>) -> io::Result<()> {
    match told {
        Ok(n) => println!(rt; "{name} {n}"),
        Err(refusal) => refused_line(rt, name, refusal),
    }
}

pub fn checked_line(rt: &impl Print, name: &str, told: Result<Checked, Refusal>) -> io::Result<()> {
    match told {
        Ok(found) => println!(rt; "{name} {} {}", found.words, found.blocks),
        Err(refusal) => refused_line(rt, name, refusal),
    }
}
