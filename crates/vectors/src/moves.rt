// Widen and narrow: the rows in both forms, and refusals in their order.
use super::lent::Words;
use super::lines::{built_line, numbers_line};
use orgamish::{narrow, widen};
use std::io;

// Widen, with so many numbers lent, all 7. Told is what they are then.
pub fn widen_line<const N: usize>(
    rt: &impl Print,
    name: &str,
    words: Words,
    stored: &[u16],
) -> io::Result<[u16; N]> {
    let mut table = [7; N];
    let told = widen(words.map, words.dict, stored, &mut table);
    built_line(rt, name, told, &table)?;
    Ok(table)
}

// .. and narrow.
pub fn narrow_line<const N: usize>(
    rt: &impl Print,
    name: &str,
    words: Words,
    table: &[u16],
) -> io::Result<[u16; N]> {
    let mut stored = [7; N];
    let told = narrow(words.map, words.dict, table, &mut stored);
    built_line(rt, name, told, &stored)?;
    Ok(stored)
}

// There and back. There is room for one number more, which stays.
pub fn print_moves(rt: &impl Print, set_e: Words) -> io::Result<()> {
    let table = set_e.table::<81>();
    let stored = narrow_line::<71>(rt, "narrow", set_e, &table)?;
    numbers_line(rt, "narrow-rows", &stored)?;
    let back = widen_line::<81>(rt, "widen", set_e, &stored)?;
    numbers_line(rt, "widen-rows", &back)
}

// The input is tested before the numbers that are written to, which are too few for E.
pub fn print_widen_refusals(rt: &impl Print, set_e: Words) -> io::Result<()> {
    let twice = Words::new(set_e.map, b"WD\x01aWD\x01a");
    let mut stored = [7; 70];
    let cut = [7; 69];
    let _told = narrow(set_e.map, set_e.dict, &set_e.table::<80>(), &mut stored);
    widen_line::<79>(rt, "widen-word-twice", twice, &cut)?;
    widen_line::<79>(rt, "widen-69", set_e, &cut)?;
    widen_line::<79>(rt, "widen-to-79", set_e, &stored)?;
    stored[69] = 8;
    widen_line::<79>(rt, "widen-wrong", set_e, &stored)?;
    Ok(())
}

pub fn print_narrow_refusals(rt: &impl Print, set_e: Words) -> io::Result<()> {
    let twice = Words::new(set_e.map, b"WD\x01aWD\x01a");
    let mut table = set_e.table::<80>();
    let cut = [7; 79];
    narrow_line::<69>(rt, "narrow-word-twice", twice, &cut)?;
    narrow_line::<69>(rt, "narrow-79", set_e, &cut)?;
    narrow_line::<69>(rt, "narrow-to-69", set_e, &table)?;
    table[79] = 8;
    narrow_line::<69>(rt, "narrow-wrong", set_e, &table)?;
    Ok(())
}
