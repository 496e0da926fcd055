// Scan: the cap of the count, farthest, the limit of a text, and refusals of table and columns.
ghost use Rattle.std.specs.Prelude.{◌≤◌};

use super::lent::Words;
use super::lines::scanned_line;
use orgamish::scan;
use std::io;

// Scan, with columns of so many entries, all 7.
pub fn scan_line<const POSITIONS: usize>(
    rt: &impl Print,
    name: &str,
    words: Words,
    table: &[u16],
    text: &[u8],
) -> io::Result<()>
    requires { POSITIONS ≤ 65536 }
{
    columns_line::<POSITIONS, POSITIONS>(rt, name, words, table, text)
}

// .. which may have different numbers of them.
fn columns_line<const STATES: usize, const COUNTS: usize>(
    rt: &impl Print,
    name: &str,
    words: Words,
    table: &[u16],
    text: &[u8],
) -> io::Result<()>
    requires { (STATES ≤ 65536) × (COUNTS ≤ 65536) }
{
    let mut states = [7; STATES];
    let mut counts = [7; COUNTS];
    let told = scan(words.map, words.dict, table, text, &mut states, &mut counts);
    scanned_line(rt, name, told, &states, &counts)
}

// The words a and aa. The count of 93 letters passes 64 bits, though one letter b more has no
// reading.
pub fn print_counts_at_cap(rt: &impl Print, runs: Words) -> io::Result<()> {
    let table = runs.table::<24>();
    let mut text = [b'a'; 94];
    text[93] = b'b';
    scan_line::<95>(rt, "count-92", runs, &table, &text[..92])?;
    scan_line::<95>(rt, "count-93", runs, &table, &text[..93])?;
    scan_line::<95>(rt, "count-93-b", runs, &table, &text)
}

// With the words a and abc: the last reading of the texts ab and abd ends where abc has begun, and
// the one breaks off in that word, the other goes astray in it.
pub fn print_farthest(rt: &impl Print, nested: Words) -> io::Result<()> {
    let table = nested.table::<32>();
    scan_line::<4>(rt, "far-ab", nested, &table, b"ab")?;
    scan_line::<4>(rt, "far-abd", nested, &table, b"abd")
}

pub fn print_text_lengths(rt: &impl Print, set_e: Words) -> io::Result<()> {
    let table = set_e.table::<80>();
    scan_line::<4097>(rt, "text-4096", set_e, &table, &[b'a'; 4096])?;
    scan_line::<4098>(rt, "text-4097", set_e, &table, &[b'a'; 4097])
}

// The text aaaaab, with columns for it.
pub fn print_table_refusals(rt: &impl Print, set_e: Words) -> io::Result<()> {
    let text = b"aaaaab";
    let twice = Words::new(set_e.map, b"WD\x01aWD\x01a");
    let mut table = set_e.table::<80>();
    table[79] = 8;
    scan_line::<7>(rt, "scan-word-twice", twice, &table, text)?;
    scan_line::<7>(rt, "scan-table-79", set_e, &[7; 79], text)?;
    scan_line::<7>(rt, "scan-table-wrong", set_e, &table, text)
}

pub fn print_column_room(rt: &impl Print, set_e: Words) -> io::Result<()> {
    let text = b"aaaaab";
    let table = set_e.table::<80>();
    columns_line::<6, 7>(rt, "states-6", set_e, &table, text)?;
    columns_line::<7, 6>(rt, "counts-6", set_e, &table, text)?;
    columns_line::<7, 7>(rt, "columns-7", set_e, &table, text)
}
