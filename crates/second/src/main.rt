// A second computation of the library's answers for a fixed family of small cases, by plain search
// and with none of the library's code: every suffix is tried against every word or state. It prints
// a running checksum, to be compared with that of `many`, which goes through the library. Both take the
// cases and the checksum from the crate `cases`, and share no other code.
//
// Random numbers: a state x, at first 20260114. `rnd(n)`, for n of 1 or more, makes x
// (x * 1103515245 + 12345) % 2147483648, and gives (x / 65536) % n.
//
// Cases are numbered 0 to 3,999, and x goes on from case to case. For each, in this order:
// 1. letters = 2 + rnd(2).
// 2. words = rnd(7). For each word: length = 1 + rnd(4), then length times a letter
//    97 + rnd(letters). Its record is 87, 68, length, the letters. The dictionary is the records one
//    after the other, at most 42 bytes.
// 3. damage = rnd(8). If it is 0 and the dictionary is not empty: p = rnd(its length),
//    v = rnd(256), and byte p becomes v. If it is 1 and the dictionary is not empty: it is cut to
//    its first rnd(its length) bytes.
// 4. kind = rnd(4). If it is 0 or words is 0: the text has rnd(13) letters, each 97 + rnd(letters).
//    Otherwise the text is made of words as they were before damage. It is empty at first; then,
//    1 + rnd(5) times, w = rnd(words), and word w is appended if the text then has at most 16
//    letters, and is else left out.
// 5. A letter map, at first of 256 bytes, byte i being i. joins = rnd(4). If it isn't 0, bytes 87 and
//    68 of the map become 84, and byte 1 becomes 2. Then, joins times: from = 97 + rnd(3),
//    to = rnd(6), and byte `from` of the map becomes 97 + to if to is below 3, else 127 * (to - 3).
//    Then size = rnd(24): if it is 0 the map is lent with no byte, if 1 with its first 255 bytes, if
//    2 with one byte more, 0, else as it is.
//
// The checksum h is 0 at first, and mixing v in makes it (h * 1000003 + v + 1) % 4294967291. Of each
// case are mixed in, in this order, where letters are what the map makes of bytes, in words and text,
// and marks and lengths are bytes as they are:
// - map or dictionary refused: 1, the refusal's number, its place, and nothing more;
// - not refused: 0; the numbers of words and states, and r; the table's numbers, eight for each
//   state, row by row, 65,535 for none; the same once more of the table moved to seven numbers a
//   row, and of that moved back to eight; the state column, positions 0 to the text's length; the
//   count column likewise; the verdict (1 accepted, 0 not), farthest (the greatest length of a prefix
//   of the text that is also a prefix of some concatenation of words), the count at the end, probes;
//   for each reading, in the order of listing and 40 at most, the number of its words and its word
//   numbers left to right; the number of readings so listed;
// - not refused, at last what jump (the reading of a number) and place (the number of a reading)
//   tell. Of every reading, in the order of listing and all of them: the number of its words and its
//   word numbers left to right, as jump to its number writes them; then its number, from 0, as place
//   tells it. Of the number that is the count at the end, one past the last, or 0 for a text without
//   readings: 21 and 0, jump's refusal and its place. Of the word sequence of no words: its number 0
//   if the text is empty, else 13 and 0, place's refusal and its place. Of the last reading without
//   its last word: 13 and 0 likewise; nothing where there is no reading, or it has no words.
//
// After each case c with c % 100 = 99 a line is printed: `cases`, c + 1, h, with one space between
// fields. So there are 40 lines.
#![tactic(auto)]

ghost use Rattle.std.specs.Prelude.{◌≤◌, length};
ghost use Rattle.std.specs.List.{sum_by};

mod automaton;
mod readings;
mod records;
mod refusal;
mod scan;
mod strings;

use automaton::Automaton;
use cases::{CASES, Case, Checksum, FIRST_STATE, next_case};
use readings::{mix_listed, mix_numbered};
use records::{mapped, parse};
use refusal::{Reason, Refusal};
use scan::{counts_of, mix_scan};
use std::io;

// Mixes in what accepted words and a text give.
fn mix_words(sum: &mut Checksum, words: &[&[u8]], text: &[u8])
    requires words { sum_by (λ word. length word.now) words.now ≤ 42 }
    requires text { length text.now ≤ 16 }
{
    let automaton = Automaton::of(words);
    for width in [8, 7, 8] {
        automaton.mix_table(sum, width);
    }
    automaton.mix_states(sum, text);
    mix_scan(sum, words, text, counts_of(words, text).as_slice());
    mix_listed(sum, words, text);
    mix_numbered(sum, words, text);
}

// Mixes in what one case gives, if it isn't refused. After the records are parsed only letters count.
fn mix_answers(sum: &mut Checksum, case: &Case) -> Result<(), Refusal> {
    let map = <&[u8; 256]>::try_from(case.map.as_slice()).map_err(|_| Refusal {
        reason: Reason::MapLength,
        place: 0,
    })?;
    let letters = mapped(map, &case.dictionary);
    let words = parse(case.dictionary.as_slice(), letters.as_slice())?;
    let text = mapped(map, &case.text);
    sum.mix(0);
    mix_words(sum, words.as_slice(), text.as_slice());
    Ok(())
}

// Mixes in what one case gives.
fn mix_case(sum: &mut Checksum, case: &Case) {
    if let Err(refusal) = mix_answers(sum, case) {
        sum.mix(1);
        refusal.mix(sum);
    }
}

fn main(rt: HostRuntime) -> io::Result<()> {
    let mut x = FIRST_STATE;
    let mut sum = Checksum::default();
    for c in 1..=CASES {
        mix_case(&mut sum, &next_case(&mut x));
        if c % 100 == 0 {
            println!(rt; "cases {c} {}", sum.h)?;
        }
    }
    Ok(())
}
