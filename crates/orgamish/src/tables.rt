// Tables: built, and moved from one form to the other.
ghost use Rattle.std.specs.Prelude.{◌≡◌};
ghost use Rattle.tree.specs.Forms.{table_in};
ghost use Rattle.judging.specs.Under.{words_under};
ghost use Rattle.orgamish.specs.Calls.{write_tells, write_leaves, move_tells, move_leaves, build_tells, build_leaves, widen_tells, widen_leaves, narrow_tells, narrow_leaves};
ghost use Rattle.orgamish.specs.Answers.{build_told};

use crate::answers::Built;
use automaton::write_table;
use judging::{check_words, judge_rows};
use letters::Refusal;
use tree::Form;

// The table that a dictionary gives is written in either form.
fn build_in(map: &[u8], dict: &[u8], form: Form, table: &mut [u16]) -> Result<Built, Refusal>
    ensures { (build_told result ≡ write_tells (table_in form) (words_under map.now dict.now) table.old)
        × (table.new ≡ write_leaves (table_in form) (words_under map.now dict.now) table.old) }
{
    let words = check_words(map, dict)?.words;
    let written = write_table(map, dict, usize::from(words), form, table)?;
    Ok(Built {
        words,
        states: written.states as u16,
        longest: written.longest as u16,
    })
}

// The input, in its form, is judged first; then its table is written in the other.
fn move_in(
    map: &[u8],
    dict: &[u8],
    other: Form,
    input: &[u16],
    form: Form,
    table: &mut [u16],
) -> Result<Built, Refusal>
    ensures { (build_told result ≡ move_tells (table_in form) (words_under map.now dict.now) table.old (table_in other) input.now)
        × (table.new ≡ move_leaves (table_in form) (words_under map.now dict.now) table.old (table_in other) input.now) }
{
    judge_rows(map, dict, other, input)?;
    build_in(map, dict, form, table)
}

// The table that a dictionary gives is written to the first numbers of a lent one.
pub fn build(map: &[u8], dict: &[u8], table: &mut [u16]) -> Result<Built, Refusal>
    ensures { (build_told result ≡ build_tells (words_under map.now dict.now) table.old)
        × (table.new ≡ build_leaves (words_under map.now dict.now) table.old) }
{
    build_in(map, dict, Form::Wide, table)
}

// A table stored with seven numbers a row is written with eight.
pub fn widen(map: &[u8], dict: &[u8], narrow: &[u16], table: &mut [u16]) -> Result<Built, Refusal>
    ensures { (build_told result ≡ widen_tells (words_under map.now dict.now) table.old narrow.now)
        × (table.new ≡ widen_leaves (words_under map.now dict.now) table.old narrow.now) }
{
    move_in(map, dict, Form::Narrow, narrow, Form::Wide, table)
}

// .. and one of eight with seven.
pub fn narrow(map: &[u8], dict: &[u8], table: &[u16], narrow: &mut [u16]) -> Result<Built, Refusal>
    ensures { (build_told result ≡ narrow_tells (words_under map.now dict.now) table.now narrow.old)
        × (narrow.new ≡ narrow_leaves (words_under map.now dict.now) table.now narrow.old) }
{
    move_in(map, dict, Form::Wide, table, Form::Narrow, narrow)
}
