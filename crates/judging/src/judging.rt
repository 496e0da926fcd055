// The tests that the calls share, in order: 18, dictionary, 7, 8, 9, 10, 11, 22.
ghost use Rattle.std.specs.Prelude.{◌≡◌};
ghost use Rattle.letters.specs.Letters.{mapped};
ghost use Rattle.tree.specs.Forms.{table_in};
ghost use Rattle.judging.specs.Under.{words_under};
ghost use Rattle.judging.specs.Order.{table_refusal, scan_refusal, list_refusal, counted_refusal};
ghost use Rattle.judging.specs.Judging.{verdict, verdict_told};

use crate::maps::check_words;
use automaton::judge_table;
use columns::{MOST_COUNTED, are_columns};
use letters::{LONGEST_TEXT, Reason, Refusal};
use tree::Form;

// 18, the dictionary, 7, 8: of a table in either form.
pub fn judge_rows(map: &[u8], dict: &[u8], form: Form, table: &[u16]) -> Result<(), Refusal>
    ensures { verdict_told result ≡ verdict (λ X. table_refusal (table_in form X) table.now) (words_under map.now dict.now) }
{
    let dictionary = check_words(map, dict)?;
    judge_table(map, dict, usize::from(dictionary.words), form, table)?;
    Ok(())
}

// .. 9, 10.
pub fn judge_scan(
    map: &[u8],
    dict: &[u8],
    table: &[u16],
    text: &[u8],
    states: &[u16],
    counts: &[u64],
) -> Result<(), Refusal>
    ensures { verdict_told result ≡ verdict (λ X. scan_refusal X table.now (mapped map.now text.now) states.now counts.now) (words_under map.now dict.now) }
{
    judge_rows(map, dict, Form::Wide, table)?;
    if LONGEST_TEXT < text.len() {
        return Err(Refusal::from(Reason::LongText));
    }
    if states.len() <= text.len() || counts.len() <= text.len() {
        return Err(Refusal::from(Reason::ShortColumns));
    }
    Ok(())
}

// .. 11.
pub fn judge_list(
    map: &[u8],
    dict: &[u8],
    table: &[u16],
    text: &[u8],
    states: &[u16],
    counts: &[u64],
) -> Result<(), Refusal>
    ensures { verdict_told result ≡ verdict (λ X. list_refusal X table.now (mapped map.now text.now) states.now counts.now) (words_under map.now dict.now) }
{
    judge_scan(map, dict, table, text, states, counts)?;
    if !are_columns(map, table, text, states, counts) {
        return Err(Refusal::from(Reason::OtherColumns));
    }
    Ok(())
}

// .. 22: the greatest count may stand for more.
pub fn judge_count(
    map: &[u8],
    dict: &[u8],
    table: &[u16],
    text: &[u8],
    states: &[u16],
    counts: &[u64],
) -> Result<(), Refusal>
    ensures { verdict_told result ≡ verdict (λ X. counted_refusal X table.now (mapped map.now text.now) states.now counts.now) (words_under map.now dict.now) }
{
    judge_list(map, dict, table, text, states, counts)?;
    if counts[text.len()] == MOST_COUNTED {
        return Err(Refusal::from(Reason::GreatestCount));
    }
    Ok(())
}
