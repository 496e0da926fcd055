// A lent table, in either form, beside that of an accepted dictionary, which is made in a local array wherever a refusal may follow:
// so a refusal writes nothing.
ghost use Rattle.std.specs.Prelude.{◌≡◌};
ghost use Rattle.meaning.specs.Words.{Words};
ghost use Rattle.tree.specs.Forms.{table_in};
ghost use Rattle.automaton.specs.Building.{Accepted};
ghost use Rattle.automaton.specs.Lending.{judged, wrote, written};

use crate::building::{Built, build};
use crate::rows::{copy_numbers, same_numbers};
use letters::Reason;
use tree::{Form, MOST_NUMBERS};

// Whether a lent table begins with the right rows: 7 where it is shorter than these, else 8.
pub fn judge_table(
    map: &[u8],
    dict: &[u8],
    words: usize,
    form: Form,
    lent: &[u16],
) -> Result<(), Reason>
    requires { (X : Words) × Accepted X map.now dict.now words }
    ensures { (X : Words) → Accepted X map.now dict.now words → result ≡ judged (table_in form X) lent.now }
{
    let mut table = [0u16; MOST_NUMBERS];
    let built = build(map, dict, words, form, &mut table);
    let end = form.width() * built.states;
    if lent.len() < end {
        return Err(Reason::ShortTable);
    }
    if !same_numbers(lent, &table, end) {
        return Err(Reason::OtherTable);
    }
    Ok(())
}

// Made in a local array, and copied if it fits. Kept out of its callers, whose frames would have room for the array even where none
// is made.
#[inline(never)]
fn write_copy(
    map: &[u8],
    dict: &[u8],
    words: usize,
    form: Form,
    lent: &mut [u16],
) -> Result<Built, Reason>
    requires { (X : Words) × Accepted X map.now dict.now words }
    ensures { (X : Words) → Accepted X map.now dict.now words → (result ≡ wrote X (table_in form X) lent.old) × (lent.new ≡ written (table_in form X) lent.old) }
{
    let mut table = [0u16; MOST_NUMBERS];
    let built = build(map, dict, words, form, &mut table);
    let end = form.width() * built.states;
    if lent.len() < end {
        Err(Reason::ShortTable)
    } else {
        copy_numbers(lent, &table, end);
        Ok(built)
    }
}

// Where there is room for any table nothing is refused any more, and it is made in place.
pub fn write_table(
    map: &[u8],
    dict: &[u8],
    words: usize,
    form: Form,
    lent: &mut [u16],
) -> Result<Built, Reason>
    requires { (X : Words) × Accepted X map.now dict.now words }
    ensures { (X : Words) → Accepted X map.now dict.now words → (result ≡ wrote X (table_in form X) lent.old) × (lent.new ≡ written (table_in form X) lent.old) }
{
    if lent.len() < MOST_NUMBERS {
        return write_copy(map, dict, words, form, lent);
    }
    Ok(build(map, dict, words, form, lent))
}
