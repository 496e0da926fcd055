// The whole table of a dictionary that is accepted.
ghost use Rattle.meaning.specs.Words.{Words};
ghost use Rattle.tree.specs.declared.layout.Form.TheVariants.{Wide, Narrow};
ghost use Rattle.automaton.specs.Building.{Buildable, Plantable, Planted, Builds};

use crate::borders::complete_rows;
use tree::{
    ChildIndex, Form, MOST_NUMBERS, NONE, add_row, insert_word, longest_chain, narrow_rows,
};

// How many states the table has, and how long its longest chain is.
#[derive(Clone, Copy)]
pub struct Built {
    pub states: usize,
    pub longest: usize,
}

// The words are put into the tree, record by record. Tells the number of states.
fn plant(map: &[u8], dict: &[u8], words: usize, table: &mut [u16], index: &mut ChildIndex) -> usize
    requires { (X : Words) × Plantable X map.now dict.now words table.old index.old }
    ensures { (X : Words) → Plantable X map.now dict.now words table.old index.old → Planted X table.old table.new index.new result }
{
    add_row(table, 0, NONE, NONE, 0);
    let mut n = 1;
    let mut at = 0;
    for k in 0..words {
        let start = at + 3;
        let end = start + letters::word_len(dict, at);
        n = insert_word(map, table, index, n, &dict[start..end], k);
        at = end;
    }
    n
}

// Fills a lent array that has room for any table with that of a dictionary that is accepted with so many words; numbers past the
// last row stay. Linear in the letters but for the walks along siblings and borders.
fn build_wide(map: &[u8], dict: &[u8], words: usize, table: &mut [u16]) -> Built
    requires { (X : Words) × Buildable Wide X map.now dict.now words table.old }
    ensures { (X : Words) → Buildable Wide X map.now dict.now words table.old → Builds Wide X table.old table.new result.states result.longest }
{
    let mut index = ChildIndex::new();
    let states = plant(map, dict, words, table, &mut index);
    complete_rows(table, &index);
    let longest = longest_chain(table, states);
    Built { states, longest }
}

// The same without chain lengths. Kept out of its callers, whose frames would have room for its table even where none is made.
#[inline(never)]
fn build_narrow(map: &[u8], dict: &[u8], words: usize, narrow: &mut [u16]) -> Built
    requires { (X : Words) × Buildable Narrow X map.now dict.now words narrow.old }
    ensures { (X : Words) → Buildable Narrow X map.now dict.now words narrow.old → Builds Narrow X narrow.old narrow.new result.states result.longest }
{
    let mut table = [0u16; MOST_NUMBERS];
    let built = build_wide(map, dict, words, &mut table);
    narrow_rows(&table, built.states, narrow);
    built
}

// The same in either form.
pub fn build(map: &[u8], dict: &[u8], words: usize, form: Form, table: &mut [u16]) -> Built
    requires { (X : Words) × Buildable form X map.now dict.now words table.old }
    ensures { (X : Words) → Buildable form X map.now dict.now words table.old → Builds form X table.old table.new result.states result.longest }
{
    match form {
        Form::Wide => build_wide(map, dict, words, table),
        Form::Narrow => build_narrow(map, dict, words, table),
    }
}
