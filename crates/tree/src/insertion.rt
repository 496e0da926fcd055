// Words put into the tree, letter by letter.
ghost use Rattle.std.specs.Prelude.{◌≡◌, ◌<◌, IfSome};
ghost use Rattle.meaning.specs.Numbers.{most_states};
ghost use Rattle.meaning.specs.Words.{Words, word};
ghost use Rattle.letters.specs.Letters.{mapped};
ghost use Rattle.tree.specs.Layout.{HasRow};
ghost use Rattle.tree.specs.Insertion.{attached, Open, Reaching, Insertable, Inserted};

use crate::index::ChildIndex;
use crate::layout::{NONE, add_row, set_first_child, set_next_sibling, set_word};

// A state of a tree of so many states.
#[derive(Clone, Copy)]
pub struct Reached {
    pub state: usize,
    pub count: usize,
}

// The new state n becomes p's first child, or the next sibling of p's child before it.
fn attach(table: &mut [u16], p: usize, before: Option<usize>, n: usize)
    requires { HasRow table.old p × IfSome before (λ b. HasRow table.old b) × (n < most_states) }
    ensures { table.new ≡ attached table.old p before n }
{
    match before {
        Some(b) => set_next_sibling(table, b, n),
        None => set_first_child(table, p, n),
    }
}

// The child of p with the letter a, at the depth given, which is added where there is none. Where the index has p's children it tells
// whether there is one; else, and for the place of a new one but the root's, the sibling walk does.
fn reach(
    table: &mut [u16],
    index: &mut ChildIndex,
    n: usize,
    p: usize,
    a: usize,
    depth: usize,
) -> Reached
    requires { (X S : Words) × Open X S table.old index.old n p a depth }
    ensures { (X S : Words) → Open X S table.old index.old n p a depth → Reaching X S (word S p) a table.old table.new index.new result.state result.count }
{
    let block = index.block_of(table, p);
    if let Some(state) = index.known_child(block, a) {
        return Reached { state, count: n };
    }
    let place = index.place_under(table, p, a);
    if let Some(state) = place.child(table, a) {
        return Reached { state, count: n };
    }
    let next = place.next.unwrap_or(NONE);
    add_row(table, n, a, next, depth);
    attach(table, p, place.before, n);
    index.note(block, a, n);
    index.claim_under(p, a);
    let count = n + 1;
    Reached { state: n, count }
}

// Word k is put into the tree of n states. Tells the number of states after.
pub fn insert_word(
    map: &[u8],
    table: &mut [u16],
    index: &mut ChildIndex,
    n: usize,
    letters: &[u8],
    k: usize,
) -> usize
    requires { (X S : Words) × Insertable X S table.old index.old n (mapped map.now letters.now) k }
    ensures { (X S : Words) → Insertable X S table.old index.old n (mapped map.now letters.now) k → Inserted X S (mapped map.now letters.now) table.old table.new index.new result }
{
    let mut last = Reached { state: 0, count: n };
    for (i, b) in letters.iter().enumerate() {
        let letter = letters::letter(map, *b);
        let a = usize::from(letter);
        last = reach(table, index, last.count, last.state, a, i + 1);
    }
    set_word(table, last.state, k);
    last.count
}
