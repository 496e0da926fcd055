// The index of the children of the root, and of some one-letter states: for these a row each, while rows last.
ghost use Rattle.std.specs.Prelude.{◌≡◌, ◌+◌, ◌≤◌, ◌<◌, IfSome};
ghost use Rattle.meaning.specs.Numbers.{letter_values, most_states};
ghost use Rattle.meaning.specs.Words.{Words, snoc, find, word};
ghost use Rattle.meaning.proofs.Children.{NoChild};
ghost use Rattle.tree.specs.Found.{found, present};
ghost use Rattle.tree.specs.Tree.{Tree, AtState};
ghost use Rattle.tree.specs.Index.{rows, cell, Indexed, IndexedAt, Based, Vacant, Empty, Filled, OneLetter};
ghost use Rattle.tree.specs.Insertion.{known_child, noted, claimed, rowed, Sought};

use crate::children::{Place, child_by, seek};
use crate::layout::{NONE, depth, first_child, letter, next_sibling, present};

// What the index has for a letter without a child, and for a row without an owner: a number, as an Option would take twice the stack.
pub const NO_CHILD: u16 = 65535;

// The numbers of a block: one for each letter.
const LETTERS: usize = 256;

// How many rows there are. A letter shares its row with those of the same remainder: the first to come owns it.
const ROWS: usize = 16;

const BLOCKS: usize = ROWS + 1;

#[derive(Clone, Copy)]
pub struct ChildIndex {
    // The children by each letter: of the root in block 0, and in block r + 1 of the state that owns row r.
    blocks: [[u16; LETTERS]; BLOCKS],
    // For each row the letter of that state.
    owners: [u16; ROWS],
}

// Where the search below the letter a begins: at a, or at 0 where the root has no child below a. Its first child tells.
fn search_start(table: &[u16], a: usize) -> usize
    requires { (X S : Words) × Tree X S table.now }
    ensures { (result ≤ a) × ((X S : Words) → Tree X S table.now → NoChild S (word S 0) result a) }
{
    let first = first_child(table, 0);
    if first == NONE {
        return 0;
    }
    if a <= letter(table, first) {
        return 0;
    }
    a
}

impl ChildIndex {
    // No child, and no row has an owner.
    pub fn new() -> ChildIndex
        ensures { Vacant result }
    {
        ChildIndex {
            blocks: [[NO_CHILD; LETTERS]; BLOCKS],
            owners: [NO_CHILD; ROWS],
        }
    }

    // The index of a tree.
    pub fn of(table: &[u16]) -> ChildIndex
        requires { (X S : Words) × Tree X S table.now }
        ensures { (X S : Words) → Tree X S table.now → Indexed S result }
    {
        let mut index = ChildIndex::new();
        index.note_tree(table);
        index
    }

    // Notes in a vacant index the children of the root, and of each state that takes a row. Goes along the root's children twice, and
    // once along those of the states that own a row: at most 256 turns more than there are states.
    pub fn note_tree(&mut self, table: &[u16])
        requires tree { (X S : Words) × Tree X S table.now }
        requires vacant { Vacant self.old }
        ensures { (X S : Words) → Tree X S table.now → Indexed S self.new }
    {
        self.note_children(table, 0, 0);
        let mut c = first_child(table, 0);
        while c != NONE {
            let x = letter(table, c);
            self.take_row(table, x, c);
            c = next_sibling(table, c);
        }
    }

    // The children of state p are noted in block k. Goes along them once, at most 256.
    fn note_children(&mut self, table: &[u16], k: usize, p: usize)
        requires at_state { (X S : Words) × AtState X S table.now p }
        requires room { (k ≤ rows) × Empty self.old k }
        ensures { (X S : Words) → AtState X S table.now p → Filled S (word S p) k self.old self.new }
    {
        let mut c = first_child(table, p);
        while c != NONE {
            let a = letter(table, c);
            self.blocks[k][a] = c as u16;
            c = next_sibling(table, c);
        }
    }

    // The one-letter state c by x takes its row, where that has no owner.
    fn take_row(&mut self, table: &[u16], x: usize, c: usize)
        requires { (X S : Words) × OneLetter X S table.now self.old x c }
        ensures { (X S : Words) → OneLetter X S table.now self.old x c → Indexed S self.new }
    {
        let row = x % ROWS;
        if self.owners[row] == NO_CHILD {
            self.owners[row] = x as u16;
            self.note_children(table, row + 1, c);
        }
    }

    // The block with the children of state v, or none.
    pub(crate) fn block_of(&self, table: &[u16], v: usize) -> Option<usize>
        requires { (X S : Words) × IndexedAt X S table.now self.now v }
        ensures { (X S : Words) → IndexedAt X S table.now self.now v → Based self.now (word S v) result }
    {
        if v == 0 {
            return Some(0);
        }
        if depth(table, v) != 1 {
            return None;
        }
        let x = letter(table, v);
        let row = x % ROWS;
        if usize::from(self.owners[row]) != x {
            return None;
        }
        Some(row + 1)
    }

    // The child by the letter a in block k.
    fn child_in(&self, k: usize, a: usize) -> Option<usize>
        requires { (k ≤ rows) × (a < letter_values) }
        ensures { result ≡ present (cell self.now k a) }
    {
        present(usize::from(self.blocks[k][a]))
    }

    // The root's child by the letter a.
    pub fn root_child(&self, a: usize) -> Option<usize>
        requires { a < letter_values }
        ensures { result ≡ present (cell self.now 0 a) }
    {
        self.child_in(0, a)
    }

    // The child of v with the letter a, or none: by the index where it has the children of v, else by the sibling walk.
    pub(crate) fn child_of(&self, table: &[u16], v: usize, a: usize) -> Option<usize>
        requires indexed_at { (X S : Words) × IndexedAt X S table.now self.now v }
        requires letter { a < letter_values }
        ensures { (X S : Words) → IndexedAt X S table.now self.now v → result ≡ found (find S (snoc (word S v) a)) }
    {
        match self.block_of(table, v) {
            Some(k) => self.child_in(k, a),
            None => child_by(table, v, a),
        }
    }

    // The place of a child of the root with the letter a. Goes down the letters below a to the first that has a child, where one has.
    fn seek_root(&self, table: &[u16], a: usize) -> Place
        requires indexed_at { (X S : Words) × IndexedAt X S table.now self.now 0 }
        requires letter { a < letter_values }
        ensures { (X S : Words) → IndexedAt X S table.now self.now 0 → Sought S (word S 0) a result.before result.next }
    {
        let start = search_start(table, a);
        for b in (0..start).rev() {
            let before = self.root_child(b);
            if let Some(sibling) = before {
                let next = present(next_sibling(table, sibling));
                return Place { before, next };
            }
        }
        let next = present(first_child(table, 0));
        Place { before: None, next }
    }

    // The place of a child of p with the letter a: by the index where p is the root, else by the sibling walk.
    pub(crate) fn place_under(&self, table: &[u16], p: usize, a: usize) -> Place
        requires indexed_at { (X S : Words) × IndexedAt X S table.now self.now p }
        requires letter { a < letter_values }
        ensures { (X S : Words) → IndexedAt X S table.now self.now p → Sought S (word S p) a result.before result.next }
    {
        if p == 0 {
            return self.seek_root(table, a);
        }
        seek(table, p, a)
    }

    // The child with the letter a in the block, if it is one; none where there is no block.
    pub(crate) fn known_child(&self, block: Option<usize>, a: usize) -> Option<usize>
        requires { (a < letter_values) × IfSome block (λ k. k ≤ rows) }
        ensures { result ≡ known_child self.now block a }
    {
        self.child_in(block?, a)
    }

    // The new state n joins the block of its parent, where there is one.
    pub(crate) fn note(&mut self, block: Option<usize>, a: usize, n: usize)
        requires { (a < letter_values) × (n < most_states) × IfSome block (λ k. k ≤ rows) }
        ensures { self.new ≡ noted self.old block a n }
    {
        if let Some(k) = block {
            self.blocks[k][a] = n as u16;
        }
    }

    // The one-letter state x owns its row, where that has no owner. It is new, so the row stays empty.
    fn claim_row(&mut self, x: usize)
        requires { x < letter_values }
        ensures { self.new ≡ claimed self.old x }
    {
        let row = x % ROWS;
        if self.owners[row] == NO_CHILD {
            self.owners[row] = x as u16;
        }
    }

    // The new child of p with the letter a claims a row, where p is the root.
    pub(crate) fn claim_under(&mut self, p: usize, a: usize)
        requires { a < letter_values }
        ensures { self.new ≡ rowed self.old p a }
    {
        if p == 0 {
            self.claim_row(a);
        }
    }
}
