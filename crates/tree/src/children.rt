// The children of a state: its sibling list, in rising letter order.
ghost use Rattle.std.specs.Prelude.{◌≡◌, ◌<◌};
ghost use Rattle.meaning.specs.Numbers.{letter_values};
ghost use Rattle.meaning.specs.Words.{Word, Words, snoc, find, word};
ghost use Rattle.tree.specs.Found.{found};
ghost use Rattle.tree.specs.Tree.{Tree, AtState};
ghost use Rattle.tree.specs.Insertion.{Sought};

use crate::layout::{NONE, first_child, letter, next_sibling};

// The child of a state with the least letter not below a given one, and the child before it.
#[derive(Clone, Copy)]
pub struct Place {
    pub before: Option<usize>,
    pub next: Option<usize>,
}

impl Place {
    // The child at the place, if it has the letter a.
    pub fn child(self, table: &[u16], a: usize) -> Option<usize>
        requires sought { (X S : Words) × (u : Word) × Tree X S table.now × Sought S u a self.before self.next }
        requires letter { a < letter_values }
        ensures { (X S : Words) (u : Word) → Tree X S table.now → Sought S u a self.before self.next → result ≡ found (find S (snoc u a)) }
    {
        let next = self.next?;
        if letter(table, next) == a {
            return Some(next);
        }
        None
    }
}

// Goes along at most as many siblings as letters are below a.
pub fn seek(table: &[u16], p: usize, a: usize) -> Place
    requires at_state { (X S : Words) × AtState X S table.now p }
    requires letter { a < letter_values }
    ensures { (X S : Words) → AtState X S table.now p → Sought S (word S p) a result.before result.next }
{
    let mut before = None;
    let mut next = first_child(table, p);
    while next != NONE {
        if a <= letter(table, next) {
            return Place {
                before,
                next: Some(next),
            };
        }
        before = Some(next);
        next = next_sibling(table, next);
    }
    Place { before, next: None }
}

// The child of p with the letter a, or none.
pub fn child_by(table: &[u16], p: usize, a: usize) -> Option<usize>
    requires at_state { (X S : Words) × AtState X S table.now p }
    requires letter { a < letter_values }
    ensures { (X S : Words) → AtState X S table.now p → result ≡ found (find S (snoc (word S p) a)) }
{
    seek(table, p, a).child(table, a)
}
