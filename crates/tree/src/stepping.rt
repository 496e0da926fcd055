// The step from a state by a letter.
ghost use Rattle.std.specs.Prelude.{◌≡◌, ◌<◌};
ghost use Rattle.std.proofs.Math.Option.{some};
ghost use Rattle.meaning.specs.Numbers.{letter_values};
ghost use Rattle.meaning.specs.Words.{Words, snoc, word};
ghost use Rattle.meaning.specs.Automaton.{nearest, border as border_state};
ghost use Rattle.tree.specs.Filling.{root_step, Bordered};

use crate::index::ChildIndex;
use crate::layout::border;

// The state after the root and the letter a: the child by the index, else the root.
fn root_step(index: &ChildIndex, a: usize) -> usize
    requires { a < letter_values }
    ensures { result ≡ root_step index.now a }
{
    index.root_child(a).unwrap_or(0)
}

// The state after state s and the letter a: the child of s, else that of its border, and so on up to the root. Over a text of n
// letters all steps together climb at most n borders.
pub fn step(table: &[u16], index: &ChildIndex, s: usize, a: usize) -> usize
    requires bordered { (X S : Words) × Bordered X S table.now index.now s }
    requires letter { a < letter_values }
    ensures { (X S : Words) → Bordered X S table.now index.now s → nearest S S (snoc (word S s) a) ≡ some result }
{
    let mut v = s;
    while v != 0 {
        if let Some(c) = index.child_of(table, v, a) {
            return c;
        }
        v = border(table, v);
    }
    root_step(index, a)
}

// The border of the child of p by the letter a: the root's children have the root, any other the step from p's border.
pub fn child_border(table: &[u16], index: &ChildIndex, p: usize, a: usize) -> usize
    requires bordered { (X S : Words) × Bordered X S table.now index.now p }
    requires letter { a < letter_values }
    ensures { (X S : Words) → Bordered X S table.now index.now p → border_state S (snoc (word S p) a) ≡ some result }
{
    if p == 0 {
        return 0;
    }
    step(table, index, border(table, p), a)
}
