// Borders, links and chain lengths, filled in one pass, breadth first: those of a state are read from the rows of shorter states.
ghost use Rattle.std.specs.Prelude.{length};
ghost use Rattle.meaning.specs.Words.{Words};
ghost use Rattle.tree.specs.Insertion.{Growing};
ghost use Rattle.tree.specs.Filling.{Completed};
ghost use Rattle.automaton.specs.Queue.{Settling, Settles, Taking, Taken};

use arrayvec::ArrayVec;
use tree::{
    ChildIndex, NONE, border, child_border, count_chain, first_child, first_word, letter,
    next_sibling, set_border, set_chain_length, set_link,
};

// The states in the order in which they are gone through, with room for as many as there can be.
type Queue = ArrayVec<u16, 2048>;

// The border, the link and the chain's length of p's child c, which joins the queue.
// The border's own row tells the link and the length: no border is climbed and no chain walked for them.
fn settle(table: &mut [u16], index: &ChildIndex, queue: &mut Queue, p: usize, c: usize)
    requires { (X S : Words) × Settling X S table.old index.now queue.old.items p c }
    ensures { (X S : Words) → Settling X S table.old index.now queue.old.items p c → Settles X S table.old table.new index.now queue.old.items queue.new.items p c }
{
    if border(table, c) != NONE {
        return;
    }
    let b = child_border(table, index, p, letter(table, c));
    let l = first_word(table, b);
    let k = count_chain(table, c, b);
    set_border(table, c, b);
    set_link(table, c, l);
    set_chain_length(table, c, k);
    queue.push(c as u16);
}

// The same of the children of p, which join the queue.
fn take_out(table: &mut [u16], index: &ChildIndex, queue: &mut Queue, p: usize)
    requires { (X S : Words) × Taking X S table.old index.now queue.old.items p }
    ensures { (X S : Words) → Taking X S table.old index.now queue.old.items p → Taken X S table.old table.new index.now queue.old.items queue.new.items p }
{
    let mut c = first_child(table, p);
    while c != NONE {
        settle(table, index, queue, p, c);
        c = next_sibling(table, c);
    }
}

// The same of all states, each once: the queue begins with the root, and depths rise along it. At most 2,048 states are taken out;
// for each the siblings below its own letter are passed at its border, unless the index has that state's children, and those borders
// are climbed that a text of its word would climb. A link costs at most two reads, a chain's length two.
pub fn complete_rows(table: &mut [u16], index: &ChildIndex)
    requires { (X S : Words) × Growing X S table.old index.now (length S) }
    ensures { (X S : Words) → Growing X S table.old index.now (length S) → Completed X S table.old table.new }
{
    let mut queue = Queue::new();
    queue.push(0);
    let mut head = 0;
    while head < queue.len() {
        let p = usize::from(queue.as_slice()[head]);
        take_out(table, index, &mut queue, p);
        head += 1;
    }
}
