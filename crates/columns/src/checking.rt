// Whether lent columns are those that the scan of a text leaves.
ghost use Rattle.std.specs.Prelude.{◌≡◌, ◌<◌, length};
ghost use Rattle.meaning.specs.Words.{Words};
ghost use Rattle.letters.specs.Letters.{mapped};
ghost use Rattle.columns.specs.Scans.{Room, holds_at, are_columns};

use crate::entries::entry_after;
use tree::ChildIndex;

fn holds_at(states: &[u16], counts: &[u64], i: usize, s: usize, c: u64) -> bool
    requires { (i < length states.now) × (i < length counts.now) }
    ensures { result ≡ holds_at states.now counts.now i s c }
{
    usize::from(states[i]) == s && counts[i] == c
}

// Each entry is computed from the lent ones before it, which are right by then: no second pair of columns is made. One turn a letter
// up to the first entry that differs, at the cost of a turn of the scan.
pub fn are_columns(map: &[u8], table: &[u16], text: &[u8], states: &[u16], counts: &[u64]) -> bool
    requires { (X : Words) × Room X (mapped map.now text.now) table.now states.now counts.now }
    ensures { (X : Words)
        → Room X (mapped map.now text.now) table.now states.now counts.now
        → result ≡ are_columns X (mapped map.now text.now) states.now counts.now }
{
    if !holds_at(states, counts, 0, 0, 1) {
        return false;
    }
    let index = ChildIndex::of(table);
    let mut s = 0;
    for i in 0..text.len() {
        let entry = entry_after(map, table, &index, text, counts, s, i);
        s = entry.state;
        if !holds_at(states, counts, i + 1, s, entry.count) {
            return false;
        }
    }
    true
}
