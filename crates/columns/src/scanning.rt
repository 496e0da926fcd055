// The scan of a text, which writes its columns.
ghost use Rattle.meaning.specs.Words.{Words};
ghost use Rattle.letters.specs.Letters.{mapped};
ghost use Rattle.columns.specs.Scans.{Room, Scans};

use crate::entries::entry_after;
use crate::reaching::farthest;
use tree::ChildIndex;

// What a scan tells: how far the text can be read, the count at its end, and the probes.
#[derive(Clone, Copy)]
pub struct Findings {
    pub farthest: usize,
    pub count: u64,
    pub probes: u32,
}

// A text is read alone: it begins in state 0 with the count 1. The index is filled once and takes at most 256 turns more than there
// are states. Then one turn a letter, at most 4,096; each goes along at most r words of a chain and, at each state of the step's climb
// whose children the index has not, along the siblings below the letter. All turns together climb at most as many borders as the text
// has letters. At last `farthest` goes back to the last reading.
pub fn scan(
    map: &[u8],
    table: &[u16],
    text: &[u8],
    states: &mut [u16],
    counts: &mut [u64],
) -> Findings
    requires { (X : Words) × Room X (mapped map.now text.now) table.now states.old counts.old }
    ensures { (X : Words)
        → Room X (mapped map.now text.now) table.now states.old counts.old
        → Scans X (mapped map.now text.now) states.old states.new
        counts.old counts.new result.farthest result.count result.probes }
{
    let mut index = ChildIndex::new();
    index.note_tree(table);
    states[0] = 0;
    counts[0] = 1;
    let mut count: u64 = 1;
    let mut probes: u32 = 0;
    let mut s = 0;
    for i in 0..text.len() {
        let entry = entry_after(map, table, &index, text, counts, s, i);
        s = entry.state;
        count = entry.count;
        states[i + 1] = s as u16;
        counts[i + 1] = count;
        probes += entry.probes;
    }
    Findings {
        farthest: farthest(table, states, counts, text.len()),
        count,
        probes,
    }
}
