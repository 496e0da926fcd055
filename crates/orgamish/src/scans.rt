// Scan: the columns of a text.
ghost use Rattle.std.specs.Prelude.{◌≡◌};
ghost use Rattle.letters.specs.Letters.{mapped};
ghost use Rattle.judging.specs.Under.{words_under};
ghost use Rattle.orgamish.specs.Calls.{scan_tells, scan_leaves_states, scan_leaves_counts};
ghost use Rattle.orgamish.specs.Answers.{scan_told};

use crate::answers::Scanned;
use columns::scan as scan_text;
use judging::judge_scan;
use letters::Refusal;

// The columns of a text are written to the first entries of lent ones.
pub fn scan(
    map: &[u8],
    dict: &[u8],
    table: &[u16],
    text: &[u8],
    states: &mut [u16],
    counts: &mut [u64],
) -> Result<Scanned, Refusal>
    ensures { (scan_told result ≡ scan_tells (words_under map.now dict.now) table.now (mapped map.now text.now) states.old counts.old)
        × (states.new ≡ scan_leaves_states (words_under map.now dict.now) table.now (mapped map.now text.now) states.old counts.old)
        × (counts.new ≡ scan_leaves_counts (words_under map.now dict.now) table.now (mapped map.now text.now) states.old counts.old) }
{
    judge_scan(map, dict, table, text, states, counts)?;
    let found = scan_text(map, table, text, states, counts);
    Ok(Scanned {
        accepted: 0 < found.count,
        farthest: found.farthest as u16,
        count: found.count,
        probes: found.probes,
    })
}
