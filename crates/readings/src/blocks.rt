// The blocks of a book, scanned one by one.
ghost use Rattle.std.specs.Prelude.{◌≤◌, length};
ghost use Rattle.meaning.specs.Numbers.{most_words, longest_book};

use super::stop::Stop;
use letters::{Refusal, block_at};
use orgamish::scan;
use records::Dictionary;

// One for each position of the longest text, its start and end included.
const POSITIONS: usize = 4097;

// Prints the line of block n.
fn print_block(
    rt: &impl Print,
    n: u16,
    map: &[u8],
    dict: &[u8],
    table: &[u16],
    text: &[u8],
) -> Result<(), Stop> {
    let mut states = [0; POSITIONS];
    let mut counts = [0; POSITIONS];
    let found = scan(map, dict, table, text, &mut states, &mut counts)?;
    let verdict = if found.accepted { "yes" } else { "no" };
    println!(rt;
        "block {n} {verdict} {} {} {}",
        found.farthest, found.count, found.probes
    )?;
    Ok(())
}

// The lines of the block records, which stand where the words end.
pub fn print_blocks(
    rt: &impl Print,
    map: &[u8],
    book: &[u8],
    words: Dictionary,
    table: &[u16],
) -> Result<(), Stop>
    requires { (words.end ≤ length book.now) × (length book.now ≤ longest_book) × (words.words ≤ most_words) }
{
    let start = usize::from(words.end);
    let mut blocks: u16 = 0;
    let mut at = start;
    loop {
        match block_at(book, at) {
            Ok(Some(len)) => {
                let from = at + 4;
                at = from + len;
                print_block(rt, blocks, map, &book[..start], table, &book[from..at])?;
                blocks += 1;
            }
            Ok(None) => {
                println!(rt; "blocks {blocks} words {}", words.words)?;
                return Ok(());
            }
            Err(reason) => {
                let place = words.words + blocks;
                return Err(Stop::Refused(Refusal { reason, place }));
            }
        }
    }
}
