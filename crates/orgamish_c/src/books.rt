// Books.
ghost use Rattle.std.specs.Prelude.{◌≡◌, [], ◌∷◌, get_or};
ghost use Rattle.meaning.specs.Words.{word as text_of};
ghost use Rattle.letters.specs.Letters.{part, identity as identity_of};
ghost use Rattle.records.specs.Book.{texts_of};
ghost use Rattle.judging.specs.Under.{book_under};
ghost use Rattle.orgamish.specs.Calls.{check_tells, block_tells};
ghost use Rattle.orgamish_c.specs.Told.{Passed};

use crate::told::{TOLD, pass};
use orgamish::{Checked, block_part, check_book, identity};

// What the book check tells.
fn sizes(checked: Checked) -> [u64; 4]
    ensures { result ≡ checked.words ∷ checked.blocks ∷ 0 ∷ 0 ∷ [] }
{
    [u64::from(checked.words), u64::from(checked.blocks), 0, 0]
}

#[unsafe(no_mangle)]
pub extern "C" fn orgamish_check_book(map: &[u8], book: &[u8], told: &mut [u64; TOLD]) -> u16
    ensures { Passed (check_tells (book_under map.now book.now)) result told.new }
{
    pass(told, check_book(map, book).map(sizes))
}

// The bytes there are the block's text.
#[unsafe(no_mangle)]
pub extern "C" fn orgamish_block(map: &[u8], book: &[u8], n: usize, told: &mut [u64; TOLD]) -> u16
    ensures { Passed (block_tells (book_under map.now book.now) n) result told.new
        × (part book.now (get_or told.new 1 0) (get_or told.new 2 0) ≡ text_of (texts_of (book_under map.now book.now)) n) }
{
    let part = block_part(map, book, n);
    pass(told, Ok([part.start as u64, part.len as u64, 0, 0]))
}

#[unsafe(no_mangle)]
pub extern "C" fn orgamish_identity(map: &mut [u8; 256])
    ensures { map.new ≡ identity_of }
{
    *map = identity();
}
