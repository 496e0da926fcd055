// A book: its check, and the text of a block.
ghost use Rattle.std.specs.Prelude.{◌≡◌};
ghost use Rattle.meaning.specs.Words.{word as text_of};
ghost use Rattle.records.specs.Book.{texts_of, offset_of, Block};
ghost use Rattle.judging.specs.Under.{book_under};
ghost use Rattle.orgamish.specs.Calls.{check_tells};
ghost use Rattle.orgamish.specs.Answers.{book_told};

use crate::answers::Checked;
use judging::is_map;
use letters::{Reason, Refusal};
use records::{
    BlockPart, block as block_text, block_part as part_of_book, check_book as check_records,
};

// How many words and blocks a book has.
pub fn check_book(map: &[u8], book: &[u8]) -> Result<Checked, Refusal>
    ensures { book_told result ≡ check_tells (book_under map.now book.now) }
{
    if !is_map(map) {
        return Err(Refusal::from(Reason::BadMap));
    }
    let found = check_records(map, book)?;
    Ok(Checked {
        words: found.words,
        blocks: found.blocks,
    })
}

// The text of block n, a part of the book; an empty part where map or book is refused or has no such block.
pub fn block<'a>(map: &[u8], book: &'a [u8], n: usize) -> &'a [u8]
    ensures { result.now ≡ text_of (texts_of (book_under map.now book.now)) n }
{
    if !is_map(map) {
        return &book[..0];
    }
    block_text(map, book, n)
}

// Where that text stands in the book: its offset and its length, both 0 where there is no such block.
pub fn block_part(map: &[u8], book: &[u8], n: usize) -> BlockPart
    ensures { Block book.now (texts_of (book_under map.now book.now)) n
        (offset_of (book_under map.now book.now) n) result.start result.len }
{
    if !is_map(map) {
        return BlockPart { start: 0, len: 0 };
    }
    part_of_book(map, book, n)
}
