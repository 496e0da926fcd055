// A book: word records, then block records.
ghost use Rattle.std.specs.Prelude.{◌≡◌, ◌≤◌, length};
ghost use Rattle.meaning.specs.Numbers.{most_words, longest_book};
ghost use Rattle.meaning.specs.Words.{Words as TextList, word as text_of};
ghost use Rattle.records.specs.Run.{book_words};
ghost use Rattle.records.specs.Book.{blocks as blocks_of, texts, book as book_of, texts_of, offset_from, offset_of, Block};
ghost use Rattle.records.specs.Told.{dictionary_told, run_tells, book_told, book_tells, blocks_tell};

use crate::dictionary::{Dictionary, word_run};
use letters::{LONGEST_BOOK, Reason, Refusal, block_at};

// A book that is accepted: so many words and blocks, and the offset of the first block record.
#[derive(Clone, Copy)]
pub struct Book {
    pub words: u16,
    pub blocks: u16,
    pub start: u16,
}

// The words of a book. Their end is where the block records start.
pub fn book_words(map: &[u8], book: &[u8]) -> Result<Dictionary, Refusal>
    ensures { dictionary_told result ≡ run_tells (book_words map.now book.now) }
{
    if LONGEST_BOOK < book.len() {
        return Err(Refusal::from(Reason::LongBook));
    }
    word_run(map, book, true)
}

// A book whose block records start at an offset, after so many words.
fn block_run(book: &[u8], start: u16, words: u16) -> Result<Book, Refusal>
    requires { (start ≤ length book.now) × (length book.now ≤ longest_book) × (words ≤ most_words) }
    ensures { book_told result ≡ blocks_tell words start (blocks_of book.now start) }
{
    let mut blocks: u16 = 0;
    let mut at = usize::from(start);
    loop {
        match block_at(book, at) {
            Ok(Some(len)) => {
                blocks += 1;
                at += 4 + len;
            }
            Ok(None) => {
                return Ok(Book {
                    words,
                    blocks,
                    start,
                });
            }
            Err(reason) => {
                return Err(Refusal {
                    reason,
                    place: words + blocks,
                });
            }
        }
    }
}

// A whole book.
pub fn check_book(map: &[u8], book: &[u8]) -> Result<Book, Refusal>
    ensures { book_told result ≡ book_tells (book_of map.now book.now) }
{
    let dictionary = book_words(map, book)?;
    block_run(book, dictionary.end, dictionary.words)
}

// A block's text in its book: its offset and its length.
#[derive(Clone, Copy)]
pub struct BlockPart {
    pub start: usize,
    pub len: usize,
}

// What stands for the text of a block that a book hasn't got.
const NO_BLOCK: BlockPart = BlockPart { start: 0, len: 0 };

// The text of block n of the block records from an offset on.
fn nth_part(book: &[u8], start: usize, n: usize) -> BlockPart
    requires { start ≤ length book.now }
    ensures { (T : TextList) → blocks_of book.now start ≡ texts T
        → Block book.now T n (offset_from start T n) result.start result.len }
{
    let mut at = start;
    for _ in 0..n {
        match block_at(book, at) {
            Ok(Some(len)) => at += 4 + len,
            Ok(None) => return NO_BLOCK,
            Err(_) => return NO_BLOCK,
        }
    }
    match block_at(book, at) {
        Ok(Some(len)) => BlockPart { start: at + 4, len },
        Ok(None) => NO_BLOCK,
        Err(_) => NO_BLOCK,
    }
}

// Where the text of block n stands in the book; 0 and 0 where the book is refused or has no such block.
pub fn block_part(map: &[u8], book: &[u8], n: usize) -> BlockPart
    ensures { Block book.now (texts_of (book_of map.now book.now)) n
        (offset_of (book_of map.now book.now) n) result.start result.len }
{
    match check_book(map, book) {
        Ok(found) => nth_part(book, usize::from(found.start), n),
        Err(_) => NO_BLOCK,
    }
}

// The text of block n, a part of the book; an empty part where the book is refused or has no such block.
pub fn block<'a>(map: &[u8], book: &'a [u8], n: usize) -> &'a [u8]
    ensures { result.now ≡ text_of (texts_of (book_of map.now book.now)) n }
{
    let part = block_part(map, book, n);
    &book[part.start..part.start + part.len]
}
