// One record at an offset.
ghost use Rattle.std.specs.Prelude.{◌≡◌, ◌+◌, ◌≤◌, length};
ghost use Rattle.letters.specs.Record.{marked as marked_of, sized_word, record_at, Measured, sized_block, block_at};

use crate::limits::{BLOCK_MARK, LONGEST_TEXT, LONGEST_WORD, WORD_MARK};
use crate::refusal::Reason;

// What stands where a word is due.
#[derive(Clone, Copy)]
pub enum Record {
    // The bytes are at their end.
    End,
    // A block mark.
    Block,
    // A word record with so many letters.
    Word { len: usize },
}

// Whether the mark stands at the offset.
fn marked(bytes: &[u8], at: usize, mark: [u8; 2]) -> bool
    ensures { result ≡ marked_of mark bytes.now at }
{
    at <= bytes.len() && bytes[at..].starts_with(&mark)
}

// The word record at an offset whose length byte says len.
fn sized_word(bytes: &[u8], at: usize, len: usize) -> Result<Record, Reason>
    requires { at + 3 ≤ length bytes.now }
    ensures { result ≡ sized_word bytes.now at len }
{
    if len == 0 || LONGEST_WORD < len {
        return Err(Reason::WordLength);
    }
    if bytes.len() - at - 3 < len {
        return Err(Reason::CutWord);
    }
    Ok(Record::Word { len })
}

// The record at an offset where a word is due.
pub fn record_at(bytes: &[u8], at: usize) -> Result<Record, Reason>
    ensures { result ≡ record_at bytes.now at }
{
    if bytes.len() <= at {
        return Ok(Record::End);
    }
    if marked(bytes, at, BLOCK_MARK) {
        return Ok(Record::Block);
    }
    if !marked(bytes, at, WORD_MARK) {
        return Err(Reason::WordMark);
    }
    if bytes.len() - at < 3 {
        return Err(Reason::CutWord);
    }
    sized_word(bytes, at, usize::from(bytes[at + 2]))
}

// How many letters the word record at an offset has, 0 where there is none.
pub fn word_len(bytes: &[u8], at: usize) -> usize
    ensures { Measured bytes.now at result }
{
    match record_at(bytes, at) {
        Ok(Record::Word { len }) => len,
        _ => 0,
    }
}

// The length of the text of the block record at an offset, whose length bytes say len.
fn sized_block(bytes: &[u8], at: usize, len: usize) -> Result<Option<usize>, Reason>
    requires { at + 4 ≤ length bytes.now }
    ensures { result ≡ sized_block bytes.now at len }
{
    if LONGEST_TEXT < len {
        return Err(Reason::LongText);
    }
    if bytes.len() - at - 4 < len {
        return Err(Reason::BadBlock);
    }
    Ok(Some(len))
}

// How long the text is of the block record at an offset, none where the bytes are at their end.
pub fn block_at(bytes: &[u8], at: usize) -> Result<Option<usize>, Reason>
    ensures { result ≡ block_at bytes.now at }
{
    if bytes.len() <= at {
        return Ok(None);
    }
    if !marked(bytes, at, BLOCK_MARK) || bytes.len() - at < 4 {
        return Err(Reason::BadBlock);
    }
    sized_block(
        bytes,
        at,
        usize::from(bytes[at + 2]) + 256 * usize::from(bytes[at + 3]),
    )
}
