// The run of word records.
ghost use Rattle.std.specs.Prelude.{◌≡◌, ◌+◌, ◌≤◌, ◌<◌};
ghost use Rattle.meaning.specs.Words.{Words as WordList};
ghost use Rattle.letters.specs.Letters.{mapped};
ghost use Rattle.records.specs.Run.{run, dictionary, past_words};
ghost use Rattle.records.specs.Told.{dictionary_told, run_tells};
ghost use Rattle.records.specs.Classes.{Known, ReadAfter};

use crate::repeats::{Index, class_of};
use letters::{MOST_LETTERS, MOST_WORDS, Reason, Record, Refusal, record_at, word_len};

// A run of word records that is accepted: so many words with so many letters, and the offset past them.
#[derive(Clone, Copy)]
pub struct Dictionary {
    pub words: u16,
    pub letters: u16,
    pub end: u16,
}

// The record where the words read so far end: 4, 5 and 6 are tested too. A word that passes joins the index.
fn record_after(
    map: &[u8],
    bytes: &[u8],
    index: &mut Index,
    read: Dictionary,
) -> Result<Record, Reason>
    requires { (X : WordList) × Known map.now bytes.now index.old read.end read.words read.letters X }
    ensures { (X : WordList) → Known map.now bytes.now index.old read.end read.words read.letters X
        → ReadAfter map.now bytes.now index.new read.end X result }
{
    let at = usize::from(read.end);
    let record = record_at(bytes, at)?;
    if let Record::Word { len } = record {
        if MOST_WORDS <= read.words {
            return Err(Reason::ManyWords);
        }
        if MOST_LETTERS < read.letters + len as u16 {
            return Err(Reason::ManyLetters);
        }
        let class = class_of(map, bytes, at + 3, len);
        if index.repeats(map, bytes, class, at, len) {
            return Err(Reason::RepeatedWord);
        }
        index.note(class, read.words + 1, at);
    }
    Ok(record)
}

// The words read so far, and one more with so many letters.
fn with_word(read: Dictionary, len: usize) -> Dictionary
    requires { (read.words < 256) × (read.letters + len ≤ 2047) × (read.end + 3 + len < 65536) }
    ensures { result ≡ record { words = read.words + 1; letters = read.letters + len; end = read.end + 3 + len } }
{
    let len = len as u16;
    Dictionary {
        words: read.words + 1,
        letters: read.letters + len,
        end: read.end + 3 + len,
    }
}

// The run of word records from the first byte on. In a book a block mark ends it. Accepted words end by byte 2,815: each takes three
// bytes besides its letters.
pub fn word_run(map: &[u8], bytes: &[u8], book: bool) -> Result<Dictionary, Refusal>
    ensures { dictionary_told result ≡ run_tells (run book (mapped map.now) bytes.now) }
{
    let mut index = Index::new();
    let mut read = Dictionary {
        words: 0,
        letters: 0,
        end: 0,
    };
    loop {
        match record_after(map, bytes, &mut index, read) {
            Ok(Record::End) => return Ok(read),
            Ok(Record::Block) => {
                if book {
                    return Ok(read);
                }
                return Err(Refusal {
                    reason: Reason::WordMark,
                    place: read.words,
                });
            }
            Ok(Record::Word { len }) => read = with_word(read, len),
            Err(reason) => {
                return Err(Refusal {
                    reason,
                    place: read.words,
                });
            }
        }
    }
}

// A dictionary by itself.
pub fn check_dictionary(map: &[u8], bytes: &[u8]) -> Result<Dictionary, Refusal>
    ensures { dictionary_told result ≡ run_tells (dictionary map.now bytes.now) }
{
    word_run(map, bytes, false)
}

// The offset of word k's record; of what follows the words where they are fewer.
pub fn word_place(bytes: &[u8], k: usize) -> usize
    ensures { result ≡ past_words bytes.now k 0 }
{
    let mut at = 0;
    for _ in 0..k {
        let len = word_len(bytes, at);
        if len == 0 {
            return at;
        }
        at += 3 + len;
    }
    at
}
