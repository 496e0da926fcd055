// The word records of a dictionary.
ghost use Rattle.std.specs.Prelude.{◌≡◌, ◌+◌, ◌≤◌, length, IfOk};
ghost use Rattle.std.specs.List.{sum_by};
ghost use Rattle.arrayvec.specs.ArrayVec.{array_vec_len};

use super::refusal::{Reason, Refusal};
use super::strings::find;
use arrayvec::ArrayVec;

// What the map makes of bytes.
pub fn mapped<const CAP: usize>(map: &[u8; 256], bytes: &ArrayVec<u8, CAP>) -> ArrayVec<u8, CAP>
    ensures { array_vec_len result ≡ array_vec_len bytes.now }
{
    let mut letters = ArrayVec::new();
    for b in bytes.as_slice() {
        letters.push(map[usize::from(*b)]);
    }
    letters
}

// How many letters the first word has, whose record is whole.
fn word_len(records: &[u8]) -> Result<usize, Reason>
    ensures { IfOk result (λ len. (1 ≤ len) × (3 + len ≤ length records.now)) }
{
    let marked = records.strip_prefix(b"WD").ok_or(Reason::NoRecord)?;
    let (len, body) = marked.split_first().ok_or(Reason::CutShort)?;
    let len = usize::from(*len);
    if len == 0 || 64 < len {
        return Err(Reason::WordLength);
    }
    if body.len() < len {
        return Err(Reason::CutShort);
    }
    Ok(len)
}

// The words, parts of the dictionary's letters. Marks and lengths are bytes; words are repeated when their letters are.
pub fn parse<'a>(dictionary: &[u8], letters: &'a [u8]) -> Result<ArrayVec<&'a [u8], 10>, Refusal>
    requires few { length dictionary.now ≤ 42 }
    requires same { length letters.now ≡ length dictionary.now }
    ensures { IfOk result (λ words. sum_by (λ word. length word.now) words.items ≤ 42) }
{
    let mut words: ArrayVec<&[u8], 10> = ArrayVec::new();
    let mut at = 0;
    while at < dictionary.len() {
        let place = words.len();
        let refused = |reason| Refusal { reason, place };
        let len = word_len(&dictionary[at..]).map_err(refused)?;
        let word = &letters[at + 3..at + 3 + len];
        if find(words.as_slice(), word).is_some() {
            return Err(refused(Reason::Repeated));
        }
        words.push(word);
        at += 3 + len;
    }
    Ok(words)
}
