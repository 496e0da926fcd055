// Dictionaries, texts and letter maps.
ghost use Rattle.std.specs.Prelude.{◌≡◌, ◌<◌, ◌≤◌, ◌⊎◌, length};
ghost use Rattle.arrayvec.specs.ArrayVec.{array_vec_len};

use super::random::{Alphabet, one_of, rnd};
use arrayvec::ArrayVec;

/// How many cases there are.
pub const CASES: u32 = 4000;

/// The state of the random numbers before the first case.
pub const FIRST_STATE: u32 = 20260114;

/// What one case lends to the calls: at most 42 bytes of dictionary, six records of at most seven.
#[derive(Drop)]
pub struct Case {
    pub map: ArrayVec<u8, 257>,
    pub dictionary: ArrayVec<u8, 42>,
    pub text: ArrayVec<u8, 16>,
}

type Word = ArrayVec<u8, 4>;

fn random_words(x: &mut u32, alphabet: Alphabet) -> ArrayVec<Word, 6> {
    let mut words = ArrayVec::new();
    for _ in 0..rnd(x, 7) {
        let len = 1 + rnd(x, 4);
        words.push(alphabet.letters(x, len));
    }
    words
}

// The words' records, one after the other.
fn records_of(words: &[Word]) -> ArrayVec<u8, 42>
    requires { length words.now ≤ 6 }
{
    let mut records = ArrayVec::new();
    for word in words {
        records.push(b'W');
        records.push(b'D');
        records.push(word.len() as u8);
        records.try_extend_from_slice(word.as_slice()).unwrap();
    }
    records
}

// Changes one byte of the records, or cuts them, or leaves them as they are.
fn damage(x: &mut u32, records: &mut ArrayVec<u8, 42>) {
    let kind = rnd(x, 8);
    if records.is_empty() {
        return;
    }
    match kind {
        0 => {
            let place = rnd(x, records.len());
            records[place] = rnd(x, 256) as u8;
        }
        1 => records.truncate(rnd(x, records.len())),
        _ => {}
    }
}

// Words one after the other, without those that would make the text longer than 16 letters.
fn text_of_words(x: &mut u32, words: &[Word]) -> ArrayVec<u8, 16>
    requires { 0 < length words.now }
{
    let mut text = ArrayVec::new();
    for _ in 0..1 + rnd(x, 5) {
        let word = words[rnd(x, words.len())].as_slice();
        let _left_out = text.try_extend_from_slice(word);
    }
    text
}

// A text of random letters, or of the words as they were before damage.
fn random_text(x: &mut u32, words: &[Word], alphabet: Alphabet) -> ArrayVec<u8, 16> {
    if rnd(x, 4) == 0 || words.is_empty() {
        let len = rnd(x, 13);
        return alphabet.letters(x, len);
    }
    text_of_words(x, words)
}

// The map of 256 bytes under which every byte is its own letter. What stands after them is 0.
fn identity() -> [u8; 257] {
    let mut map = [0; 257];
    for b in 0..=255u8 {
        map[usize::from(b)] = b;
    }
    map
}

// Makes so many random letters of words others, which are letters of the family's words, or stand before or after all of these. A
// later one may undo an earlier.
fn join(x: &mut u32, map: &mut [u8; 257], joins: usize) {
    for _ in 0..joins {
        let from = one_of(x, b"abc");
        map[usize::from(from)] = one_of(x, &[97, 98, 99, 0, 127, 254]);
    }
}

// How many bytes of a map are lent: seldom another number than 256.
fn random_size(x: &mut u32) -> usize
    ensures few { result ≤ 257 }
    ensures none { (result ≡ 0) ⊎ (255 ≤ result) }
{
    match rnd(x, 24) {
        0 => 0,
        1 => 255,
        2 => 257,
        _ => 256,
    }
}

// The identity; or a map that changes letters of words, and also bytes of a word record's mark and length, which must change no
// record.
fn random_map(x: &mut u32) -> ArrayVec<u8, 257>
    ensures { (array_vec_len result ≡ 0) ⊎ (255 ≤ array_vec_len result) }
{
    let joins = rnd(x, 4);
    let mut map = identity();
    if joins != 0 {
        map[87] = 84;
        map[68] = 84;
        map[1] = 2;
        join(x, &mut map, joins);
    }
    let mut lent = ArrayVec::from(map);
    lent.truncate(random_size(x));
    lent
}

/// The next case, drawn by the random numbers whose state is x. Its map has no byte, or 255 or more.
pub fn next_case(x: &mut u32) -> Case
    ensures { (array_vec_len result.map ≡ 0) ⊎ (255 ≤ array_vec_len result.map) }
{
    let alphabet = Alphabet::random(x);
    let words = random_words(x, alphabet);
    let mut dictionary = records_of(words.as_slice());
    damage(x, &mut dictionary);
    let text = random_text(x, words.as_slice(), alphabet);
    let map = random_map(x);
    Case {
        map,
        dictionary,
        text,
    }
}
