// Words that are repeated. Each word is of a class, a number below 256 that its letters decide. An index of the words so far leads
// along those of a class, which are few where the letters differ.
ghost use Rattle.std.specs.Prelude.{◌≡◌, ◌+◌, ◌≤◌, ◌<◌, ℕ, List, [], length};
ghost use Rattle.meaning.specs.Numbers.{most_words};
ghost use Rattle.meaning.specs.Words.{Word, Words, same, has};
ghost use Rattle.letters.specs.Letters.{mapped, part};
ghost use Rattle.letters.specs.Record.{record_at, word_at};
ghost use Rattle.letters.specs.declared.record.Record.TheVariants as found;
ghost use Rattle.records.specs.Stored.{Holds};
ghost use Rattle.records.specs.Classes.{classes, class_of, noted, Indexed};

use letters::{letter, same_letters};

const CLASSES: usize = 256;

const WORDS: usize = 256;

// The words so far, by class.
#[derive(Drop)]
pub struct Index {
    // For each class how many words there are up to its last one, 0 for none.
    last: [u16; CLASSES],
    // For each word how many words there are up to the one of its class before it, 0 for none,
    older: [u16; WORDS],
    // and the offset of its record.
    places: [u16; WORDS],
}

// The class of the n letters from an offset on.
pub fn class_of(map: &[u8], bytes: &[u8], p: usize, n: usize) -> usize
    requires { p + n ≤ length bytes.now }
    ensures { result ≡ class_of (mapped map.now (part bytes.now p n)) }
{
    let mut class = 0;
    for x in bytes[p..p + n].iter().rev() {
        class = (usize::from(letter(map, *x)) + 5 * class) % CLASSES;
    }
    class
}

// Whether the record at p is of the same word as that of n letters at another offset.
fn same_word(map: &[u8], bytes: &[u8], p: usize, at: usize, n: usize) -> bool
    requires { (record_at bytes.now at ≡ Ok (found.Word n)) × ((w : Word) × Holds map.now bytes.now p w) }
    ensures { (w : Word) → Holds map.now bytes.now p w
        → result ≡ same w (word_at (mapped map.now) bytes.now at n) }
{
    if bytes[p + 2] != bytes[at + 2] {
        return false;
    }
    same_letters(map, bytes, p + 3, at + 3, n)
}

impl Index {
    // No word yet.
    pub fn new() -> Index
        ensures { (m b : List ℕ) → Indexed m b result [] }
    {
        Index {
            last: [0; CLASSES],
            older: [0; WORDS],
            places: [0; WORDS],
        }
    }

    // Whether the word record at an offset, of n letters and of the class given, repeats one of the words X that the index has. Goes
    // along those of its class, from the last one back.
    pub fn repeats(&self, map: &[u8], bytes: &[u8], class: usize, at: usize, n: usize) -> bool
        requires { (record_at bytes.now at ≡ Ok (found.Word n)) × (class ≡ class_of (word_at (mapped map.now) bytes.now at n))
            × ((X : Words) × Indexed map.now bytes.now self.now X) }
        ensures { (X : Words) → Indexed map.now bytes.now self.now X
            → result ≡ has X (word_at (mapped map.now) bytes.now at n) }
    {
        let mut q = usize::from(self.last[class]);
        while 0 < q {
            let place = usize::from(self.places[q - 1]);
            if same_word(map, bytes, place, at, n) {
                return true;
            }
            q = usize::from(self.older[q - 1]);
        }
        false
    }

    // The q-th word, of the class given, whose record stands at the offset, joins the index.
    pub fn note(&mut self, class: usize, q: u16, at: usize)
        requires { (class < classes) × (0 < q) × (q ≤ most_words) × (at < 65536) }
        ensures { self.new ≡ noted self.old class q at }
    {
        let i = usize::from(q) - 1;
        self.older[i] = self.last[class];
        self.last[class] = q;
        self.places[i] = at as u16;
    }
}
