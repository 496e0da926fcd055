// The calls on a scanned text's readings, and what they are lent.
use orgamish::{Refusal, first, jump, next, place};

// What the calls are lent, but for the buffer of a reading.
#[derive(Clone, Copy)]
pub struct Lent<'a> {
    pub map: &'a [u8],
    pub dict: &'a [u8],
    pub table: &'a [u16],
    pub text: &'a [u8],
    pub states: &'a [u16],
    pub counts: &'a [u64],
}

impl Lent<'_> {
    // How many words the first reading has, which is written.
    pub fn first(self, reading: &mut [u16]) -> Result<u16, Refusal> {
        first(
            self.map,
            self.dict,
            self.table,
            self.text,
            self.states,
            self.counts,
            reading,
        )
    }

    // .. and the one after that of so many words, or None at the end.
    pub fn next(self, reading: &mut [u16], words: u16) -> Result<Option<u16>, Refusal> {
        next(
            self.map,
            self.dict,
            self.table,
            self.text,
            self.states,
            self.counts,
            reading,
            usize::from(words),
        )
    }

    // .. and reading n.
    pub fn jump(self, reading: &mut [u16], n: u64) -> Result<u16, Refusal> {
        jump(
            self.map,
            self.dict,
            self.table,
            self.text,
            self.states,
            self.counts,
            reading,
            n,
        )
    }

    // The number of the reading of so many words.
    pub fn place(self, reading: &[u16], words: u16) -> Result<u64, Refusal> {
        place(
            self.map,
            self.dict,
            self.table,
            self.text,
            self.states,
            self.counts,
            reading,
            usize::from(words),
        )
    }
}
