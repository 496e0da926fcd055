// What the calls are lent.
use orgamish::{Refusal, build, first, jump, next, place, scan};

// A dictionary under a letter map.
#[derive(Clone, Copy)]
pub struct Words<'a> {
    pub map: &'a [u8],
    pub dict: &'a [u8],
}

impl<'a> Words<'a> {
    pub fn new(map: &'a [u8], dict: &'a [u8]) -> Words<'a> {
        Words { map, dict }
    }

    // The table, if there is room for it, and 7 wherever no number is written.
    pub fn table<const N: usize>(self) -> [u16; N] {
        let mut table = [7; N];
        let _told = build(self.map, self.dict, &mut table);
        table
    }
}

// A table and the columns of a text, 7 wherever no number is written.
#[derive(Clone, Copy)]
pub struct Memory<const NUMBERS: usize, const POSITIONS: usize> {
    pub table: [u16; NUMBERS],
    pub states: [u16; POSITIONS],
    pub counts: [u64; POSITIONS],
}

impl<const NUMBERS: usize, const POSITIONS: usize> Memory<NUMBERS, POSITIONS> {
    // With the table of a dictionary, and no columns yet.
    pub fn built(words: Words) -> Memory<NUMBERS, POSITIONS> {
        Memory {
            table: words.table(),
            states: [7; POSITIONS],
            counts: [7; POSITIONS],
        }
    }

    // .. and the columns of a text, each where there is room for it.
    pub fn scanned(words: Words, text: &[u8]) -> Memory<NUMBERS, POSITIONS> {
        let mut memory = Memory::built(words);
        let _told = scan(
            words.map,
            words.dict,
            &memory.table,
            text,
            &mut memory.states,
            &mut memory.counts,
        );
        memory
    }

    pub fn lent<'a>(&'a self, words: Words<'a>, text: &'a [u8]) -> Lent<'a> {
        Lent {
            words,
            table: &self.table,
            text,
            states: &self.states,
            counts: &self.counts,
        }
    }
}

// What the calls on the readings of a scanned text are lent, but for the buffer of a reading.
#[derive(Clone, Copy)]
pub struct Lent<'a> {
    pub words: Words<'a>,
    pub table: &'a [u16],
    pub text: &'a [u8],
    pub states: &'a [u16],
    pub counts: &'a [u64],
}

impl Lent<'_> {
    pub fn first(self, reading: &mut [u16]) -> Result<u16, Refusal> {
        first(
            self.words.map,
            self.words.dict,
            self.table,
            self.text,
            self.states,
            self.counts,
            reading,
        )
    }

    pub fn next(self, reading: &mut [u16], given: usize) -> Result<Option<u16>, Refusal> {
        next(
            self.words.map,
            self.words.dict,
            self.table,
            self.text,
            self.states,
            self.counts,
            reading,
            given,
        )
    }

    pub fn jump(self, reading: &mut [u16], n: u64) -> Result<u16, Refusal> {
        jump(
            self.words.map,
            self.words.dict,
            self.table,
            self.text,
            self.states,
            self.counts,
            reading,
            n,
        )
    }

    pub fn place(self, reading: &[u16], given: usize) -> Result<u64, Refusal> {
        place(
            self.words.map,
            self.words.dict,
            self.table,
            self.text,
            self.states,
            self.counts,
            reading,
            given,
        )
    }
}
