// The marks and limits of document 01.

pub const WORD_MARK: [u8; 2] = [87, 68];

pub const BLOCK_MARK: [u8; 2] = [84, 66];

pub const LONGEST_WORD: usize = 64;

pub const MOST_WORDS: u16 = 256;

pub const MOST_LETTERS: u16 = 2047;

pub const LONGEST_TEXT: usize = 4096;

pub const LONGEST_BOOK: usize = 65536;

// The length of a letter map.
pub const LETTER_VALUES: usize = 256;
