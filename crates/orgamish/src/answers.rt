// What the calls tell where they refuse nothing.

/// What build, widen and narrow tell: the numbers of words and of states, and the length of the longest chain.
#[derive(Clone, Copy, Debug, PartialEq, Eq)]
pub struct Built {
    pub words: u16,
    pub states: u16,
    pub longest: u16,
}

/// What scan tells: whether the text is accepted, the farthest position, the count at the end, and the probes.
#[derive(Clone, Copy, Debug, PartialEq, Eq)]
pub struct Scanned {
    pub accepted: bool,
    pub farthest: u16,
    pub count: u64,
    pub probes: u32,
}

/// What the book check tells: the numbers of words and of blocks.
#[derive(Clone, Copy, Debug, PartialEq, Eq)]
pub struct Checked {
    pub words: u16,
    pub blocks: u16,
}
