// Refusals.
use cases::Checksum;

// Why a call refuses. 4 and 5 don't occur: at most 42 bytes hold neither 257 words nor 2,048 letters.
#[derive(Clone, Copy)]
pub enum Reason {
    NoRecord = 1,
    WordLength = 2,
    CutShort = 3,
    Repeated = 6,
    NotAReading = 13,
    MapLength = 18,
    NoSuchNumber = 21,
}

#[derive(Clone, Copy)]
pub struct Refusal {
    pub reason: Reason,
    pub place: usize,
}

impl Refusal {
    pub fn mix(self, sum: &mut Checksum) {
        sum.mix(self.reason as u64);
        sum.mix(self.place as u64);
    }
}
