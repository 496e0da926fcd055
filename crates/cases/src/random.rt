// Random numbers, and letters drawn by them.
ghost use Rattle.std.specs.Prelude.{◌≡◌, ◌<◌, ◌≤◌, ◌/◌, ◌%◌, length};
ghost use Rattle.arrayvec.specs.ArrayVec.{array_vec_len};
ghost use Rattle.cases.specs.Cases.{after};

use arrayvec::ArrayVec;

// The next random number below n.
pub fn rnd(x: &mut u32, n: usize) -> usize
    requires { 0 < n }
    ensures state { x.new ≡ after x.old }
    ensures number { result ≡ x.new / 65536 % n }
    ensures below { result < n }
{
    *x = ((u64::from(*x) * 1103515245 + 12345) % 2147483648) as u32;
    *x as usize / 65536 % n
}

// One of the bytes.
pub fn one_of(x: &mut u32, bytes: &[u8]) -> u8
    requires { 0 < length bytes.now }
{
    bytes[rnd(x, bytes.len())]
}

// The letters of which a case's words and text are made.
#[derive(Clone, Copy)]
pub enum Alphabet {
    Ab,
    Abc,
}

impl Alphabet {
    pub fn random(x: &mut u32) -> Alphabet {
        match rnd(x, 2) {
            0 => Alphabet::Ab,
            _ => Alphabet::Abc,
        }
    }

    fn letter(self, x: &mut u32) -> u8 {
        match self {
            Alphabet::Ab => one_of(x, b"ab"),
            Alphabet::Abc => one_of(x, b"abc"),
        }
    }

    pub fn letters<const CAP: usize>(self, x: &mut u32, len: usize) -> ArrayVec<u8, CAP>
        requires { len ≤ CAP }
        ensures { array_vec_len result ≡ len }
    {
        let mut word = ArrayVec::new();
        for _ in 0..len {
            word.push(self.letter(x));
        }
        word
    }
}
