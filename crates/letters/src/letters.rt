// Letters: the numbers that a map gives bytes.
ghost use Rattle.std.specs.Prelude.{◌≡◌, ◌+◌, ◌≤◌, length};
ghost use Rattle.meaning.specs.Words.{same};
ghost use Rattle.letters.specs.Letters.{identity as identity_of, letter as letter_of, mapped, part};

// The map that sends each byte to itself.
pub fn identity() -> [u8; 256]
    ensures { result ≡ identity_of }
{
    let mut map = [0; 256];
    for (i, letter) in map.iter_mut().enumerate() {
        *letter = i as u8;
    }
    map
}

// The letter that the map gives a byte, 0 where the map is too short.
pub fn letter(map: &[u8], x: u8) -> u8
    ensures { result ≡ letter_of map.now x }
{
    map.get(usize::from(x)).copied().unwrap_or(0)
}

// Whether the n letters from the offsets p and q on are the same.
pub fn same_letters(map: &[u8], bytes: &[u8], p: usize, q: usize, n: usize) -> bool
    requires { (p + n ≤ length bytes.now) × (q + n ≤ length bytes.now) }
    ensures { result ≡ same (mapped map.now (part bytes.now p n))
        (mapped map.now (part bytes.now q n)) }
{
    let first = &bytes[p..p + n];
    let second = &bytes[q..q + n];
    for (i, x) in first.iter().enumerate() {
        if letter(map, *x) != letter(map, second[i]) {
            return false;
        }
    }
    true
}
