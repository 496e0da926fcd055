// Records written into lent bytes.
ghost use Rattle.std.specs.Prelude.{◌+◌, ◌≤◌, length};

// The record of a word, so many times one letter as there is room for.
pub fn write_word(bytes: &mut [u8], letter: u8)
    requires { (3 ≤ length bytes.old) × (length bytes.old ≤ 258) }
{
    let len = (bytes.len() - 3) as u8;
    bytes.fill(letter);
    bytes[..3].copy_from_slice(&[b'W', b'D', len]);
}

// Words with the letters 0, 1, 2 and on, with records of N bytes each.
pub fn write_words<const N: usize>(bytes: &mut [u8])
    requires { (3 ≤ N) × (N ≤ 258) }
{
    let (words, _) = bytes.as_chunks_mut::<N>();
    for (word, letter) in words.iter_mut().zip(0..=255) {
        write_word(word, letter);
    }
}

// .. and from an offset on one with the letter a.
pub fn write_words_and_one<const N: usize>(bytes: &mut [u8], at: usize)
    requires { (3 ≤ N) × (N ≤ 258) × (at + 3 ≤ length bytes.old) × (length bytes.old ≤ at + 258) }
{
    let (words, one) = bytes.split_at_mut(at);
    write_words::<N>(words);
    write_word(one, b'a');
}

// The record of a block, so many letters a as there is room for.
fn write_block(bytes: &mut [u8])
    requires { (4 ≤ length bytes.old) × (length bytes.old ≤ 65539) }
{
    let [low, high] = ((bytes.len() - 4) as u16).to_le_bytes();
    bytes.fill(b'a');
    bytes[..4].copy_from_slice(&[b'T', b'B', low, high]);
}

// Blocks with records of 4,096 bytes each.
pub fn write_blocks(bytes: &mut [u8]) {
    let (blocks, _) = bytes.as_chunks_mut::<4096>();
    for block in blocks {
        write_block(block);
    }
}

// The word a, and a block.
pub fn write_word_and_block(bytes: &mut [u8])
    requires { (8 ≤ length bytes.old) × (length bytes.old ≤ 65543) }
{
    let (word, block) = bytes.split_at_mut(4);
    write_word(word, b'a');
    write_block(block);
}
