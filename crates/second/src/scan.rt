// The counts of a text, and what its scan tells.
ghost use Rattle.std.specs.Prelude.{◌≤◌, length};

use super::strings::how_many_end;
use arrayvec::ArrayVec;
use cases::Checksum;

// How many readings the letters before a position have, from the counts before it.
fn count_at(words: &[&[u8]], before: &[u8], counts: &[u64]) -> u64 {
    let mut count: u64 = 0;
    for word in words {
        if let Some(start) = before.strip_suffix(word) {
            count = count.saturating_add(counts.get(start.len()).copied().unwrap_or(0));
        }
    }
    count
}

// The count at each position, 0 to the text's length.
pub fn counts_of(words: &[&[u8]], text: &[u8]) -> ArrayVec<u64, 17>
    requires { length text.now ≤ 16 }
{
    let mut counts = ArrayVec::new();
    counts.push(1);
    for end in 1..=text.len() {
        let count = count_at(words, &text[..end], counts.as_slice());
        counts.push(count);
    }
    counts
}

// How many letters the two begin with in common.
fn in_common(word: &[u8], rest: &[u8]) -> usize
    ensures { result ≤ length rest.now }
{
    word.iter().zip(rest).take_while(|(a, b)| a == b).count()
}

// How many letters the rest begins with in common with a word, at most.
fn most_in_common(words: &[&[u8]], rest: &[u8]) -> usize
    ensures { result ≤ length rest.now }
{
    let mut most = 0;
    for word in words {
        most = most.max(in_common(word, rest));
    }
    most
}

// The greatest place that a beginning of a word reaches from a position whose count isn't 0.
fn farthest(words: &[&[u8]], text: &[u8], counts: &[u64]) -> usize {
    let mut far = 0;
    for start in 0..=text.len() {
        if counts.get(start).is_some_and(|count| *count != 0) {
            far = far.max(start + most_in_common(words, &text[start..]));
        }
    }
    far
}

// How many pairs of a position and a word there are with the word ending at the position.
fn probes(words: &[&[u8]], text: &[u8]) -> u64 {
    let mut total: u64 = 0;
    for end in 0..=text.len() {
        total = total.saturating_add(how_many_end(words, &text[..end]) as u64);
    }
    total
}

// Mixes in the counts, and verdict, farthest, count at the end and probes.
pub fn mix_scan(sum: &mut Checksum, words: &[&[u8]], text: &[u8], counts: &[u64]) {
    for count in counts {
        sum.mix(*count);
    }
    let count = counts.last().copied().unwrap_or(0);
    sum.mix(u64::from(count != 0));
    sum.mix(farthest(words, text, counts) as u64);
    sum.mix(count);
    sum.mix(probes(words, text));
}
