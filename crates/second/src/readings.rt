// The readings of a text, by search, and what is told of them by their numbers.
ghost use Rattle.std.specs.Prelude.{◌≡◌, ◌+◌, ◌≤◌, length};
ghost use Rattle.arrayvec.specs.ArrayVec.{array_vec_len};

use super::refusal::{Reason, Refusal};
use super::strings::find;
use arrayvec::ArrayVec;
use cases::Checksum;

// The numbers of a reading's words, from the last to the first.
type LastFirst = ArrayVec<usize, 16>;

// Tells the readings of the text, each with the words after it, in the order of listing: the last word is longest first.
fn tell_readings<F: FnMut(&[usize])>(
    words: &[&[u8]],
    text: &[u8],
    after: &mut LastFirst,
    tell: &mut F,
)
    requires callable { F.IsAlwaysCallable tell.old }
    requires room { array_vec_len after.old + length text.now ≤ 16 }
    ensures callable { F.IsAlwaysCallable tell.new }
    ensures after { array_vec_len after.new ≡ array_vec_len after.old }
{
    if text.is_empty() {
        tell(after.as_slice());
        return;
    }
    for start in 0..text.len() {
        if let Some(last) = find(words, &text[start..]) {
            after.push(last);
            tell_readings(words, &text[..start], after, tell);
            after.pop();
        }
    }
}

fn mix_reading(sum: &mut Checksum, last_first: &[usize]) {
    sum.mix(last_first.len() as u64);
    for word in last_first.iter().rev() {
        sum.mix(*word as u64);
    }
}

// Mixes in the readings, 40 at most, and how many they are.
pub fn mix_listed(sum: &mut Checksum, words: &[&[u8]], text: &[u8])
    requires { length text.now ≤ 16 }
{
    let mut listed: u64 = 0;
    let mut tell = |reading: &[usize]| {
        if listed < 40 {
            mix_reading(sum, reading);
            listed += 1;
        }
    };
    tell_readings(words, text, &mut ArrayVec::new(), &mut tell);
    sum.mix(listed);
}

// Mixes in what is told of the sequence of no words, which only the empty text has as a reading, and of the last reading without
// its last word, if there is that word: what is left spells less than the text.
fn mix_too_short(sum: &mut Checksum, readings: u64, text: &[u8]) {
    let not_a_reading = Refusal {
        reason: Reason::NotAReading,
        place: 0,
    };
    if text.is_empty() {
        sum.mix(0);
        return;
    }
    not_a_reading.mix(sum);
    if readings != 0 {
        not_a_reading.mix(sum);
    }
}

// Mixes in all readings and their numbers, and what is told of one number too great and of sequences that are too short.
pub fn mix_numbered(sum: &mut Checksum, words: &[&[u8]], text: &[u8])
    requires { length text.now ≤ 16 }
{
    let mut number: u64 = 0;
    let mut tell = |reading: &[usize]| {
        mix_reading(sum, reading);
        sum.mix(number);
        number = number.saturating_add(1);
    };
    tell_readings(words, text, &mut ArrayVec::new(), &mut tell);
    let too_great = Refusal {
        reason: Reason::NoSuchNumber,
        place: 0,
    };
    too_great.mix(sum);
    mix_too_short(sum, number, text);
}
