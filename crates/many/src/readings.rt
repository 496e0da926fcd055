// What the calls on a scanned text's readings tell and leave in their buffer, mixed into the checksum.
use super::lent::Lent;
use super::mixing::{mix_reading, mix_refusal, mix_surprise};
use cases::Checksum;
use orgamish::{Reason, Refusal};

// Mixes in the reading of so many words and those after it, and tells how many they are, 40 at most.
fn mix_from(
    sum: &mut Checksum,
    lent: Lent,
    reading: &mut [u16],
    words: u16,
) -> Result<u64, Refusal> {
    mix_reading(sum, reading, words);
    let mut given = words;
    for listed in 1..40 {
        let Some(more) = lent.next(reading, given)? else {
            return Ok(listed);
        };
        mix_reading(sum, reading, more);
        given = more;
    }
    Ok(40)
}

// Mixes in the readings, one after the other, and how many they are.
pub fn mix_listed(sum: &mut Checksum, lent: Lent) -> Result<(), Refusal> {
    let mut reading = [0; 32];
    let listed = match lent.first(&mut reading) {
        Ok(words) => mix_from(sum, lent, &mut reading, words)?,
        Err(refusal) if refusal.reason == Reason::NoReading => 0,
        Err(refusal) => return Err(refusal),
    };
    sum.mix(listed);
    Ok(())
}

// Mixes in what place tells of a sequence that is no reading, unless it and the text are empty.
fn mix_place(sum: &mut Checksum, lent: Lent, reading: &[u16], words: u16) {
    match lent.place(reading, words) {
        Ok(n) => sum.mix(n),
        Err(refusal) if refusal.reason == Reason::NotReading => mix_refusal(sum, refusal),
        Err(refusal) => mix_surprise(sum, refusal),
    }
}

// Mixes in all readings, each with its number, and tells how many words the last has, which is left in the buffer.
fn mix_all(
    sum: &mut Checksum,
    lent: Lent,
    reading: &mut [u16],
    count: u64,
) -> Result<u16, Refusal> {
    let mut words = 0;
    for n in 0..count {
        words = lent.jump(reading, n)?;
        mix_reading(sum, reading, words);
        sum.mix(lent.place(reading, words)?);
    }
    Ok(words)
}

// Mixes in the readings by their numbers, and what is told of one number too great, of no words, and of the last reading without its
// last word.
pub fn mix_numbered(sum: &mut Checksum, lent: Lent, count: u64) -> Result<(), Refusal> {
    let mut reading = [0; 32];
    let words = mix_all(sum, lent, &mut reading, count)?;
    match lent.jump(&mut reading, count) {
        Ok(past) => mix_reading(sum, &reading, past),
        Err(refusal) if refusal.reason == Reason::NoNumber => {
            mix_refusal(sum, refusal);
            mix_place(sum, lent, &reading, 0);
            if let Some(fewer) = words.checked_sub(1) {
                mix_place(sum, lent, &reading, fewer);
            }
        }
        Err(refusal) => return Err(refusal),
    }
    Ok(())
}
