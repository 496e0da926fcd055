// Numbers, readings and refusals, mixed into the checksum.
use cases::Checksum;
use orgamish::Refusal;

// Mixes in the first `count` of the numbers.
pub fn mix_first<T: Copy + Into<u64>>(sum: &mut Checksum, numbers: &[T], count: usize) {
    for n in numbers.iter().take(count) {
        sum.mix((*n).into());
    }
}

// Mixes in the reading of so many words.
pub fn mix_reading(sum: &mut Checksum, reading: &[u16], words: u16) {
    sum.mix(u64::from(words));
    mix_first(sum, reading, usize::from(words));
}

// Mixes in a refusal's number and place.
pub fn mix_refusal(sum: &mut Checksum, refusal: Refusal) {
    sum.mix(u64::from(refusal.reason.number()));
    sum.mix(u64::from(refusal.place));
}

// Mixes in a refusal that no case should meet.
pub fn mix_surprise(sum: &mut Checksum, refusal: Refusal) {
    sum.mix(2);
    mix_refusal(sum, refusal);
}
