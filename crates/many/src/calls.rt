// What the library's calls tell of a case and leave in its buffers, mixed into the checksum.
use super::lent::Lent;
use super::mixing::{mix_first, mix_refusal, mix_surprise};
use super::readings::{mix_listed, mix_numbered};
use cases::{Case, Checksum};
use orgamish::{Built, Refusal, build, narrow, scan, widen};

// Mixes in what was told of a table, and its first `count` numbers.
fn mix_rows(sum: &mut Checksum, told: Built, table: &[u16], count: usize) {
    sum.mix(u64::from(told.words));
    sum.mix(u64::from(told.states));
    sum.mix(u64::from(told.longest));
    mix_first(sum, table, count);
}

// Mixes in the table narrowed, and widened again.
fn mix_moves(sum: &mut Checksum, map: &[u8], dict: &[u8], table: &[u16]) -> Result<(), Refusal> {
    let mut stored = [0; 448];
    let told = narrow(map, dict, table, &mut stored)?;
    mix_rows(sum, told, &stored, 7 * usize::from(told.states));
    let mut wide = [0; 512];
    let told = widen(map, dict, &stored, &mut wide)?;
    mix_rows(sum, told, &wide, 8 * usize::from(told.states));
    Ok(())
}

// Mixes in what the text's scan and readings give. A case's text has at most 16 letters.
fn mix_text(
    sum: &mut Checksum,
    map: &[u8],
    dict: &[u8],
    table: &[u16],
    text: &[u8],
) -> Result<(), Refusal> {
    let mut states = [0; 32];
    let mut counts = [0; 32];
    let told = scan(map, dict, table, text, &mut states, &mut counts)?;
    mix_first(sum, &states, text.len() + 1);
    mix_first(sum, &counts, text.len() + 1);
    sum.mix(u64::from(told.accepted));
    sum.mix(u64::from(told.farthest));
    sum.mix(told.count);
    sum.mix(u64::from(told.probes));
    let lent = Lent {
        map,
        dict,
        table,
        text,
        states: &states,
        counts: &counts,
    };
    if let Err(refusal) = mix_listed(sum, lent) {
        mix_surprise(sum, refusal);
    }
    mix_numbered(sum, lent, told.count)
}

// Mixes in what one case gives. A dictionary of at most 42 bytes has fewer than 64 states, of 8 numbers each.
pub fn mix_case(sum: &mut Checksum, case: &Case) {
    let map = case.map.as_slice();
    let dict = case.dictionary.as_slice();
    let mut table = [0; 512];
    match build(map, dict, &mut table) {
        Ok(told) => {
            sum.mix(0);
            mix_rows(sum, told, &table, 8 * usize::from(told.states));
            if let Err(refusal) = mix_moves(sum, map, dict, &table) {
                mix_surprise(sum, refusal);
            }
            if let Err(refusal) = mix_text(sum, map, dict, &table, case.text.as_slice()) {
                mix_surprise(sum, refusal);
            }
        }
        Err(refusal) => {
            sum.mix(1);
            mix_refusal(sum, refusal);
        }
    }
}
