// The lent letter map: 18 where it hasn't 256 numbers, before all others.
ghost use Rattle.std.specs.Prelude.{◌≡◌};
ghost use Rattle.records.specs.Told.{dictionary_told, run_tells};
ghost use Rattle.judging.specs.Under.{is_map, words_under};

use letters::{LETTER_VALUES, Reason, Refusal};
use records::{Dictionary, check_dictionary};

pub fn is_map(map: &[u8]) -> bool
    ensures { result ≡ is_map map.now }
{
    map.len() == LETTER_VALUES
}

// The map, then the dictionary.
pub fn check_words(map: &[u8], dict: &[u8]) -> Result<Dictionary, Refusal>
    ensures { dictionary_told result ≡ run_tells (words_under map.now dict.now) }
{
    if !is_map(map) {
        return Err(Refusal::from(Reason::BadMap));
    }
    check_dictionary(map, dict)
}
