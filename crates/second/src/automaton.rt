// States and the automaton table's rows.
ghost use Rattle.std.specs.Prelude.{◌+◌, ◌≤◌, length};
ghost use Rattle.std.specs.List.{sum_by};
ghost use Rattle.arrayvec.specs.ArrayVec.{array_vec_len};

use super::strings::{find, how_many_end, longest_suffix};
use arrayvec::ArrayVec;
use cases::Checksum;

// Stands in the table and in the state column for no word, no state, no letter.
const NONE: u64 = 65535;

fn number_or_none(number: Option<usize>) -> u64 {
    number.map_or(NONE, |n| n as u64)
}

// The words together have at most 42 letters, and there is a state for each at most, besides the empty one.
type States<'a> = ArrayVec<&'a [u8], 43>;

// Adds the prefixes of the word that are not among the states, the shorter first.
fn add_prefixes<'a>(states: &mut States<'a>, word: &'a [u8])
    requires { array_vec_len states.old + length word.now ≤ 43 }
    ensures { array_vec_len states.new ≤ array_vec_len states.old + length word.now }
{
    for last in 0..word.len() {
        let prefix = &word[..=last];
        if find(states.as_slice(), prefix).is_none() {
            states.push(prefix);
        }
    }
}

// Whether the state is `parent` and one letter more.
fn is_child(state: &[u8], parent: &[u8]) -> bool {
    state.split_last().is_some_and(|(_, rest)| rest == parent)
}

// Mixes in the first `width` numbers of a row.
fn mix_row(sum: &mut Checksum, row: [u64; 8], width: usize) {
    for n in row.iter().take(width) {
        sum.mix(*n);
    }
}

// The words, and the states in the order of their numbers.
#[derive(Drop)]
pub struct Automaton<'a> {
    words: &'a [&'a [u8]],
    states: States<'a>,
}

impl<'a> Automaton<'a> {
    // The states are the empty one, then the prefixes of the words, those of the first word first.
    pub fn of(words: &'a [&'a [u8]]) -> Automaton<'a>
        requires { sum_by (λ word. length word.now) words.now ≤ 42 }
    {
        let mut states: States = ArrayVec::new();
        states.push(&[]);
        for word in words {
            add_prefixes(&mut states, word);
        }
        Automaton { words, states }
    }

    fn state_number(&self, state: &[u8]) -> Option<usize> {
        find(self.states.as_slice(), state)
    }

    // r: the greatest number of words that are suffixes of one state.
    fn greatest_chain(&self) -> usize {
        self.states
            .iter()
            .map(|state| how_many_end(self.words, state))
            .max()
            .unwrap_or(0)
    }

    // The child of `parent` whose letter is the least of those after the given one, or of all.
    fn next_child(&self, parent: &[u8], given: Option<&u8>) -> Option<usize> {
        self.states
            .iter()
            .enumerate()
            .filter(|(_, state)| is_child(state, parent) && given < state.last())
            .min_by_key(|(_, state)| state.last())
            .map(|(s, _)| s)
    }

    fn next_sibling(&self, state: &[u8]) -> Option<usize> {
        let (last, parent) = state.split_last()?;
        self.next_child(parent, Some(last))
    }

    // The number of the longest proper suffix that is a state.
    fn border(&self, state: &[u8]) -> Option<usize> {
        let (_, rest) = state.split_first()?;
        self.state_number(longest_suffix(self.states.as_slice(), rest)?)
    }

    // The state number of the longest proper suffix that is a word.
    fn link(&self, state: &[u8]) -> Option<usize> {
        let (_, rest) = state.split_first()?;
        self.state_number(longest_suffix(self.words, rest)?)
    }

    // The numbers of a row.
    fn row(&self, state: &[u8]) -> [u64; 8] {
        [
            state.last().map_or(NONE, |letter| u64::from(*letter)),
            number_or_none(self.next_child(state, None)),
            number_or_none(self.next_sibling(state)),
            state.len() as u64,
            number_or_none(find(self.words, state)),
            number_or_none(self.border(state)),
            number_or_none(self.link(state)),
            how_many_end(self.words, state) as u64,
        ]
    }

    // Mixes in the numbers of words and states, r, and the first `width` numbers of each row.
    pub fn mix_table(&self, sum: &mut Checksum, width: usize) {
        sum.mix(self.words.len() as u64);
        sum.mix(self.states.len() as u64);
        sum.mix(self.greatest_chain() as u64);
        for state in &self.states {
            mix_row(sum, self.row(state), width);
        }
    }

    // Mixes in the state column: at each position of the text the longest suffix that is a state. The empty state is always one.
    pub fn mix_states(&self, sum: &mut Checksum, text: &[u8]) {
        for end in 0..=text.len() {
            let state = longest_suffix(self.states.as_slice(), &text[..end]);
            sum.mix(number_or_none(state.and_then(|s| self.state_number(s))));
        }
    }
}
