// The rows of the automaton table: where their fields stand, the tree that words make of them, and the walks over it.
#![tactic(auto)]

mod chains;
mod children;
mod index;
mod insertion;
mod layout;
mod stepping;

pub use chains::{count_chain, first_word, longest_chain};
pub use index::{ChildIndex, NO_CHILD};
pub use insertion::insert_word;
pub use layout::{
    Form, MOST_NUMBERS, NONE, add_row, border, chain_length, depth, first_child, letter, link,
    narrow_rows, next_sibling, set_border, set_chain_length, set_link, word,
};
pub use stepping::{child_border, step};
