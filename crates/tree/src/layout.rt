// The layout of a row: no other place computes an index into a table.
ghost use Rattle.std.specs.Prelude.{◌≡◌, ◌*◌, ◌≤◌, ◌<◌, length};
ghost use Rattle.std.proofs.lemmas.List.Edits.{sets};
ghost use Rattle.meaning.specs.Numbers.{absent};
ghost use Rattle.meaning.specs.Table.{width, narrow_width, letter_field, child_field, sibling_field, depth_field, word_field, border_field, link_field, chain_field};
ghost use Rattle.tree.specs.Layout.{HasRow, Reads, set_field, new_row, Narrowed};
ghost use Rattle.tree.specs.Forms.{width_in};
ghost use Rattle.tree.specs.Found.{present};

// The two forms of a table: with the length of each state's chain, and without it, as tables in the field are.
#[derive(Clone, Copy)]
pub enum Form {
    Wide,
    Narrow,
}

// How many numbers a row has in each.
const WIDTH: usize = 8;

const NARROW_WIDTH: usize = 7;

// The numbers of the largest table, that of 2,048 states.
pub const MOST_NUMBERS: usize = 16384;

// Where each number of a row stands.
const LETTER: usize = 0;

const CHILD: usize = 1;

const SIBLING: usize = 2;

const DEPTH: usize = 3;

const WORD: usize = 4;

const BORDER: usize = 5;

const LINK: usize = 6;

const CHAIN: usize = 7;

// The number that stands for none.
pub const NONE: usize = 65535;

impl Form {
    // How many numbers a row has.
    pub fn width(self) -> usize
        ensures { result ≡ width_in self }
    {
        match self {
            Form::Wide => WIDTH,
            Form::Narrow => NARROW_WIDTH,
        }
    }
}

// A number of a row or of the index, unless it stands for none.
pub fn present(x: usize) -> Option<usize>
    ensures { result ≡ present x }
{
    if x == NONE {
        return None;
    }
    Some(x)
}

fn field(table: &[u16], s: usize, j: usize) -> usize
    requires { (j < width) × HasRow table.now s }
    ensures { Reads table.now s j result }
{
    usize::from(table[WIDTH * s + j])
}

fn set_field(table: &mut [u16], s: usize, j: usize, v: usize)
    requires { (j < width) × HasRow table.old s × (v ≤ absent) }
    ensures { table.new ≡ set_field table.old s j v }
{
    table[WIDTH * s + j] = v as u16;
}

pub fn letter(table: &[u16], s: usize) -> usize
    requires { HasRow table.now s }
    ensures { Reads table.now s letter_field result }
{
    field(table, s, LETTER)
}

pub fn first_child(table: &[u16], s: usize) -> usize
    requires { HasRow table.now s }
    ensures { Reads table.now s child_field result }
{
    field(table, s, CHILD)
}

pub fn next_sibling(table: &[u16], s: usize) -> usize
    requires { HasRow table.now s }
    ensures { Reads table.now s sibling_field result }
{
    field(table, s, SIBLING)
}

pub fn depth(table: &[u16], s: usize) -> usize
    requires { HasRow table.now s }
    ensures { Reads table.now s depth_field result }
{
    field(table, s, DEPTH)
}

pub fn word(table: &[u16], s: usize) -> usize
    requires { HasRow table.now s }
    ensures { Reads table.now s word_field result }
{
    field(table, s, WORD)
}

pub fn border(table: &[u16], s: usize) -> usize
    requires { HasRow table.now s }
    ensures { Reads table.now s border_field result }
{
    field(table, s, BORDER)
}

pub fn link(table: &[u16], s: usize) -> usize
    requires { HasRow table.now s }
    ensures { Reads table.now s link_field result }
{
    field(table, s, LINK)
}

// How many words end at s.
pub fn chain_length(table: &[u16], s: usize) -> usize
    requires { HasRow table.now s }
    ensures { Reads table.now s chain_field result }
{
    field(table, s, CHAIN)
}

pub fn set_first_child(table: &mut [u16], s: usize, v: usize)
    requires { HasRow table.old s × (v ≤ absent) }
    ensures { table.new ≡ set_field table.old s child_field v }
{
    set_field(table, s, CHILD, v);
}

pub fn set_next_sibling(table: &mut [u16], s: usize, v: usize)
    requires { HasRow table.old s × (v ≤ absent) }
    ensures { table.new ≡ set_field table.old s sibling_field v }
{
    set_field(table, s, SIBLING, v);
}

pub fn set_word(table: &mut [u16], s: usize, v: usize)
    requires { HasRow table.old s × (v ≤ absent) }
    ensures { table.new ≡ set_field table.old s word_field v }
{
    set_field(table, s, WORD, v);
}

pub fn set_border(table: &mut [u16], s: usize, v: usize)
    requires { HasRow table.old s × (v ≤ absent) }
    ensures { table.new ≡ set_field table.old s border_field v }
{
    set_field(table, s, BORDER, v);
}

pub fn set_link(table: &mut [u16], s: usize, v: usize)
    requires { HasRow table.old s × (v ≤ absent) }
    ensures { table.new ≡ set_field table.old s link_field v }
{
    set_field(table, s, LINK, v);
}

pub fn set_chain_length(table: &mut [u16], s: usize, v: usize)
    requires { HasRow table.old s × (v ≤ absent) }
    ensures { table.new ≡ set_field table.old s chain_field v }
{
    set_field(table, s, CHAIN, v);
}

// The row of a new state n: no child, word, border, link or chain yet.
pub fn add_row(table: &mut [u16], n: usize, a: usize, next: usize, depth: usize)
    requires { HasRow table.old n × (a ≤ absent) × (next ≤ absent) × (depth ≤ absent) }
    ensures { table.new ≡ sets table.old (width * n) (new_row a next depth) }
{
    set_field(table, n, LETTER, a);
    set_field(table, n, CHILD, NONE);
    set_field(table, n, SIBLING, next);
    set_field(table, n, DEPTH, depth);
    set_field(table, n, WORD, NONE);
    set_field(table, n, BORDER, NONE);
    set_field(table, n, LINK, NONE);
    set_field(table, n, CHAIN, 0);
}

// The first n rows in their narrow form: each without its last number. Numbers past them stay.
pub fn narrow_rows(table: &[u16], n: usize, narrow: &mut [u16])
    requires { (width * n ≤ length table.now) × (narrow_width * n ≤ length narrow.old) }
    ensures { Narrowed table.now n narrow.old narrow.new }
{
    for s in 0..n {
        let row = &table[WIDTH * s..WIDTH * s + NARROW_WIDTH];
        narrow[NARROW_WIDTH * s..NARROW_WIDTH * (s + 1)].copy_from_slice(row);
    }
}
