// The first numbers of a lent table: compared with those of one made here, and written.
ghost use Rattle.std.specs.Prelude.{◌≡◌, ◌≤◌, length, take};
ghost use Rattle.meaning.specs.Words.{same};
ghost use Rattle.meaning.specs.Table.{over};

// Whether the first `end` numbers of two tables are the same.
pub fn same_numbers(lent: &[u16], table: &[u16], end: usize) -> bool
    requires { (end ≤ length lent.now) × (end ≤ length table.now) }
    ensures { result ≡ same (take end lent.now) (take end table.now) }
{
    lent[..end] == table[..end]
}

// Writes the first `end` numbers over those of a lent table; numbers past them stay.
pub fn copy_numbers(lent: &mut [u16], table: &[u16], end: usize)
    requires { (end ≤ length lent.old) × (end ≤ length table.now) }
    ensures { lent.new ≡ over (take end table.now) lent.old }
{
    lent[..end].copy_from_slice(&table[..end]);
}
