// A merge table of n-1 pairs over n leaves: its two tests, each over the whole table, and its rows written out. (Table
// and n are two arguments, as the call has them: a struct of both would be made for one call of each function.)
ghost use Rattle.std.specs.Prelude.{false, ◌≡◌, ◌-◌, ◌*◌, ◌≤◌, length};
ghost use Rattle.std.proofs.lemmas.List.Edits.{sets};
ghost use Rattle.merge.specs.Tables.{Pairs, rows_in, some_none, twice};

use crate::entries::{named_by, names_none};
use work_tree_rule::{Numbers, bad_row};

// Whether an entry is zero, or names no leaf, or no earlier row.
pub fn any_names_none(table: &[i32], n: u16) -> bool
    requires { Pairs n table.now }
    ensures { result ≡ some_none n table.now }
{
    for i in 1..n {
        let at = 2 * usize::from(i - 1);
        if names_none(table[at], n, i) || names_none(table[at + 1], n, i) {
            return true;
        }
    }
    false
}

// A table each of whose entries names a leaf or an earlier row: the objects that they name, as the test of the tree rule
// takes them.
#[derive(Drop)]
struct Named<'a> {
    table: &'a [i32],
    n: u16,
    ghost pairs: { Pairs n table.now },
    ghost named: { some_none n table.now ≡ false },
}

impl Numbers for Named<'_> {
    ghost list = { λ t. rows_in t.n t.table.now };

    fn number(&self, k: usize) -> u16 {
        named_by(self.table[k], self.n)
    }
}

// Whether an entry is used twice, where each names a leaf or an earlier row: then a row breaks the tree rule.
pub fn any_twice(table: &[i32], n: u16) -> bool
    requires { Pairs n table.now × (some_none n table.now ≡ false) }
    ensures { result ≡ twice table.now }
{
    bad_row(&Named { table, n }, n as usize).is_some()
}

// Writes the rows that a table says, where each entry names a leaf or an earlier row, to out's first places.
pub fn rows_out(table: &[i32], n: u16, out: &mut [u16])
    requires pairs { Pairs n table.now × (some_none n table.now ≡ false) }
    requires n_in_bounds { 2 * (n - 1) ≤ length out.old }
    ensures { out.new ≡ sets out.old 0 (rows_in n table.now) }
{
    for (k, entry) in table.iter().enumerate() {
        out[k] = named_by(*entry, n);
    }
}
