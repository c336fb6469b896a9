// A record's parts in the arrays that the work goes over: rows in a row array (n in its last place), links in an array.
ghost use Rattle.std.specs.Prelude.{◌≡◌, ◌+◌, ◌-◌, ◌*◌, ◌≤◌, length, set};
ghost use Rattle.std.proofs.lemmas.List.Edits.{sets};
ghost use Rattle.record_fields.specs.Fields.{numbers};

use crate::copying::numbers_out;

// Fills a row array with the n-1 rows from place `at` on.
pub fn fill_rows(s: &[u8], at: usize, n: u16, rows: &mut [u16; 1023])
    requires { (1 ≤ n) × (n ≤ 512) × (at + 4 * (n - 1) ≤ length s.now) × (length rows.old ≡ 1023) }
    ensures { rows.new
        ≡ set (sets rows.old 0 (numbers s.now at (2 * (n - 1)))) 1022 n }
{
    numbers_out(s, at, 2 * (n as usize - 1), rows);
    rows[1022] = n;
}

// Fills an array's first places with the n links from place `at` on.
pub fn fill_links(s: &[u8], at: usize, n: u16, links: &mut [u16; 512])
    requires { (n ≤ 512) × (at + 2 * n ≤ length s.now) × (length links.old ≡ 512) }
    ensures { links.new ≡ sets links.old 0 (numbers s.now at n) }
{
    numbers_out(s, at, n as usize, links);
}
