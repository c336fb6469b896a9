// Numbers of a record, two bytes each, read where they stand.
ghost use Rattle.std.specs.Prelude.{◌+◌, ◌*◌, ◌≤◌, length};
ghost use Rattle.record_fields.specs.Fields.{numbers};

use crate::copying::number;
use work_tree_rule::Numbers;

// The `many` numbers from place `at` on.
#[derive(Drop)]
pub struct NumbersAt<'a> {
    pub bytes: &'a [u8],
    pub at: usize,
    pub many: usize,
    pub ghost within: { at + 2 * many ≤ length bytes.now },
}

impl Numbers for NumbersAt<'_> {
    ghost list = { λ r. numbers r.bytes.now r.at r.many };

    fn number(&self, k: usize) -> u16 {
        number(self.bytes, self.at + 2 * k)
    }
}
