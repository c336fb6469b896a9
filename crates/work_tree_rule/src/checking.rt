// The tree rule: a row tested by marks at the objects that earlier rows use; the lowest row of a list that breaks it.
ghost use Rattle.std.specs.Prelude.{◌≡◌, cond, ◌-◌, ◌*◌, ◌≤◌, length, replicate, set};
ghost use Rattle.work_trees.specs.Rows.{upper, lower};
ghost use Rattle.work_tree_rule.specs.Marks.{refused_by, broken_by};
ghost use Rattle.work_tree_rule.specs.Rule.{bad_row, row_found};

use crate::numbers::Numbers;
use std::marker::Model;

// Marks at the objects that rows use, and 0 at each other object. Statements speak of the list of them.
// The field is public, so that a caller can bring marks of its own, whatever they are.
#[derive(Clone, Copy)]
pub struct Used {
    pub marks: [u8; 1024],
}

impl Model for Used {
    ghost use Rattle.std.specs.Prelude.{ℕ, List};

    ghost Value = { List ℕ };

    ghost view = { λ u. u.marks };

    ghost inverse = { λ list. record { marks = list } };
}

impl Used {
    // No object is used.
    pub fn new() -> Self
        ensures { result ≡ replicate 1024 0 }
    {
        Used { marks: [0; 1024] }
    }

    // Whether the row that makes object `made` can't have obj for an entry: it is 0, or not below made, or marked.
    fn refuses(&self, obj: u16, made: usize) -> bool
        requires { made ≤ 1024 }
        ensures { result ≡ refused_by self.now made obj }
    {
        obj == 0 || made <= usize::from(obj) || self.marks[usize::from(obj)] != 0
    }

    // Whether the row that makes object `made` of a and b breaks the rule. If it keeps it, both are marked as used.
    pub fn row_breaks(&mut self, a: u16, b: u16, made: usize) -> bool
        requires { made ≤ 1024 }
        ensures { (result ≡ broken_by self.old made a b)
            × (self.new ≡ cond result self.old (set (set self.old b 1) a 1)) }
    {
        if a == b || self.refuses(a, made) || self.refuses(b, made) {
            return true;
        }
        self.marks[usize::from(b)] = 1;
        self.marks[usize::from(a)] = 1;
        false
    }
}

// The lowest of n-1 rows that breaks the tree rule, if one does: rows over n leaves, flat, upper then lower.
pub fn bad_row<T: Numbers>(rows: &T, n: usize) -> Option<u16>
    requires { (1 ≤ n) × (n ≤ 512) × (length (T.list rows.now) ≡ 2 * (n - 1)) }
    ensures { result ≡
        row_found (bad_row n (upper (T.list rows.now)) (lower (T.list rows.now))) }
{
    let mut used = Used::new();
    for i in 1..n {
        if used.row_breaks(rows.number(2 * i - 2), rows.number(2 * i - 1), n + i) {
            // A row's number is below 512. `u16::try_from` would ask for an answer where it is not.
            return Some(i as u16);
        }
    }
    None
}
