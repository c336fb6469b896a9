// The text of an object, written into lent memory: a leaf's digits, or the texts of its two children between
// parentheses with a comma. The walk calls itself for the child with the shorter text and goes on with the other in its
// loop, so that at most ten calls are open however deep the tree is. (A last call that passes a slice is no jump.)
ghost use Rattle.std.specs.Prelude.{◌≡◌, ◌+◌, ◌*◌, ◌≤◌, ◌<◌, [], length};
ghost use Rattle.std.proofs.lemmas.List.Edits.{sets};
ghost use Rattle.newick.specs.Writing.{decimal, sentence_of, text_of};
ghost use Rattle.work_trees.specs.Rows.{size, object_of, tree_of};
ghost use Rattle.work_newick_writing.specs.Counts.{written};

use crate::counting::{TreeText, bytes_under};

// The byte of a digit.
fn digit(d: u16) -> u8
    requires { d < 10 }
    ensures { result ≡ 48 + d }
{
    b'0' + d as u8
}

// Writes the digits of a leaf's number into out from place `at` on.
#[tactic(auto, using(crate::proofs::Decimal::digits_stored))]
fn write_leaf(a: u16, out: &mut [u8], at: usize)
    requires { (a < 1000) × (at + length (decimal a) ≤ length out.old) }
    ensures { out.new ≡ sets out.old at (decimal a) }
{
    match a {
        0..=9 => out[at] = digit(a),
        10..=99 => {
            out[at] = digit(a / 10);
            out[at + 1] = digit(a % 10);
        }
        _ => {
            out[at] = digit(a / 100);
            out[at + 1] = digit(a / 10 % 10);
            out[at + 2] = digit(a % 10);
        }
    }
}

impl<'a> TreeText<'a> {
    // Writes the text of object `top` into out from place `from` on. Of each row's object the parentheses and the comma
    // are written, then the shorter child's text; what is left is the other child's, which is next.
    fn walk(&self, top: u16, out: &mut [u8], from: usize)
        requires top_bound { top < 2 * size self.now.rows.now }
        requires top_in_bounds { from + length (written (object_of self.now.rows.now top))
            ≤ length out.old }
        ensures { out.new ≡ sets out.old from (written (object_of self.now.rows.now top)) }
    {
        let n = self.rows[1022];
        let mut obj = top;
        let mut at = from;
        while n < obj {
            let k = usize::from(obj - n - 1);
            let a = self.rows[2 * k];
            let b = self.rows[2 * k + 1];
            let first = usize::from(bytes_under(self.bytes, n, a));
            let second = usize::from(bytes_under(self.bytes, n, b));
            let mid = at + 1 + first;
            out[at] = b'(';
            out[mid] = b',';
            out[mid + 1 + second] = b')';
            if first <= second {
                self.walk(a, out, at + 1);
                obj = b;
                at = mid + 1;
            } else {
                self.walk(b, out, mid + 1);
                obj = a;
                at += 1;
            }
        }
        write_leaf(obj, out, at);
    }

    // Writes the tree's text into out's first places, and keeps the others as they are.
    pub fn write(&self, out: &mut [u8])
        requires { length (text_of (sentence_of [] (tree_of self.now.rows.now))) ≤ length out.old }
        ensures { out.new
            ≡ sets out.old 0 (text_of (sentence_of [] (tree_of self.now.rows.now))) }
    {
        let n = self.rows[1022];
        self.walk(2 * n - 1, out, 0);
        out[self.length() - 1] = b';';
    }
}
