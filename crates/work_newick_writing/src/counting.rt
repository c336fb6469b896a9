// How many bytes the text of an object takes: a leaf's digits, or its two children's texts with a comma and two
// parentheses.
ghost use Rattle.std.specs.Prelude.{◌≡◌, ◌+◌, ◌*◌, ◌≤◌, ◌<◌, [], length};
ghost use Rattle.newick.specs.Writing.{decimal, sentence_of, text_of};
ghost use Rattle.work_trees.specs.Rows.{GoodRows, tree_of};
ghost use Rattle.work_newick_writing.specs.Counts.{TextCounts, bytes_of};
ghost use Rattle.work_trees.specs.Once.{once};

// How many digits a leaf's number takes, which is below 1,000.
#[tactic(auto, using(crate::proofs::Decimal::decimal_digits))]
fn digits_of(a: u16) -> u16
    ensures { result ≡ length (decimal a) }
{
    match a {
        0..=9 => 1,
        10..=99 => 2,
        _ => 3,
    }
}

// How many bytes an object's text takes, from the notes of the rows' objects: its digits, if it is a leaf.
pub fn bytes_under(bytes: &[u16; 512], n: u16, obj: u16) -> u16
    requires { (1 ≤ n) × (n ≤ 512) × (obj < 2 * n) }
    ensures { result ≡ bytes_of bytes.now n obj }
{
    if obj <= n {
        digits_of(obj)
    } else {
        bytes[usize::from(obj - n - 1)]
    }
}

// Notes for each row how many bytes the text of the object that it makes takes.
pub fn count_text(rows: &[u16; 1023], bytes: &mut [u16; 512])
    requires { GoodRows rows.now × (length bytes.old ≡ 512) }
    ensures { TextCounts rows.now bytes.new }
{
    let n = rows[1022];
    for k in 0..usize::from(n - 1) {
        let a = bytes_under(bytes, n, rows[2 * k]);
        let b = bytes_under(bytes, n, rows[2 * k + 1]);
        bytes[k] = a + b + 3;
    }
}

// A tree's rows, and how many bytes the text of the object that each of them makes takes: its text can be written.
#[derive(Drop)]
pub struct TreeText<'a> {
    pub rows: &'a [u16; 1023],
    pub bytes: &'a [u16; 512],
    ghost good_rows: { GoodRows rows.now } by { Prim.hlevel once },
    ghost counts: { TextCounts rows.now bytes.now },
}

impl<'a> TreeText<'a> {
    // How many bytes the tree's text takes, with its semicolon.
    pub fn length(&self) -> usize
        ensures { result ≡ length (text_of (sentence_of [] (tree_of self.now.rows.now))) }
    {
        let n = self.rows[1022];
        usize::from(bytes_under(self.bytes, n, 2 * n - 1)) + 1
    }
}
