// Seen places: one bit for each of 512 places, in eight words of 64 bits.
ghost use Rattle.std.specs.Prelude.{◌≡◌, suc, ◌-◌, ◌<◌, ◌≤◌, replicate};
ghost use Rattle.tanglegram.specs.Entanglement.{sum};
ghost use Rattle.tanglegram.specs.Lists.{range};
ghost use Rattle.work_seen_places.specs.Seen.{digit, low_ones, is_marked, all_before, mark_at, past};

use std::marker::Model;

// The places that are marked. In clauses it is the list of its words.
// The field is public, so that a caller can bring words of its own, whatever they are.
#[derive(Clone, Copy)]
pub struct Seen {
    pub words: [u64; 8],
}

impl Model for Seen {
    ghost use Rattle.std.specs.Prelude.{ℕ, List};

    ghost Value = { List ℕ };

    ghost view = { λ s. s.words };

    ghost inverse = { λ list. record { words = list } };
}

impl Seen {
    // No place is marked.
    pub fn new() -> Self
        ensures { result ≡ replicate 8 0 }
    {
        Seen { words: [0; 8] }
    }

    // Marks place p, and no other.
    pub fn mark(&mut self, p: usize)
        requires { p < 512 }
        ensures { self.new ≡ mark_at self.old p }
    {
        self.words[p / 64] |= 1 << (p % 64);
    }

    // Whether place p is marked.
    pub fn is_marked(&self, p: usize) -> bool
        requires { p < 512 }
        ensures { result ≡ is_marked self.now p }
    {
        (self.words[p / 64] >> (p % 64)) % 2 == 1
    }

    // Whether each place before n is marked: the words that these places fill, and the low digits of the next word.
    pub fn all_before(&self, n: usize) -> bool
        requires { n ≤ 512 }
        ensures { result ≡ all_before self.now n }
    {
        let k = n / 64;
        let j = n % 64;
        self.words[..k].iter().all(|w| all_ones(*w)) && (j == 0 || low_ones(self.words[k], j))
    }

    // The number of marked places past p: the ones past it in its own word, and all ones of the words after.
    pub fn ones_past(&self, p: usize) -> u32
        requires { p < 512 }
        ensures { result ≡ past self.now p }
    {
        let k = p / 64;
        let mut n = ones_after(self.words[k], p % 64);
        // A walk over `&self.words[k + 1..]` was tried: with it a count takes a third longer, since here the loop is unrolled.
        for i in k + 1..8 {
            n += ones(self.words[i]);
        }
        n
    }
}

// Whether a word has ones only.
fn all_ones(x: u64) -> bool
    ensures { result ≡ low_ones x 64 }
{
    x == u64::MAX
}

// Whether the lowest j digits of a word are ones.
fn low_ones(x: u64, j: usize) -> bool
    requires { j < 64 }
    ensures { result ≡ low_ones x j }
{
    let end = 1u64 << j;
    x % end == end - 1
}

// The ones of a word.
fn ones(x: u64) -> u32
    ensures { (result ≡ sum (digit x) (range 0 64)) × (result ≤ 64) }
{
    x.count_ones()
}

// The ones of a word past its digit j.
fn ones_after(x: u64, j: usize) -> u32
    requires { j < 64 }
    ensures { (result ≡ sum (digit x) (range (suc j) (63 - j))) × (result ≤ 64) }
{
    ((x >> j) >> 1).count_ones()
}
