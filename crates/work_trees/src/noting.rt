// The place of each leaf in an order, noted by leaf.
ghost use Rattle.std.specs.Prelude.{◌≡◌, ℕ, ◌≤◌, length, get_or, take, replicate};
ghost use Rattle.tanglegram.specs.Lists.{place};

// Notes at each leaf v of 1 to n its first place among the first n entries of xs, and leaves n where there is none.
pub fn note_places(xs: &[u16; 512], n: u16, at: &mut [u16; 1024])
    requires { (n ≤ 512) × (length xs.now ≡ 512) × (at.old ≡ replicate 1024 n) }
    ensures at_len { length at.new ≡ 1024 }
    ensures by_index { (v : ℕ) → v ≤ n → get_or at.new v 0 ≡ place (take n xs.now) v }
{
    for i in (0..n).rev() {
        let v = xs[usize::from(i)];
        if v <= n {
            at[usize::from(v)] = i;
        }
    }
}
