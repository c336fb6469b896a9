// Counting crossings: by seen places along an order, pair by pair from the definition, and across two runs of leaves.
ghost use Rattle.std.specs.Prelude.{◌≡◌, ◌&&◌, ◌||◌, [], ◌∷◌, map, suc, ◌+◌, ◌<◌, ◌≤◌, ltb, length, take, drop};
ghost use Rattle.tanglegram.specs.Crossings.{across, inverted, pairs};
ghost use Rattle.tanglegram.specs.Lists.{Distinct, Each, bit, range};
ghost use Rattle.work_places.specs.Arrays.{OneToN, at, cross_at, falls};

use work_places::entry_of;
use work_seen_places::Seen;

// The crossings of an order of the leaves 1 to n, whose links end at the far places: for each leaf the seen places past
// its own, which is then seen too.
pub fn count_seen(order: &[u16; 512], far: &[u16; 512], n: usize) -> u32
    requires n_bound { (n ≤ 512) × OneToN n order.now }
    requires each { Each (λ a. at far.now a < 512) (range 1 n) × Distinct (map (at far.now) (range 1 n)) }
    ensures { result ≡ pairs (inverted (at far.now)) (take n order.now) }
{
    let mut seen = Seen::new();
    let mut count = 0;
    for a in &order[..n] {
        let p = entry_of(far, *a);
        count += seen.ones_past(p);
        seen.mark(p);
    }
    count
}

// 1 if two links cross, else 0: a's left place is la and its right place ra, and b's are lb and rb.
fn crossed(la: u16, lb: u16, ra: u16, rb: u16) -> u32
    ensures { (result ≡ bit (ltb la lb && ltb rb ra || ltb lb la && ltb ra rb)) × (result ≤ 1) }
{
    u32::from(la < lb && rb < ra || lb < la && ra < rb)
}

// The crossings of n links, pair by pair: left has the place of each left leaf, far that of its link's right end.
pub fn count_pairs(left: &[u16; 512], far: &[u16; 512], n: usize) -> u32
    requires { n ≤ 512 }
    ensures { result ≡ pairs (cross_at left.now far.now) (range 1 n) }
{
    let mut count = 0;
    for i in 0..n {
        for j in 0..i {
            count += crossed(left[j], left[i], far[j], far[i]);
        }
    }
    count
}

// How many of a run of places are past q.
fn past_among(run: &[u16], q: u16) -> u16
    requires { length run.now ≤ 512 }
    ensures { (result ≡ across falls run.now (q ∷ [])) × (result ≤ 512) }
{
    run.iter().map(|p| u16::from(q < *p)).sum()
}

// The crossings between two runs of links, pair by pair: an array has their far places, k of the first run from index
// `at` on and m of the second from index `from` on.
pub fn count_across(seen: &[u16; 512], at: usize, k: usize, from: usize, m: usize) -> u32
    requires { (at + k ≤ 512) × (from + m ≤ 512) × (length seen.now ≡ 512) }
    ensures { result
        ≡ across falls (take k (drop at seen.now)) (take m (drop from seen.now)) }
{
    let first = &seen[at..at + k];
    let mut count = 0;
    for q in &seen[from..from + m] {
        count += u32::from(past_among(first, *q));
    }
    count
}
