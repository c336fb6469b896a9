// Arrays by leaf: the place of each leaf in an order, and where each leaf's link ends on the other side.
ghost use Rattle.std.specs.Prelude.{◌≡◌, ◌≤◌, length, take};
ghost use Rattle.tanglegram.specs.Crossings.{back, to};
ghost use Rattle.tanglegram.specs.Lists.{place, range, Each};
ghost use Rattle.work_places.specs.Arrays.{OneToN, Leaf, along, at, filled};

// What an array by leaf has for leaf a.
pub fn entry_of(xs: &[u16; 512], a: u16) -> usize
    requires { Leaf 512 a }
    ensures { result ≡ at xs.now a }
{
    usize::from(xs[usize::from(a) - 1])
}

// Writes the place of each leaf in an order of the leaves 1 to n.
// `near_ends` walks likewise, but what it writes stands in an array, and here it is counted: one function for both would take
// an iterator over what is written, and be no plainer than two loops of a line.
pub fn places(order: &[u16; 512], n: usize, out: &mut [u16; 512])
    requires { (n ≤ 512) × (n ≤ length out.old) × OneToN n order.now }
    ensures { out.new ≡ filled (place (take n order.now)) n out.old }
{
    for (i, a) in order[..n].iter().enumerate() {
        out[usize::from(*a) - 1] = i as u16;
    }
}

// Writes for each left leaf a the place of its link's right end: what the array by right leaf has for p(a). It reads where the
// link leads, and `near_ends` writes there, so neither can be said by the other.
pub fn far_ends(links: &[u16; 512], places: &[u16; 512], n: usize, out: &mut [u16; 512])
    requires { (n ≤ 512) × (n ≤ length out.old) × Each (λ a. Leaf n (to links.now a)) (range 1 n) }
    ensures { out.new
        ≡ filled (λ a. at places.now (to links.now a)) n out.old }
{
    out[..n].copy_from_slice(&links[..n]);
    entries_along(places, n, out);
}

// Writes for each right leaf the place of its link's left end: at p(a), what the array by left leaf has for a.
pub fn near_ends(links: &[u16; 512], places: &[u16; 512], n: usize, out: &mut [u16; 512])
    requires { (n ≤ 512) × (n ≤ length out.old) × OneToN n links.now }
    ensures { out.new
        ≡ filled (λ c. at places.now (back (take n links.now) c)) n out.old }
{
    for (c, p) in links[..n].iter().zip(places) {
        out[usize::from(*c) - 1] = *p;
    }
}

// Writes over each of the first n leaves of a list what an array by leaf has for it.
pub fn entries_along(xs: &[u16; 512], n: usize, list: &mut [u16; 512])
    requires { (n ≤ 512) × (n ≤ length list.old) × Each (Leaf 512) (take n list.old) }
    ensures { list.new ≡ along (at xs.now) n list.old }
{
    for a in &mut list[..n] {
        *a = xs[usize::from(*a) - 1];
    }
}
