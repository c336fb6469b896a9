// Displacement: the sum of the squares of left place less right place, and its worst value.
ghost use Rattle.std.specs.Prelude.{◌≡◌, ◌<◌, ◌≤◌};
ghost use Rattle.tanglegram.specs.Entanglement.{squared, sum, worst};
ghost use Rattle.tanglegram.specs.Lists.{Each, range};
ghost use Rattle.work_places.specs.Arrays.{at};

// The square of how far two places are apart.
fn square(x: u16, y: u16) -> u32
    ensures { result ≡ squared x y }
{
    let d = u32::from(x.abs_diff(y));
    d * d
}

// The displacement of n links: left has the place of each left leaf, far that of its link's right end. It is at most
// 512 times 511 times 511, which is 133,693,952 and fits 32 bits.
pub fn displaced(left: &[u16; 512], far: &[u16; 512], n: usize) -> u32
    requires { (n ≤ 512) × Each (λ a. (at left.now a < 512) × (at far.now a < 512)) (range 1 n) }
    ensures { result ≡ sum (λ a. squared (at left.now a) (at far.now a)) (range 1 n) }
{
    left[..n].iter().zip(far).map(|(x, y)| square(*x, *y)).sum()
}

// The worst displacement of n links, n(n² - 1)/3, at most 44,739,072. The product is n³ - n, and n³ is at most
// 134,217,728, which fits 32 bits.
pub fn worst_value(n: usize) -> u32
    requires { n ≤ 512 }
    ensures { result ≡ worst n }
{
    ((n * n * n - n) / 3) as u32
}
