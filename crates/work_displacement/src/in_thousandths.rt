// Entanglement in thousandths: the largest whole k with k·k·W at most 1,000,000·D. That is the largest with k·k at most what
// 1,000,000·D divided by W is, rounded down.
ghost use Rattle.std.specs.Prelude.{◌<◌, ◌≤◌};
ghost use Rattle.tanglegram.specs.Entanglement.{Thousandths};

pub fn thousandths(d: u32, w: u32) -> u32
    requires { (0 < w) × (d ≤ w) × (w ≤ 44739072) }
    ensures { Thousandths d w result }
{
    let most = 1_000_000 * u64::from(d);
    (most / u64::from(w)).isqrt() as u32
}
