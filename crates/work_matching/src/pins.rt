// A layout and another one's pins: whether it turns a pinned row otherwise, and if not, the same layout with these
// pins.
ghost use Rattle.std.specs.Prelude.{◌≡◌, not, ◌&&◌, length};
ghost use Rattle.tanglegram.specs.Order.{against_pins, may_change, pinned_as, turned_otherwise, with_pin};
ghost use Rattle.work_matching.specs.Match.{KeepsPins};

use work_trees::{is_turned, may_change, with_pin};

// Whether a row is pinned by its byte p, and turned otherwise by x.
fn turns_pinned(p: u8, x: u8) -> bool
    ensures { result ≡ (not (may_change p) && turned_otherwise p x) }
{
    !may_change(p) && is_turned(p) != is_turned(x)
}

// Whether some row that is pinned in `pins` is turned otherwise in `lay`.
fn against_pins(pins: &[u8], lay: &[u8]) -> bool
    requires { length pins.now ≡ length lay.now }
    ensures { result ≡ against_pins pins.now lay.now }
{
    pins.iter().zip(lay).any(|(p, x)| turns_pinned(*p, *x))
}

// Pins each row of `lay` that is pinned in `pins`, and unpins the others; each is turned as it was.
fn pin_as(pins: &[u8], lay: &mut [u8])
    requires { length pins.now ≡ length lay.old }
    ensures { lay.new ≡ pinned_as pins.now lay.old }
{
    for (i, x) in lay.iter_mut().enumerate() {
        *x = with_pin(!may_change(pins[i]), *x);
    }
}

// Whether `lay` turns each row that is pinned in `pins` as it is there. If so, `lay` is pinned as `pins` is.
pub fn keep_pins(pins: &[u8], lay: &mut [u8]) -> bool
    requires { length pins.now ≡ length lay.old }
    ensures { KeepsPins pins.now lay.old result lay.new }
{
    if against_pins(pins, lay) {
        return false;
    }
    pin_as(pins, lay);
    true
}
