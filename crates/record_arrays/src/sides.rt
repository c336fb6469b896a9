// What says a side: a side itself, or a number, of which 1 means left and any other right. Which sides a hold's letter
// holds.
ghost use Rattle.std.specs.Prelude.{◌≡◌};
ghost use Rattle.record_arrays.specs.Sides.{holds, side_of};
ghost use Rattle.tanglegram.specs.declared.side.Side.{Side};

use record_fields::hold::Hold;
use tanglegram::Side;

// The side that a number means, of any number: 1 is left, any other right. Whether it is a side's number at all is what
// `Side::try_from` says.
pub fn side_of(number: u16) -> Side
    ensures { result ≡ side_of number }
{
    if number == 1 {
        return Side::Left;
    }
    Side::Right
}

pub trait SaysSide: Copy {
    // The side that it says.
    ghost said: { Self → Side };

    fn side(self) -> Side
        ensures { result ≡ said self };
}

impl SaysSide for Side {
    ghost said = { λ side. side };

    fn side(self) -> Side {
        self
    }
}

impl SaysSide for u16 {
    ghost said = { side_of };

    fn side(self) -> Side {
        side_of(self)
    }
}

// Whether a hold's letter holds a side. Any other byte holds neither.
pub fn is_held<S: SaysSide>(hold: u8, side: S) -> bool
    ensures { result ≡ holds hold (S.said side) }
{
    match Hold::try_from(hold) {
        Ok(hold) => hold.holds(side.side()),
        Err(_) => false,
    }
}
