// The two sides of the table, and the numbers that stand for them: 1 is left and 2 is right.
ghost use Rattle.std.specs.Prelude.{◌≡◌};
ghost use Rattle.tanglegram.specs.Run.{other};
ghost use Rattle.tanglegram.specs.Sides.{SideRead};

#[derive(Clone, Copy, Debug, PartialEq, Eq)]
pub enum Side {
    Left,
    Right,
}

impl Side {
    // The side across from it.
    pub fn other(self) -> Side
        ensures { result ≡ other self }
    {
        match self {
            Side::Left => Side::Right,
            Side::Right => Side::Left,
        }
    }
}

// A number that is no side's.
#[derive(Clone, Copy, Debug, PartialEq, Eq)]
pub struct NoSide;

impl TryFrom<u16> for Side {
    type Error = NoSide;

    ghost try_from_gives = { SideRead };

    fn try_from(number: u16) -> Result<Side, NoSide> {
        match number {
            1 => Ok(Side::Left),
            2 => Ok(Side::Right),
            _ => Err(NoSide),
        }
    }
}
