// The hold: which sides may not be moved, and the letter that says so in a record.
ghost use Rattle.std.specs.Prelude.{◌≡◌};
ghost use Rattle.record_fields.specs.Holds.{HoldRead, holds, letter_of};

use crate::refusal::Refusal;
use tanglegram::Side;

#[derive(Clone, Copy, Debug, PartialEq, Eq)]
pub enum Hold {
    Neither,
    Left,
    Right,
    Both,
}

impl TryFrom<u8> for Hold {
    type Error = Refusal;

    ghost try_from_gives = { HoldRead };

    fn try_from(letter: u8) -> Result<Hold, Refusal> {
        match letter {
            b'N' => Ok(Hold::Neither),
            b'L' => Ok(Hold::Left),
            b'R' => Ok(Hold::Right),
            b'B' => Ok(Hold::Both),
            _ => Err(Refusal::Hold),
        }
    }
}

impl Hold {
    // Its letter.
    pub fn letter(self) -> u8
        ensures { result ≡ letter_of self }
    {
        match self {
            Hold::Neither => b'N',
            Hold::Left => b'L',
            Hold::Right => b'R',
            Hold::Both => b'B',
        }
    }

    // Whether it holds a side.
    #[tactic(auto, unfolding(crate::specs::Holds::holds))]
    pub fn holds(self, side: Side) -> bool
        ensures { result ≡ holds (letter_of self) side }
    {
        match self {
            Hold::Neither => false,
            Hold::Left => match side {
                Side::Left => true,
                Side::Right => false,
            },
            Hold::Right => match side {
                Side::Left => false,
                Side::Right => true,
            },
            Hold::Both => true,
        }
    }
}
