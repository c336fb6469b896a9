// Entries of a hand list, in whatever form they are lent. In this crate an entry is one number, the side times 65,536
// and the row.
ghost use Rattle.std.specs.Prelude.{◌≡◌};
ghost use Rattle.calls_hands.specs.Entries.{narrow};
ghost use Rattle.calls_hands.specs.Refusals.{Hand, hand_of};

pub trait Entry: Copy {
    // The hand that it is.
    ghost names: { Self → Hand };

    // Its side; 0 for one that 16 bits cannot have, which is no side either.
    fn side(self) -> u16
        ensures { result ≡ narrow (names self).side };

    // Its row; 0 for one that 16 bits cannot have, which is no row either.
    fn row(self) -> u16
        ensures { result ≡ narrow (names self).row };
}

impl Entry for u32 {
    ghost names = { hand_of };

    fn side(self) -> u16 {
        (self / 65536) as u16
    }

    fn row(self) -> u16 {
        (self % 65536) as u16
    }
}
