// Numbers in memory, whatever form they stand in there: a list of them, and a way to read the number at a place.
ghost use Rattle.std.specs.Prelude.{◌≡◌, ◌<◌, ℕ, List, length, get_or};

pub trait Numbers {
    // The list of them.
    ghost list: { Self → List ℕ };

    // The number at place k, counted from 0.
    fn number(&self, k: usize) -> u16
        requires { k < length (list self.now) }
        ensures { result ≡ get_or (list self.now) k 0 };
}

impl Numbers for &[u16] {
    ghost list = { λ xs. xs.now };

    fn number(&self, k: usize) -> u16 {
        self[k]
    }
}
