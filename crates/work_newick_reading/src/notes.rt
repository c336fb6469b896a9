// What is noted while a text is read (`specs/Notes.antt`): groups opened and closed, and what the notes say once all is
// read.
ghost use Rattle.std.specs.Prelude.{◌≡◌, cond, map, ◌+◌, ◌-◌, ◌*◌, ◌≤◌, eqb, length, replicate, set, take, unwrap_or};
ghost use Rattle.std.proofs.lemmas.List.Edits.{sets};
ghost use Rattle.newick.specs.Noted.{fixed};
ghost use Rattle.work_newick_reading.specs.Notes.{Notes as GoodNotes, opened, closed, closed_in, open_in, last_in};

use std::marker::Model;

// how many rows are noted: those of the first groups that close
const MOST_ROWS: u16 = 511;
// what is noted for the groups that have closed where there are more
const TOO_MANY: u16 = 512;
// the object of the group that closes first; leaves are below it
pub const FIRST_GROUP: u16 = 1024;

// The rows of the groups that have closed, two entries each, from the first place on; how many have closed; the object
// that was read last; and how many groups are open. The statements speak of them as one list, in this order.
// The fields are public, so that a caller can bring numbers of its own, whatever they are.
#[derive(Drop)]
pub struct Notes {
    pub rows: [u16; 1022],
    pub closed: u16,
    pub last: u16,
    pub open: u16,
}

impl Model for Notes {
    ghost use Rattle.std.specs.Prelude.{ℕ, List, [], ◌∷◌, ◌++◌};

    ghost Value = { List ℕ };

    ghost view = { λ notes. notes.rows ++ (notes.closed ∷ notes.last ∷ notes.open ∷ []) };
}

impl Notes {
    // Nothing is noted.
    pub fn new() -> Notes
        ensures { result ≡ replicate 1025 0 }
    {
        Notes {
            rows: [0; 1022],
            closed: 0,
            last: 0,
            open: 0,
        }
    }

    // How many groups are open.
    pub(crate) fn open_groups(&self) -> u16
        ensures { result ≡ open_in self.now }
    {
        self.open
    }

    // The object that was read last.
    pub(crate) fn last_object(&self) -> u16
        ensures { result ≡ last_in self.now }
    {
        self.last
    }

    // Notes that a leaf was read; one above 512 as 0, which is no leaf: entries that are Options would take twice the
    // memory.
    pub(crate) fn note_leaf(&mut self, leaf: Option<u16>)
        ensures { self.new ≡ set self.old 1023 (unwrap_or leaf 0) }
    {
        self.last = leaf.unwrap_or(0);
    }

    // Notes that one group more is open.
    pub(crate) fn open_one(&mut self)
        requires { open_in self.old ≤ 511 }
        ensures { self.new ≡ opened self.old }
    {
        self.open += 1;
    }

    // Notes that a group has closed whose first sentence is the object `first`.
    pub(crate) fn close_one(&mut self, first: u16)
        requires { 1 ≤ open_in self.old }
        ensures { self.new ≡ closed first self.old }
    {
        self.open -= 1;
        let closed = self.closed;
        if closed < MOST_ROWS {
            let at = 2 * usize::from(closed);
            self.rows[at] = first;
            self.rows[at + 1] = self.last;
            self.last = FIRST_GROUP + closed;
            self.closed = closed + 1;
        } else {
            self.closed = TOO_MANY;
        }
    }

    // How many leaves there are, by the notes of a whole text; none where there are more than 512.
    pub fn leaf_count(&self) -> Option<u16>
        requires { GoodNotes self.now }
        ensures { result ≡ cond (eqb (closed_in self.now) 512) None (Some (closed_in self.now + 1)) }
    {
        (self.closed != TOO_MANY).then_some(self.closed + 1)
    }

    // The entries that were noted for the rows over n leaves.
    pub(crate) fn entries(&self, n: u16) -> &[u16]
        requires { (1 ≤ n) × (n ≤ 512) }
        ensures value { result.now ≡ take (2 * (n - 1)) self.now }
        ensures long { length result.now ≡ 2 * (n - 1) }
    {
        &self.rows[..2 * usize::from(n - 1)]
    }

    // Writes the rows that were noted to the first places of a buffer, over n leaves.
    pub fn rows_out(&self, n: u16, out: &mut [u16])
        requires { (1 ≤ n) × (n ≤ 512) × (2 * (n - 1) ≤ length out.old) }
        ensures { out.new
            ≡ sets out.old 0 (map (fixed n) (take (2 * (n - 1)) self.now)) }
    {
        for (i, noted) in self.entries(n).iter().enumerate() {
            out[i] = fixed_entry(*noted, n);
        }
    }
}

// An entry as it is over n leaves.
fn fixed_entry(x: u16, n: u16) -> u16
    requires { n ≤ 512 }
    ensures { result ≡ fixed n x }
{
    if x < FIRST_GROUP { x } else { n + (x - 1023) }
}
