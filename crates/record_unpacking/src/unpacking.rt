// Unpacking: a record's parts, into five buffers.
ghost use Rattle.std.specs.Prelude.{◌≡◌, ◌≤◌, ◌*◌, ◌-◌, length};
ghost use Rattle.record_unpacking.specs.Answers.{unpacked};
ghost use Rattle.record_unpacking.specs.Calls.{Unpacks};
ghost use Rattle.record_fields.specs.Fields.{parts_of, Sized};
ghost use Rattle.record_fields.specs.Refused.{refused, told};

use record::{Header, read};
use record_fields::copying::{bytes_in, numbers_out};
use record_fields::fields::{
    LEFT_ROWS_AT, left_layout_at, links_at, right_layout_at, right_rows_at,
};
use record_fields::refusal::Refusal;

// The buffers that a record's parts are put into.
#[derive(Drop)]
struct Buffers<'a> {
    left: &'a mut [u16],
    right: &'a mut [u16],
    links: &'a mut [u16],
    leftlayout: &'a mut [u8],
    rightlayout: &'a mut [u8],
}

impl<'a> Buffers<'a> {
    ghost use Rattle.record_unpacking.specs.Buffers.{Filled, room_in, SameBuffers};

    // Tests the room: each needs the places for its part of a record over n leaves.
    fn check_room(&self, n: u16) -> Result<(), Refusal>
        requires { 1 ≤ n }
        ensures { told result ≡ refused (room_in n self.now) }
    {
        let m = n as usize - 1;
        if self.left.len() < 2 * m
            || self.right.len() < 2 * m
            || self.links.len() < n as usize
            || self.leftlayout.len() < m
            || self.rightlayout.len() < m
        {
            return Err(Refusal::Room);
        }
        Ok(())
    }

    // Writes the parts of a record over n leaves to their first places.
    fn fill(&mut self, s: &[u8], n: u16)
        requires sized { Sized s.now n }
        requires n_in_bounds { (2 * (n - 1) ≤ length self.old.left.now) × (2 * (n - 1) ≤ length self.old.right.now)
            × (n ≤ length self.old.links.now) }
        requires n_in_bounds_2 { (n - 1 ≤ length self.old.leftlayout.now) × (n - 1 ≤ length self.old.rightlayout.now) }
        ensures filled { Filled (parts_of s.now n) self.old self.new }
        ensures same_buffers { SameBuffers self.old self.new }
    {
        let m = n as usize - 1;
        numbers_out(s, LEFT_ROWS_AT, 2 * m, self.left);
        numbers_out(s, right_rows_at(n), 2 * m, self.right);
        numbers_out(s, links_at(n), n as usize, self.links);
        let at = left_layout_at(n);
        let last = right_layout_at(n);
        bytes_in(&s[at..last], self.leftlayout, 0);
        bytes_in(&s[last..], self.rightlayout, 0);
    }
}

// Unpacks any bytes: writes the rows of each tree, the links and the layouts to the buffers' first places, if the
// record is accepted and each buffer has the places; else it answers the refusal and writes nothing. Each buffer is a
// parameter of its own, since the C interface hands it over so.
pub fn unpack(
    s: &[u8],
    left: &mut [u16],
    right: &mut [u16],
    links: &mut [u16],
    leftlayout: &mut [u8],
    rightlayout: &mut [u8],
) -> Result<Header, Refusal>
    ensures { Unpacks s.now left.old right.old links.old leftlayout.old rightlayout.old (unpacked result)
        left.new right.new links.new leftlayout.new rightlayout.new }
{
    let header = read(s)?;
    let mut buffers = Buffers {
        left,
        right,
        links,
        leftlayout,
        rightlayout,
    };
    buffers.check_room(header.n)?;
    buffers.fill(s, header.n);
    Ok(header)
}
