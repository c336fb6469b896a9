// Packing: parts, as numbers and lists, into a buffer.
ghost use Rattle.std.specs.Prelude.{IfOk, ◌≡◌, ◌≤◌, length};
ghost use Rattle.std.proofs.lemmas.List.Edits.{sets};
ghost use Rattle.record_packing.specs.Calls.{Packs};
ghost use Rattle.record_packing.specs.Refusals.{parts_shape_refusal};
ghost use Rattle.record_fields.specs.Fields.{given, length_of, opening, packed};
ghost use Rattle.record_fields.specs.Holds.{letter_of};
ghost use Rattle.record_fields.specs.Refused.{refused, told};
ghost use Rattle.record_fields.specs.Told.{ToldContents};

use record::heading::no_size;
use record_contents::test_parts;
use record_fields::copying::{bytes_in, number_in, numbers_in};
use record_fields::fields::{
    HOLD_AT, LEFT_ROWS_AT, MARK_TGP, SIZE_AT, VERSION_1, VERSION_AT, left_layout_at, length_of,
    links_at, right_layout_at, right_rows_at,
};
use record_fields::hold::Hold;
use record_fields::refusal::Refusal;
use std::marker::Model;

// The parts of a record over n leaves: its hold, and lists of the lengths that n asks for.
#[derive(Drop)]
struct Parts<'a> {
    hold: Hold,
    n: u16,
    left: &'a [u16],
    right: &'a [u16],
    links: &'a [u16],
    leftlayout: &'a [u8],
    rightlayout: &'a [u8],
}

impl<'a> Model for Parts<'a> {
    ghost use Rattle.record_fields.specs.Fields.{Parts, given};
    ghost use Rattle.record_fields.specs.Holds.{letter_of};
    ghost use Rattle.record_packing.specs.Shapes.{Shaped};

    ghost Value = { Parts };

    ghost view = { λ p. given (letter_of p.hold) p.n p.left.now p.right.now p.links.now p.leftlayout.now p.rightlayout.now };

    ghost invariant = { λ p. Shaped p.n p.left.now p.right.now p.links.now p.leftlayout.now p.rightlayout.now };
}

impl<'a> Parts<'a> {
    // The parts in these lists, or the refusal of the hold, of n, or of a list's length.
    fn shaped(
        hold: u8,
        n: u16,
        left: &'a [u16],
        right: &'a [u16],
        links: &'a [u16],
        leftlayout: &'a [u8],
        rightlayout: &'a [u8],
    ) -> Result<Parts<'a>, Refusal>
        ensures tells { told result ≡
            refused (parts_shape_refusal (given hold n left.now right.now links.now leftlayout.now rightlayout.now)) }
        ensures keeps { IfOk result (λ p. p ≡ given hold n left.now right.now links.now leftlayout.now rightlayout.now) }
    {
        let hold = Hold::try_from(hold)?;
        if no_size(n) {
            return Err(Refusal::Size);
        }
        let m = n as usize - 1;
        if left.len() != 2 * m
            || right.len() != 2 * m
            || links.len() != n as usize
            || leftlayout.len() != m
            || rightlayout.len() != m
        {
            return Err(Refusal::Length);
        }
        Ok(Parts {
            hold,
            n,
            left,
            right,
            links,
            leftlayout,
            rightlayout,
        })
    }

    // Tests what stands in the lists: the rows, of which the lowest bad one is told, the links and the layouts.
    fn test(&self) -> Result<(), Refusal>
        ensures { ToldContents self.now (told result) }
    {
        test_parts(
            self.n,
            &self.left,
            &self.right,
            &self.links,
            self.leftlayout,
            self.rightlayout,
        )
    }

    // Writes the record with these parts to the buffer's first places.
    fn write(&self, out: &mut [u8])
        requires { length_of self.now.size ≤ length out.old }
        ensures { out.new ≡ sets out.old 0 (packed self.now) }
    {
        write_opening(self.hold, self.n, out);
        numbers_in(self.left, out, LEFT_ROWS_AT);
        numbers_in(self.right, out, right_rows_at(self.n));
        numbers_in(self.links, out, links_at(self.n));
        bytes_in(self.leftlayout, out, left_layout_at(self.n));
        bytes_in(self.rightlayout, out, right_layout_at(self.n));
    }
}

// Writes bytes 0 to 7: the mark, version 1, the hold and n.
fn write_opening(hold: Hold, n: u16, out: &mut [u8])
    requires { 8 ≤ length out.old }
    ensures { out.new ≡ sets out.old 0 (opening (letter_of hold) n) }
{
    bytes_in(&MARK_TGP, out, 0);
    number_in(VERSION_1, out, VERSION_AT);
    out[HOLD_AT] = hold.letter();
    number_in(n, out, SIZE_AT);
}

// Packs any parts: writes the record that they make to the buffer's first 12n-2 places, if the parts are good and
// the buffer has the places; else it answers the refusal and writes nothing. Rows are flat, upper then lower. Each list
// is a parameter of its own, since the C interface hands it over so.
pub fn pack(
    hold: u8,
    n: u16,
    left: &[u16],
    right: &[u16],
    links: &[u16],
    leftlayout: &[u8],
    rightlayout: &[u8],
    out: &mut [u8],
) -> Result<(), Refusal>
    ensures { Packs (given hold n left.now right.now links.now leftlayout.now rightlayout.now) out.old (told result)
        out.new }
{
    let parts = Parts::shaped(hold, n, left, right, links, leftlayout, rightlayout)?;
    parts.test()?;
    if out.len() < length_of(n) {
        return Err(Refusal::Room);
    }
    parts.write(out);
    Ok(())
}
