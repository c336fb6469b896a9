// The calls for C between a record and its parts, five lists with the hold and n: pack and unpack. A refused call
// writes to no buffer.
ghost use Rattle.record_fields.specs.Fields.{given};
ghost use Rattle.tangle.specs.ForC.{PacksForC, UnpacksForC};

use crate::answers::{TangleRefusal, TangleUnpack};
use crate::narrowing::{in_8_bits, in_16_bits};

// Parts made a record, in the first places of a buffer; or the refusal, and the buffer as it was.
#[unsafe(no_mangle)]
pub extern "C" fn tangle_pack(
    hold: u32,
    n: u32,
    left: &[u16],
    right: &[u16],
    links: &[u16],
    leftlayout: &[u8],
    rightlayout: &[u8],
    out: &mut [u8],
) -> TangleRefusal
    ensures { PacksForC
        (given
        hold
        n
        left.now
        right.now
        links.now
        leftlayout.now
        rightlayout.now)
        out.old
        result
        out.new }
{
    record_packing::pack(
        in_8_bits(hold),
        in_16_bits(n),
        left,
        right,
        links,
        leftlayout,
        rightlayout,
        out,
    )
    .into()
}

// A record's parts, each into the first places of its buffer, its hold and n; or the refusal, and the buffers as they
// were.
#[unsafe(no_mangle)]
pub extern "C" fn tangle_unpack(
    s: &[u8],
    left: &mut [u16],
    right: &mut [u16],
    links: &mut [u16],
    leftlayout: &mut [u8],
    rightlayout: &mut [u8],
) -> TangleUnpack
    ensures { UnpacksForC
        s.now
        left.old
        right.old
        links.old
        leftlayout.old
        rightlayout.old
        result
        left.new
        right.new
        links.new
        leftlayout.new
        rightlayout.new }
{
    record_unpacking::unpack(s, left, right, links, leftlayout, rightlayout).into()
}
