// The lines of an accepted record as it stands.
ghost use Rattle.std.specs.Prelude.{cond, [], ◌≢◌, ◌≡◌, ◌≤◌, length};
ghost use Rattle.record_arrays.specs.Shown.{shown_count, shown_order};
ghost use Rattle.record_fields.specs.Fields.{size_of};
ghost use Rattle.record_fields.specs.Holds.{letter_of};
ghost use Rattle.record_fields.specs.Refusals.{refusal};
ghost use Rattle.calls_sheet.specs.Lines.{count_line, order_line};
ghost use Rattle.calls_sheet.specs.Sheet.{is_run};
ghost use Rattle.calls_sheet.specs.Shown.{HeadingOf, SaysOf, neither_held};
ghost use Rattle.work_text.specs.Puts.{Puts};

use crate::lines::{count_line, heading_line, order_line};
use crate::measures::measures_line;
use record::Header;
use record_arrays::side_order;
use record_fields::hold::Hold;
use tanglegram::Side;

// A side's letter and its order.
fn side_line(s: &[u8], n: u16, side: Side, letter: u8, out: &mut [u8]) -> usize
    requires { (refusal s.now ≡ 0) × (n ≡ size_of s.now) × (1942 ≤ length out.old) }
    ensures { Puts (order_line letter (shown_order s.now side)) out.old 0 result out.new }
{
    let mut order = [0u16; 512];
    side_order(s, n, side, &mut order);
    order_line(letter, &order[..n as usize], out)
}

// The count.
fn counted_line(s: &[u8], out: &mut [u8]) -> usize
    requires { (refusal s.now ≡ 0) × (64 ≤ length out.old) }
    ensures { Puts (count_line (shown_count s.now)) out.old 0 result out.new }
{
    match calls_show::count(s) {
        Ok(count) => count_line(count, out),
        Err(_refusal) => 0,
    }
}

// Whether neither side is held.
fn is_free(hold: Hold) -> bool
    ensures { result ≡ neither_held (letter_of hold) }
{
    !hold.holds(Side::Left) && !hold.holds(Side::Right)
}

// A side's letter and its order below the line of a run; nothing where there is no run.
fn side_after(s: &[u8], header: Header, side: Side, letter: u8, out: &mut [u8]) -> usize
    requires { HeadingOf s.now (letter_of header.hold) header.n × (1942 ≤ length out.old) }
    ensures { Puts (cond (is_run s.now) (order_line letter (shown_order s.now side)) [])
        out.old 0 result out.new }
{
    if is_free(header.hold) {
        return side_line(s, header.n, side, letter, out);
    }
    0
}

// Line k, which is not 6, of an accepted record with that heading; nothing where it has no such line.
pub fn shown_line(s: &[u8], header: Header, k: usize, out: &mut [u8]) -> usize
    requires { HeadingOf s.now (letter_of header.hold) header.n × (k ≢ 6) × (1942 ≤ length out.old) }
    ensures { SaysOf s.now k out.old result out.new }
{
    match k {
        1 => heading_line(header, out),
        2 => side_line(s, header.n, Side::Left, b'L', out),
        3 => side_line(s, header.n, Side::Right, b'R', out),
        4 => counted_line(s, out),
        5 => measures_line(s, out),
        7 => side_after(s, header, Side::Left, b'L', out),
        8 => side_after(s, header, Side::Right, b'R', out),
        _ => 0,
    }
}
