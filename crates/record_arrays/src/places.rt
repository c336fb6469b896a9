// Where a side's parts stand in a record over n leaves.
ghost use Rattle.std.specs.Prelude.{◌≡◌, ◌≤◌};
ghost use Rattle.record_arrays.specs.Sides.{layout_at, rows_at};

use crate::sides::SaysSide;
use record_fields::fields::{LEFT_ROWS_AT, left_layout_at, right_layout_at, right_rows_at};
use tanglegram::Side;

// Where a side's rows begin.
pub fn rows_at<S: SaysSide>(n: u16, side: S) -> usize
    requires { 1 ≤ n }
    ensures { result ≡ rows_at n (S.said side) }
{
    match side.side() {
        Side::Left => LEFT_ROWS_AT,
        Side::Right => right_rows_at(n),
    }
}

// Where a side's layout begins.
pub fn layout_at<S: SaysSide>(n: u16, side: S) -> usize
    requires { 1 ≤ n }
    ensures { result ≡ layout_at n (S.said side) }
{
    match side.side() {
        Side::Left => left_layout_at(n),
        Side::Right => right_layout_at(n),
    }
}
