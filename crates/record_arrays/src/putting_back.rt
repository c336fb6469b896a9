// What the work changed, put back into the lent record: layout bytes, and no other byte.
ghost use Rattle.std.specs.Prelude.{◌≡◌, ◌+◌, length};
ghost use Rattle.record_fields.specs.Meaning.{relaid};
ghost use Rattle.record_arrays.specs.Sides.{RecordOver};
ghost use Rattle.work_linked_trees.specs.Memory.{layouts_from};

use crate::places::layout_at;
use record_fields::copying::bytes_in;
use tanglegram::Side;

// Writes both layouts into an accepted record over n leaves.
pub fn put_back(s: &mut [u8], n: u16, leftlay: &[u8], rightlay: &[u8])
    requires { RecordOver s.old n × (length leftlay.now + 1 ≡ n) × (length rightlay.now + 1 ≡ n) }
    ensures { s.new ≡ relaid s.old (layouts_from leftlay.now rightlay.now) }
{
    bytes_in(leftlay, s, layout_at(n, Side::Left));
    bytes_in(rightlay, s, layout_at(n, Side::Right));
}
