// One side of two linked trees in memory.
ghost use Rattle.std.specs.Prelude.{◌≡◌, ◌+◌, length};
ghost use Rattle.work_trees.specs.Rows.{GoodRows, LeafCounts, size};
ghost use Rattle.work_trees.specs.Once.{once};

use work_trees::{count_leaves, leaf_order};

// Its rows with the layout applied, its layout, a byte for each row, its rows' leaf counts, and an array for its order.
// The counts are only read: one array of them may serve several sides.
#[derive(Drop)]
pub struct OneSide<'a> {
    pub rows: &'a mut [u16; 1023],
    pub lay: &'a mut [u8],
    pub many: &'a [u16; 512],
    pub order: &'a mut [u16; 512],
    pub ghost good: { GoodRows rows.now } by { Prim.hlevel once },
    pub ghost long: { length lay.now + 1 ≡ size rows.now },
    pub ghost counts: { LeafCounts rows.now many.now },
    pub ghost room: { length order.now ≡ 512 },
}

impl<'a> OneSide<'a> {
    ghost use Rattle.work_freeing.specs.Rows.{InOrder};
    ghost use Rattle.work_linked_trees.specs.Sides.{Stands};

    // The side in these arrays: its rows and its layout, and room for its leaf counts and its order.
    pub fn counted(
        rows: &'a mut [u16; 1023],
        lay: &'a mut [u8],
        many: &'a mut [u16; 512],
        order: &'a mut [u16; 512],
    ) -> OneSide<'a>
        requires good_rows { GoodRows rows.old × (length lay.old + 1 ≡ size rows.old) }
        ensures same_rows { result.rows.ghost_name ≡ rows.entry.ghost_name }
        ensures same_lay { result.lay.ghost_name ≡ lay.entry.ghost_name }
        ensures same_order { result.order.ghost_name ≡ order.entry.ghost_name }
        ensures value { (result.rows.now ≡ rows.old) × (result.lay.now ≡ lay.old) }
    {
        count_leaves(rows, many);
        OneSide {
            rows,
            lay,
            many,
            order,
        }
    }

    // Writes its order.
    pub fn walk(&mut self)
        ensures in_order { InOrder self.old.rows.now self.new.order.now }
        ensures stands { Stands self.old self.new }
    {
        leaf_order(self.rows, self.many, self.order);
    }
}
