// Leaf orders: the leaves under an object, upper before lower. The walk enters the part with fewer leaves first, so
// that the other call is a jump and at most ten are open at a time; and it goes over arrays of fixed length, since a
// reference to one is a single word. So it takes little of the stack, however deep the tree is.
ghost use Rattle.std.specs.Prelude.{◌≡◌, ◌+◌, ◌*◌, ◌≤◌, ◌<◌, ◌++◌, length, drop};
ghost use Rattle.std.proofs.lemmas.List.Edits.{sets};
ghost use Rattle.tanglegram.specs.Tree.{leaves};
ghost use Rattle.work_trees.specs.Rows.{count_of, GoodRows, LeafCounts, size, object_of, tree_of};

// How many leaves an object has, from the notes of the rows' counts: one, if it is a leaf.
pub fn leaves_under(many: &[u16; 512], n: usize, obj: usize) -> u16
    requires { (1 ≤ n) × (n ≤ 512) × (obj < 2 * n) }
    ensures { result ≡ count_of many.now n obj }
{
    if obj <= n { 1 } else { many[obj - n - 1] }
}

// Notes for each row how many leaves the object that it makes has: those of its two children.
pub fn count_leaves(rows: &[u16; 1023], many: &mut [u16; 512])
    requires { GoodRows rows.now × (length many.old ≡ 512) }
    ensures { LeafCounts rows.now many.new }
{
    let n = usize::from(rows[1022]);
    for i in 1..n {
        let a = leaves_under(many, n, usize::from(rows[2 * i - 2]));
        let b = leaves_under(many, n, usize::from(rows[2 * i - 1]));
        many[i - 1] = a + b;
    }
}

// Writes the leaves under object obj into out from place `at` on: the leaf itself, or those under its two children. A
// child that is a leaf is written in its place; of two others the one with fewer leaves is walked first.
fn walk(rows: &[u16; 1023], many: &[u16; 512], obj: u16, out: &mut [u16; 512], at: usize)
    requires good_rows { GoodRows rows.now × LeafCounts rows.now many.now }
    requires le_obj { (1 ≤ obj) × (obj < 2 * size rows.now) }
    requires obj_bound { at + length (leaves (object_of rows.now obj)) ≤ 512 }
    ensures { out.new ≡ sets out.old at (leaves (object_of rows.now obj)) }
{
    let n = rows[1022];
    if obj <= n {
        out[at] = obj;
        return;
    }
    let i = usize::from(obj - n - 1);
    let a = rows[2 * i];
    let b = rows[2 * i + 1];
    if a <= n {
        out[at] = a;
        walk(rows, many, b, out, at + 1);
        return;
    }
    let first = usize::from(leaves_under(many, usize::from(n), usize::from(a)));
    let mid = at + first;
    if b <= n {
        out[mid] = b;
        walk(rows, many, a, out, at);
        return;
    }
    let second = usize::from(leaves_under(many, usize::from(n), usize::from(b)));
    if first <= second {
        walk(rows, many, a, out, at);
        walk(rows, many, b, out, mid);
    } else {
        walk(rows, many, b, out, mid);
        walk(rows, many, a, out, at);
    }
}

// Writes the tree's leaves into out's first n places, and keeps the others as they are; `many` has the rows' counts.
pub fn leaf_order(rows: &[u16; 1023], many: &[u16; 512], out: &mut [u16; 512])
    requires good_rows { GoodRows rows.now × LeafCounts rows.now many.now }
    requires out_len { length out.old ≡ 512 }
    ensures { out.new
        ≡ leaves (tree_of rows.now) ++ drop (size rows.now) out.old }
{
    let n = rows[1022];
    walk(rows, many, 2 * n - 1, out, 0);
}
