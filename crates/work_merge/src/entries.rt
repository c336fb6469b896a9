// One entry of a merge table, a signed number: minus a is leaf a, plus j is the object that row j makes.
ghost use Rattle.std.specs.Prelude.{false, ◌≡◌, ◌+◌, ◌≤◌, ◌<◌};
ghost use Rattle.merge.specs.Entries.{entry_for, named_by, names_none};

// Whether an entry of row i is zero, or names no leaf, or no earlier row. Minus 2 to the 31 is not negated: what is
// negated is n.
pub fn names_none(entry: i32, n: u16, i: u16) -> bool
    ensures { result ≡ names_none n i entry }
{
    entry == 0 || entry < -i32::from(n) || i32::from(i) <= entry
}

// The object that an entry names, which is a leaf or the object of a row below 512. (Not one function with the test, and
// an Option: a loop over a table needs one of the two alone, and would unwrap what the test has shown.)
pub fn named_by(entry: i32, n: u16) -> u16
    requires { (n ≤ 512) × (names_none n 512 entry ≡ false) }
    ensures { result ≡ named_by n entry }
{
    if entry < 0 {
        entry.unsigned_abs() as u16
    } else {
        n + entry as u16
    }
}

// The entry that names an object: minus its number for a leaf, plus the row's number for a row's object.
pub fn entry_for(object: u16, n: u16) -> i32
    ensures { result ≡ entry_for n object }
{
    if object <= n {
        -i32::from(object)
    } else {
        i32::from(object - n)
    }
}
