// The calls, as they stand in the list of docs/DESK.md: their names, and how many words a line of each has.
ghost use Rattle.std.specs.Prelude.{◌≡◌};
ghost use Rattle.desk.specs.Calls.{call_named, words_of, lent_by};

use desk_words::words::place;

#[derive(Clone, Copy, Debug, PartialEq, Eq)]
pub enum Call {
    Check,
    Order,
    Count,
    Pairs,
    SquaredEntanglement,
    Thousandths,
    Free,
    Run,
    Hands,
    Better,
    BetterCheck,
    Hold,
    Pack,
    Unpack,
    NewickRead,
    NewickWrite,
    MergeRead,
    MergeWrite,
    Pin,
    TakeIn,
}

// The calls in the order of their names.
const CALLS: [Call; 20] = [
    Call::Check,
    Call::Order,
    Call::Count,
    Call::Pairs,
    Call::SquaredEntanglement,
    Call::Thousandths,
    Call::Free,
    Call::Run,
    Call::Hands,
    Call::Better,
    Call::BetterCheck,
    Call::Hold,
    Call::Pack,
    Call::Unpack,
    Call::NewickRead,
    Call::NewickWrite,
    Call::MergeRead,
    Call::MergeWrite,
    Call::Pin,
    Call::TakeIn,
];

// The call of a name, if it is one of the names.
pub fn named(name: &[u8]) -> Option<Call>
    ensures { result ≡ call_named name.now }
{
    let names =
        b"check order count pairs squared_entanglement thousandths free run hands better better_check hold pack unpack \
          newick_read newick_write merge_read merge_write pin take_in";
    let k = place(names, name)?;
    Some(CALLS[k])
}

// How many words a line of a call has, its name among them.
#[tactic(auto, unfolding(crate::specs::Calls::words_of))]
pub fn words(call: Call) -> usize
    ensures { result ≡ words_of call }
{
    match call {
        Call::Check => 2,
        Call::Order => 4,
        Call::Count => 2,
        Call::Pairs => 2,
        Call::SquaredEntanglement => 2,
        Call::Thousandths => 2,
        Call::Free => 3,
        Call::Run => 3,
        Call::Hands => 3,
        Call::Better => 5,
        Call::BetterCheck => 5,
        Call::Hold => 3,
        Call::Pack => 9,
        Call::Unpack => 7,
        Call::NewickRead => 3,
        Call::NewickWrite => 4,
        Call::MergeRead => 4,
        Call::MergeWrite => 4,
        Call::Pin => 5,
        Call::TakeIn => 5,
    }
}

// Which word of a line says the bytes that the call is lent: RECORD, TEXT, or pack's OUT; none for merge_read, which is
// lent none.
#[tactic(auto, unfolding(crate::specs::Calls::lent_by))]
pub fn lent(call: Call) -> Option<usize>
    ensures { result ≡ lent_by call }
{
    match call {
        Call::Pack => Some(8),
        Call::MergeRead => None,
        _ => Some(1),
    }
}
