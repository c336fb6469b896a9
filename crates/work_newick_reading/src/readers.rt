// The subtree reader and the group reader, which call each other; the text left falls. Few values are alive across a
// call: a text may have 511 groups open, and each takes two calls.
ghost use Rattle.std.specs.Prelude.{◌-◌, ◌≤◌, ◌<◌, ◌↔◌, IsTrue, drop};
ghost use Rattle.newick.specs.Reading.{leaf_in, group_by, subtree_in};
ghost use Rattle.work_newick_reading.specs.Text.{Place};
ghost use Rattle.work_newick_reading.specs.Notes.{Notes as GoodNotes, open_in};
ghost use Rattle.work_newick_reading.specs.Reads.{Reads};

use crate::digits::Text;
use crate::notes::Notes;

// the most groups that may be open at once
const MOST_OPEN: u16 = 511;

// Whether a leaf number may begin with a byte: a digit from 1 to 9.
fn begins_number(byte: u8) -> bool
    ensures { IsTrue result ↔ ((49 ≤ byte) × (byte ≤ 57)) }
{
    matches!(byte, b'1'..=b'9')
}

// A leaf number and its length at a place: the place after them, if they stand there.
fn leaf(text: &Text, at: usize, notes: &mut Notes) -> Option<usize>
    requires { Place text.now.bytes.now at × GoodNotes notes.old }
    ensures { Reads
        (leaf_in (drop at text.now.bytes.now))
        text.now.bytes.now
        at
        notes.old
        notes.new
        result }
{
    let first = text.byte_at(at)?;
    if !begins_number(first) {
        return None;
    }
    let number = text.digits_from(at);
    notes.note_leaf(number.leaf);
    text.length_end(number.end)
}

// A subtree at a place, a leaf or a group: the place after it, if one stands there.
#[cycle(group_subtree)]
pub fn subtree(text: &Text, at: usize, notes: &mut Notes) -> Option<usize>
    requires { Place text.now.bytes.now at × GoodNotes notes.old }
    ensures { Reads
        (subtree_in (511 - open_in notes.old) (drop at text.now.bytes.now))
        text.now.bytes.now
        at
        notes.old
        notes.new
        result }
{
    let Some(inside) = text.behind(b'(', at) else {
        return leaf(text, at, notes);
    };
    if notes.open_groups() == MOST_OPEN {
        return None;
    }
    group(text, inside, notes)
}

// A group whose parenthesis was read: the place after it and its length, if one goes on there.
#[cycle(group_subtree)]
fn group(text: &Text, at: usize, notes: &mut Notes) -> Option<usize>
    requires { Place text.now.bytes.now at × GoodNotes notes.old × (open_in notes.old < 511) }
    ensures { Reads
        (group_by (subtree_in (510 - open_in notes.old)) (drop at text.now.bytes.now))
        text.now.bytes.now
        at
        notes.old
        notes.new
        result }
{
    notes.open_one();
    let comma = subtree(text, at, notes)?;
    let second = text.behind(b',', comma)?;
    let first = notes.last_object();
    let end = subtree(text, second, notes)?;
    let after = text.behind(b')', end)?;
    notes.close_one(first);
    text.length_end(after)
}
