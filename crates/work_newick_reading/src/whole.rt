// A whole text: a subtree, a semicolon, and nothing or one line feed.
ghost use Rattle.std.specs.Prelude.{◌≡◌, length, drop, replicate, ◌≤◌};
ghost use Rattle.newick.specs.Reading.{is_end, text_read};
ghost use Rattle.work_newick_reading.specs.Reads.{ReadsWhole};

use crate::digits::Text;
use crate::notes::Notes;
use crate::readers::subtree;

// Whether nothing, or one line feed, stands from a place on.
fn is_end(bytes: &[u8], at: usize) -> bool
    requires { at ≤ length bytes.now }
    ensures { result ≡ is_end (drop at bytes.now) }
{
    match &bytes[at..] {
        [] => true,
        [byte] => *byte == b'\n',
        _ => false,
    }
}

// Whether a text keeps the grammar. If it does, what it says is noted, where nothing was noted before.
pub fn read_text(bytes: &[u8], notes: &mut Notes) -> bool
    requires { notes.old ≡ replicate 1025 0 }
    ensures { ReadsWhole (text_read bytes.now) notes.old notes.new result }
{
    let text = Text { bytes };
    let Some(end) = subtree(&text, 0, notes) else {
        return false;
    };
    let Some(after) = text.behind(b';', end) else {
        return false;
    };
    is_end(bytes, after)
}
