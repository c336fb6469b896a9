// The words of a line, separated by one space each.
ghost use Rattle.std.specs.Prelude.{◌≡◌, length};
ghost use Rattle.desk_words.specs.Words.{Cut, stop_in, pieces, word_in, dash, placed};

// The place of the first `stop`, if there is one.
fn find(s: &[u8], stop: u8) -> Option<usize>
    ensures { result ≡ stop_in stop s.now }
{
    s.iter().position(|byte| *byte == stop)
}

// What stands before the first `stop`, and what stands behind it, if there is one.
pub fn cut(s: &[u8], stop: u8) -> (&[u8], Option<&[u8]>)
    ensures { Cut stop s.now result.0.now result.1 }
{
    match find(s, stop) {
        Some(to) => (&s[..to], Some(&s[to + 1..])),
        None => (s, None),
    }
}

// Word k of a line, counted from 0; empty where the line has fewer.
pub fn word(line: &[u8], k: usize) -> &[u8]
    ensures { result.now ≡ word_in line.now k }
{
    match line.split(|byte| *byte == b' ').nth(k) {
        Some(word) => word,
        None => &[],
    }
}

// How many words a line has.
pub fn count(line: &[u8]) -> usize
    ensures { result ≡ length (pieces 32 line.now) }
{
    line.split(|byte| *byte == b' ').count()
}

// Whether a word is one dash.
pub fn is_dash(word: &[u8]) -> bool
    ensures { result ≡ dash word.now }
{
    word == b"-".as_slice()
}

// Which of a line's words a name is, counted from 0; none where it is none of them.
pub fn place(line: &[u8], name: &[u8]) -> Option<usize>
    ensures { result ≡ placed name.now (pieces 32 line.now) }
{
    line.split(|byte| *byte == b' ')
        .position(|word| word == name)
}
