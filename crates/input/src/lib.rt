// Standard input, for the programs.
#![tactic(auto)]

ghost use Rattle.std.specs.Prelude.{IfErr, IfOk};
ghost use Rattle.io.specs.Counts.{IsPrefixLen};

use std::io::Read;

// A read failed; how many bytes came before it.
#[derive(Clone, Copy, Debug, PartialEq, Eq)]
pub struct CutShort {
    pub bytes: usize,
}

// Reads the input into buf's first places until it ends, until buf is full, or until a read fails, and answers how many
// bytes came. Input that goes on when buf is full is not read further.
pub fn read_whole(reader: &mut impl Read, buf: &mut [u8]) -> Result<usize, CutShort>
    ensures whole { IfOk result (λ n. IsPrefixLen n buf.new) }
    ensures cut_short { IfErr result (λ e. IsPrefixLen e.bytes buf.new) }
{
    let mut done = 0;
    while done < buf.len() {
        match reader.read(&mut buf[done..]) {
            Ok(0) => break,
            Ok(more) => done += more,
            Err(_) => return Err(CutShort { bytes: done }),
        }
    }
    Ok(done)
}
