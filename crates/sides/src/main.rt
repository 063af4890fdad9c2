//! Prints what the board text in `board.txt` holds, or its first fault.
#![tactic(auto)]

ghost use Rattle.std.specs.Prelude.{◌≡◌, take, IfOk, IfSome};

use anyhow::anyhow;
use std::fs::File;
use std::io;
use std::io::Read;
use survey::summary::summarize;
use text::reader::LIMIT;

/// One byte more than a text may have, so that a longer one is told.
const ROOM: usize = LIMIT + 1;

/// As much of what is read as there is room for; each read brings a byte, or the reader is at its end.
// no `io::copy` into a vector: it repeats an interrupted read without end, and the vector is copied as it is answered
fn fill<R: Read + Drop>(mut reader: R, room: &mut [u8; ROOM]) -> io::Result<&[u8]>
    ensures { IfOk result (λ bytes. IfSome (R.remaining reader) (λ xs. bytes.now ≡ take 60001 xs)) }
{
    let mut len = 0;
    for _ in 0..room.len() {
        let n = reader.read(&mut room[len..])?;
        if n == 0 {
            break;
        }
        len += n;
    }
    Ok(&room[..len])
}

fn main(rt: HostRuntime) -> anyhow::Result<()> {
    let mut room = [0; ROOM];
    // a file that cannot be read counts as empty
    let text = File::open(&rt, "board.txt")
        .and_then(|file| fill(file, &mut room))
        .unwrap_or_default();
    match summarize(text) {
        Ok(summary) => {
            println!(rt; "{summary}")?;
            Ok(())
        }
        Err(fault) => {
            println!(rt; "{fault}")?;
            Err(anyhow!("the board text is refused"))
        }
    }
}
