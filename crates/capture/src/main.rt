// Plays the capture on standard input and writes a line for each entry (02, Q-2). What is said stands in `playback`; here it is read, looped and written.
#![tactic(auto)]

ghost use Rattle.std.specs.Prelude.{◌≡◌, ◌+◌, ◌≤◌, leb, length, IfOk};
ghost use Rattle.base.specs.Pick.{pick};
ghost use Rattle.playback.specs.Lines.{line_length};

use std::io::{self, Read, Write};

// Lines are written in blocks of so many bytes; the longest line.
const BLOCK: usize = 65536;

const LINE: usize = 537;

// Reads until the input ends or there is no more room; how many bytes.
// Stays, here and in `bench`: `read_to_end` asks for a heap, which may run out, and is not proved to read no more than this.
fn read_full(rt: &impl Input, into: &mut [u8]) -> io::Result<usize>
    ensures { IfOk result (λ n. n ≤ length into.old) }
{
    let mut reader = rt.reader();
    let mut n = 0;
    while n < into.len() {
        let more = reader.read(&mut into[n..])?;
        if more == 0 {
            return Ok(n);
        }
        n += more;
    }
    Ok(n)
}

// Where the next line goes in the block: behind the last one, or at its start, all before it written, if it might not fit.
// Stays: a `BufWriter` writes again what it could not write, and a vector of fixed capacity is not proved to have the room.
fn room(block: &[u8], at: usize) -> usize
    requires { (at ≤ 65536) × (length block.now ≡ 65536) }
    ensures { (result ≡ pick (leb at 64999) at 0) × (result + line_length ≤ 65536) }
{
    if at <= BLOCK - LINE {
        return at;
    }
    0
}

fn play(rt: &impl Print, file: &[u8]) -> io::Result<()> {
    let mut state = [0; 174];
    let mut reply = [0; 263];
    let mut write_store = [0; 256];
    let mut read_store = [0; 4096];
    let mut block = [0; 65536];
    let begun = playback::begin(file, &mut state, &mut block);
    let mut place = begun.next;
    let mut at = begun.size;
    // Stays: no index is counted here; `play` hands on the next place, with how many entries are left.
    while 0 < place.left {
        let next = room(&block, at);
        if next < at {
            io::writer(rt).write_all(&block[..at])?;
        }
        at = next;
        let said = playback::play(
            file,
            place,
            &mut state,
            &mut reply,
            &mut write_store,
            &mut read_store,
            &mut block[at..],
        );
        place = said.next;
        at += said.size;
    }
    io::writer(rt).write_all(&block[..at])
}

// One byte more than a file may have, so that a longer one is seen.
fn main(rt: HostRuntime) -> io::Result<()> {
    let mut file = [0; 65537];
    let n = read_full(&rt, &mut file)?;
    play(&rt, &file[..n])
}
