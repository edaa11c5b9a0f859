// Plays the script on standard input through the eleven calls: a line for each call, with its number, command and reply.
#![tactic(auto)]

ghost use Rattle.std.specs.Prelude.{◌≤◌, length, IfOk};

mod calls;
mod narrow;
mod print;
mod script;

use calls::Board;
use print::Line;
use std::io::{self, Read};

// The longest script; no more is read.
const LONGEST: usize = 65536;

// Reads until the input ends or there is no more room; how many bytes.
// Stays, here and in `capture`: `read_to_end` asks for a heap, which may run out, and is not proved to read no more than this.
fn read_full(rt: &impl Input, into: &mut [u8]) -> io::Result<usize>
    ensures { IfOk result (λ n. n ≤ length into.old) }
{
    let mut reader = rt.reader();
    let mut n = 0;
    while n < into.len() {
        let more = reader.read(&mut into[n..])?;
        if more == 0 {
            return Ok(n);
        }
        n += more;
    }
    Ok(n)
}

fn main(rt: HostRuntime) -> io::Result<()> {
    let mut text = [0; LONGEST];
    let n = read_full(&rt, &mut text)?;
    let mut board = Board {
        state: [0; 174],
        write_store: [0; 256],
        read_store: [0; 4096],
        line: Line {
            bytes: [0; 1024],
            size: 0,
        },
    };
    script::play(&rt, &mut board, &text[..n])
}
