// A script, one call a line: a word told by its first letter, then from column 9 on bytes in hex. Any other line is a title.
ghost use Rattle.std.specs.Prelude.{◌<◌, ◌≤◌};

use crate::calls::Board;
use crate::{narrow, print};
use std::io;

// Stays: a script's characters all have a value here, and the program does what it did; `to_digit` gives some of them none.
fn nibble(c: u8) -> u8
    ensures { result < 16 }
{
    match c {
        b'A'..=255 => (c - b'A') % 6 + 10,
        b'0'..=b'@' => (c - b'0') % 10,
        _ => 0,
    }
}

fn byte(high: u8, low: u8) -> u8 {
    16 * nibble(high) + nibble(low)
}

// The byte that stands in hex at column p; 0 behind the line's end.
fn field(line: &[u8], p: usize) -> u8 {
    match line.get(p..) {
        Some([high, low, ..]) => byte(*high, *low),
        Some([high]) => byte(*high, 0),
        _ => 0,
    }
}

// The number that it says, and that two bytes say there, the high one first.
fn number(line: &[u8], p: usize) -> u32 {
    u32::from(field(line, p))
}

fn number2(line: &[u8], p: usize) -> u32
    requires { p ≤ 1024 }
{
    base::from_high2(field(line, p), field(line, p + 3))
}

// The bytes from column p on, up to column 1,024, which are at most a third as many; the part of the room that they fill.
fn fields<'a>(line: &[u8], p: usize, room: &'a mut [u8; 342]) -> &'a [u8] {
    let end = line.len().min(1024);
    for (byte, column) in room.iter_mut().zip((p..end).step_by(3)) {
        *byte = field(line, column);
    }
    &room[..end.saturating_sub(p).div_ceil(3).min(342)]
}

fn exchange(rt: &impl Print, board: &mut Board, line: &[u8]) -> io::Result<()> {
    board.exchange(rt, fields(line, 9, &mut [0; 342]))
}

fn answer(rt: &impl Print, board: &mut Board, line: &[u8]) -> io::Result<()> {
    board.answer(
        rt,
        number(line, 9),
        number(line, 12),
        fields(line, 15, &mut [0; 342]),
    )
}

fn obey(rt: &impl Print, board: &mut Board, line: &[u8]) -> io::Result<()> {
    match line.first() {
        // the calls that move bytes
        Some(b'e') => exchange(rt, board, line),
        Some(b'g') => board.pieces(rt, number(line, 9)),
        Some(b'a') => answer(rt, board, line),
        Some(b'f') => board.answer_long(rt, number(line, 9), number2(line, 12) as usize),
        Some(b'n') => narrow::run(rt, board),
        // those on the state alone, and the take
        Some(b's') => board.start(rt),
        Some(b'r') => board.reset(rt),
        Some(b'p') => board.platform_reset(rt),
        Some(b'b') => {
            board.state = [0xFF; 174];
            Ok(())
        }
        Some(b'l') => board.look(rt),
        Some(b't') => board.take(rt),
        Some(b'w') => board.set_wire(rt, number(line, 9), number(line, 12), number(line, 15)),
        Some(b'v') => board.read_wire(rt, number(line, 9), number(line, 12)),
        // those on lines
        Some(b'h') => board.set_line(rt, number2(line, 9), number(line, 15)),
        Some(b'm') => board.set_lines(rt, number2(line, 9), number(line, 15)),
        Some(b'i') => board.pulse_line(rt, number2(line, 9)),
        _ => print::title(&mut board.line, rt, line),
    }
}

// What follows the last end of a line is not obeyed.
pub fn play(rt: &impl Print, board: &mut Board, script: &[u8]) -> io::Result<()> {
    for ended in script.split_inclusive(|&c| c == b'\n') {
        if let Some(line) = ended.strip_suffix(b"\n") {
            obey(rt, board, line)?;
        }
    }
    Ok(())
}
