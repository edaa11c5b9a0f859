// GET_VWIRE goes round over the wires' bytes as they stand: one that waits and fits is written into the reply, and its marks go at once.
ghost use Rattle.std.specs.Prelude.{◌≡◌, ◌++◌, ◌+◌, ◌≤◌, ◌<◌, length};
ghost use Rattle.base.specs.Bytes.{put};
ghost use Rattle.wires.specs.Turn.{after};
ghost use Rattle.wires.specs.Table.{senders};
ghost use Rattle.wires.specs.Lines.{line_value, line_entry, map_in};
ghost use Rattle.wires.specs.Going.{Quiet, empty_byte, empty_word, left_for, passed, took, InRange, AtEdge, Stepped};

use crate::lines::{EDGES, LEVELS, WAITS, bit_at, put_bit, value_at};
use crate::{Going, pair};

// Stays: state, reply and g go together, in `InRange` too; with a struct of the two slices each step promises that it holds the same ones, which a parameter
// says itself.

// The sender behind one, going round.
fn after(sender: usize) -> usize
    requires { sender < 259 }
    ensures { (result ≡ after senders sender) × (result < 259) }
{
    if sender < 258 {
        return sender + 1;
    }
    0
}

// 64 lines begin at one, and none of them waits.
fn empty_word(b: &[u8], line: usize) -> bool
    requires { (174 ≤ length b.now) × (line < 256) }
    ensures { result ≡ empty_word b.now line }
{
    if line % 64 != 0 {
        return false;
    }
    base::get8(b, WAITS + line / 8) == 0
}

// Eight lines begin at one, and none of them waits.
fn empty_byte(b: &[u8], line: usize) -> bool
    requires { (174 ≤ length b.now) × (line < 256) }
    ensures { result ≡ empty_byte b.now line }
{
    (line % 8 == 0) & (b[WAITS + line / 8] == 0)
}

// How many lines from one on, which does not wait, are passed over at once.
fn quiet_run(b: &[u8], line: usize, left: usize) -> usize
    requires { (174 ≤ length b.now) × (line < 256) × (0 < left) × (line_value (map_in 110 b.now) line ≡ 0) }
    ensures { Quiet b.now line left result }
{
    if 64 <= left {
        if empty_word(b, line) {
            return 64;
        }
    }
    if 8 <= left {
        if empty_byte(b, line) {
            return 8;
        }
    }
    1
}

// Where no entry fits any more, no sender is to be asked.
pub(crate) fn left_for(room: usize, left: usize) -> usize
    ensures { result ≡ left_for room left }
{
    if room == 0 {
        return 0;
    }
    left
}

impl Going {
    fn passed(self, next: usize, k: usize) -> Going
        requires { k ≤ self.left }
        ensures { result ≡ passed self next k }
    {
        Going {
            sender: next,
            left: self.left - k,
            ..self
        }
    }

    // The sender is taken, with n entries.
    fn took(self, next: usize, n: usize) -> Going
        requires { (0 < self.left) × (n ≤ self.room) × (n ≤ 2) × (self.at ≤ 130) }
        ensures { result ≡ took self next n }
    {
        Going {
            sender: next,
            left: left_for(self.room - n, self.left - 1),
            room: self.room - n,
            at: self.at + n * 2,
            place: next,
        }
    }
}

// "level in data bit 7, line in bits 6:0"
fn put_level(reply: &mut [u8], at: usize, line: usize, level: u8)
    requires { (at + 2 ≤ length reply.old) × (at ≤ 130) × (line < 256) × (level ≤ 1) }
    ensures { reply.new ≡ put at (line_entry line level) reply.old }
{
    reply[at] = (line / 128) as u8;
    reply[at + 1] = level * 128 + (line % 128) as u8;
}

fn put_levels(reply: &mut [u8], at: usize, line: usize, first: u8, second: u8)
    requires { (at + 4 ≤ length reply.old) × (at ≤ 128) × (line < 256) × (first ≤ 1) × (second ≤ 1) }
    ensures { reply.new ≡ put at (line_entry line first ++ line_entry line second) reply.old }
{
    put_level(reply, at, line, first);
    put_level(reply, at + 2, line, second);
}

// A line whose edge waits: two entries, the new level first. Where they do not fit the packet closes: none of those left is asked.
fn edge_step(state: &mut [u8], reply: &mut [u8], g: Going) -> Going
    requires { AtEdge state.old reply.old g }
    ensures { Stepped state.old reply.old g state.new reply.new result }
{
    if g.room < 2 {
        return g.passed(g.sender + 1, g.left);
    }
    let held = value_at(state, LEVELS, g.sender);
    put_levels(reply, g.at, g.sender, 1 - held, held);
    put_bit(state, WAITS, g.sender, false);
    put_bit(state, EDGES, g.sender, false);
    g.took(g.sender + 1, 2)
}

// A line is asked first whether it waits: where many do, no run is looked for.
fn line_step(state: &mut [u8], reply: &mut [u8], g: Going) -> Going
    requires { InRange state.old reply.old g × (0 < g.left) × (g.sender < 256) }
    ensures { Stepped state.old reply.old g state.new reply.new result }
{
    let line = g.sender;
    if !bit_at(state, WAITS, line) {
        let k = quiet_run(state, line, g.left);
        return g.passed(line + k, k);
    }
    if bit_at(state, EDGES, line) {
        return edge_step(state, reply, g);
    }
    let level = value_at(state, LEVELS, line);
    put_level(reply, g.at, line, level);
    put_bit(state, WAITS, line, false);
    g.took(line + 1, 1)
}

// Groups 4 to 6 stand behind the lines.
fn group_step(state: &mut [u8], reply: &mut [u8], g: Going) -> Going
    requires { InRange state.old reply.old g × (0 < g.left) × (256 ≤ g.sender) }
    ensures { Stepped state.old reply.old g state.new reply.new result }
{
    let sender = g.sender;
    let at = g.at;
    let next = after(sender);
    if state[sender - 184] != 1 {
        return g.passed(next, 1);
    }
    let entry = pair((sender - 252) as u8, state[sender - 190]);
    reply[at] = entry[0];
    reply[at + 1] = entry[1];
    state[sender - 184] = 0;
    g.took(next, 1)
}

pub(crate) fn step(state: &mut [u8], reply: &mut [u8], g: Going) -> Going
    requires { InRange state.old reply.old g × (0 < g.left) }
    ensures { Stepped state.old reply.old g state.new reply.new result }
{
    if g.sender < 256 {
        return line_step(state, reply, g);
    }
    group_step(state, reply, g)
}
