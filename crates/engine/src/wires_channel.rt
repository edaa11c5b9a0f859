// Channel 1: its commands and the board's setting of a wire, over the configuration and the channel's own part.
ghost use Rattle.std.specs.Prelude.{◌≡◌, true, ◌+◌, ◌*◌, ◌≤◌, eqb, length, take, drop};
ghost use Rattle.registers.specs.Registers.{on1};
ghost use Rattle.wires.specs.Groups.{sound_wires, read_wire};
ghost use Rattle.wires.specs.Senders.{with_groups, all_enabled, all_disabled};
ghost use Rattle.wires.specs.Layout.{all_in};
ghost use Rattle.state.specs.Layout.{state_length};
ghost use Rattle.rules.specs.Rules.Channel.{wires};
ghost use Rattle.rules.specs.Rules.Numbers.{number_in};
ghost use Rattle.rules.specs.Rules.Out as O;
ghost use Rattle.rules.specs.Rules.Wires as W;
ghost use Rattle.engine.specs.Carried.{Loadable, groups_change, Puts, Sets, settled_to, settled_by, put_part, stored_by, edge_stored};

use crate::out;
use registers::Config;
use rules::{Body, GroupsChange, Kept, Refusal};
use wires::Wires;

fn fatally(w: Wires) -> GroupsChange
    ensures { result ≡ groups_change w O.fatal }
{
    GroupsChange {
        next: w,
        out: out::fatal(),
    }
}

// The pairs stand from the command's third byte on.
pub(crate) fn put_vwire(c: Config, w: Wires, n: u32, b: &[u8]) -> GroupsChange
    requires { (sound_wires (on1 c.r020) w ≡ true) × (2 + n * 2 ≤ length b.now) }
    ensures { Puts c w n (take (n * 2) (drop 2 b.now)) result }
{
    let r = c.r020;
    if r.operating_count() < n {
        return fatally(w);
    }
    let Ok(next) = w.put(&b[2..2 + 2 * n as usize]) else {
        return fatally(w);
    };
    GroupsChange {
        next,
        out: out::accept(Body::Nothing, None),
    }
}

// PLTRST#, bit 1 of group 3, is high.
pub(crate) fn pltrst(w: Wires) -> bool
    ensures { result ≡ eqb (read_wire w 3 1) 1 }
{
    w.read(3, 1) == 1
}

// The board sets one wire.
pub(crate) fn setting(c: Config, w: Wires, index: u32, bit: u32, value: u32) -> GroupsChange
    ensures { Sets c w index bit value result }
{
    if !wires::settable(index, bit, value) {
        return GroupsChange {
            next: w,
            out: out::number(Refusal::NoSuchWire),
        };
    }
    GroupsChange {
        next: w.set(c.r020.on(), index, bit, value),
        out: out::keep(None),
    }
}

// ---- the board's lines

// The board raises or lowers a line.
pub(crate) fn set_line(c: Config, line: u32, level: u32, state: &mut [u8]) -> Result<(), Refusal>
    requires { Loadable state.old }
    ensures { settled_to (number_in result) state.new ≡ settled_by (W.setting_line c (all_in state.old) line level) state.old }
{
    if !((line < 256) & (level <= 1)) {
        return Err(Refusal::NoSuchWire);
    }
    if wires::lines::edge_waits(state, line) {
        return Err(Refusal::LineBusy);
    }
    wires::lines::set_line(state, c.r020.on(), line, level);
    Ok(())
}

// The board asks for an edge.
pub(crate) fn pulse_line(c: Config, line: u32, state: &mut [u8]) -> Result<(), Refusal>
    requires { Loadable state.old }
    ensures { settled_to (number_in result) state.new ≡ settled_by (W.pulsing_line c (all_in state.old) line) state.old }
{
    if 256 <= line {
        return Err(Refusal::NoSuchWire);
    }
    let r = c.r020;
    let waits = wires::lines::line_waits(state, line);
    if !(r.on() & ((1 < r.operating_count()) & !waits)) {
        return Err(Refusal::LineBusy);
    }
    wires::lines::pulse_line(state, line);
    Ok(())
}

// ---- their bytes

// The groups of a change with this number; a refused one's stand there already, and so do the lines.
// Stays: channel 0's is as short; one for both would be a trait that tells the channel and its whole part, with a law for each, in the place of three lines.
pub(crate) fn store(number: u8, w: Wires, state: &mut [u8])
    requires { state_length ≤ length state.old }
    ensures { state.new ≡ stored_by wires number (with_groups (all_in state.old) w) state.old }
{
    if number != 0 {
        return;
    }
    w.pack(state);
}

// Stays: of four lines this and `enable` differ in two; one function for both would be told by a flag which of them to call. Of channel 0's two edges only one
// has something to do, here both have.
fn disable(state: &mut [u8])
    requires { state_length ≤ length state.old }
    ensures { state.new ≡ put_part wires (all_disabled (all_in state.old)) state.old }
{
    let w = Wires::unpack(state);
    let q = w.disabled();
    q.pack(state);
    wires::lines::drop_lines(state);
}

fn enable(state: &mut [u8])
    requires { state_length ≤ length state.old }
    ensures { state.new ≡ put_part wires (all_enabled (all_in state.old)) state.old }
{
    let w = Wires::unpack(state);
    let q = w.enabled();
    q.pack(state);
    wires::lines::raise_lines(state);
}

pub(crate) fn store_edge(was: bool, is: bool, state: &mut [u8])
    requires { state_length ≤ length state.old }
    ensures { state.new ≡ edge_stored wires was is (all_in state.old) state.old }
{
    if was & !is {
        disable(state);
        return;
    }
    if !was & is {
        enable(state);
    }
}

// An edge that waits stands against this configuration.
pub(crate) fn hinders(next: Config, state: &[u8]) -> bool
    requires { state_length ≤ length state.now }
    ensures { result ≡ W.edge_hinders next (all_in state.now) }
{
    let r = next.r020;
    if !r.on() {
        return false;
    }
    if r.operating_count() != 1 {
        return false;
    }
    wires::lines::any_edge(state)
}
