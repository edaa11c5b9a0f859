// The C boundary: the eleven calls over lent bytes, and nothing else.
// Stays: what a call gives is a word, as the C interface has it; within, what refuses it is a Refusal. With `?` each call would be two functions, one that
// gives a Result and one that makes a word of it.
#![tactic(auto)]

ghost use Rattle.std.specs.Prelude.{◌≡◌, ◌≤◌, length};
ghost use Rattle.rules.specs.Rules.Numbers.{number_of};
ghost use Rattle.rules.specs.Rules.Fits.{KeptFits};
ghost use Rattle.rules.specs.Rules.Step.{reply_length, write_length, read_length};
ghost use Rattle.rules.specs.Rules.Calls.{done, exchanged, stored, looked, start_call, espi_reset_call, platform_reset_call, exchange_call, look_call, answer_call, take_write_call, set_wire_call, read_wire_call, set_line_call, pulse_line_call};
ghost use Rattle.reply.specs.Packets.{packet_put};
ghost use Rattle.espi.specs.Boundary.{guarded, SaysFits, spoken_by, committed};

use engine::{Outgoing, Speech};
use peripheral::{Np, Peripheral};
use rules::Refusal;
use state::{Core, pack};
use wires::Wires;

// The least lengths of the lent slices.
const STATE: usize = 174;

const REPLY: usize = 263;

const WRITE_STORE: usize = 256;

const READ_STORE: usize = 4096;

const LOOK_REPORT: usize = 19;

const TAKE_REPORT: usize = 10;

// A refusal as its caller gets it: its number, as a word.
fn number(x: Refusal) -> u32
    ensures { result ≡ number_of x }
{
    u32::from(u8::from(x))
}

// What every call but a start looks at first: whether the state or another lent slice is too short, then whether the state is sound.
// Inlined at each call, so that the calls share `state::holds`, which `make bench` counts: it is handed one word. Out of line this test is handed the length
// and `short` too, for which each call on Cortex-M4 took 8 bytes more of stack.
#[inline(always)]
fn guard(state: &[u8], short: bool) -> Result<(), Refusal>
    ensures { result ≡ guarded state.now short }
{
    if (state.len() < STATE) | short {
        return Err(Refusal::StoreTooShort);
    }
    if !state::holds(state) {
        return Err(Refusal::StateNotSound);
    }
    Ok(())
}

pub fn espi_start(state: &mut [u8]) -> u32
    ensures { done result state.new ≡ start_call state.old }
{
    if state.len() < STATE {
        return number(Refusal::StoreTooShort);
    }
    pack(Core::fresh(), state);
    0
}

pub fn espi_reset(state: &mut [u8]) -> u32
    ensures { done result state.new ≡ espi_reset_call state.old }
{
    if let Err(refusal) = guard(state, false) {
        return number(refusal);
    }
    engine::espi_reset(state);
    0
}

pub fn espi_platform_reset(state: &mut [u8]) -> u32
    ensures { done result state.new ≡ platform_reset_call state.old }
{
    if let Err(refusal) = guard(state, false) {
        return number(refusal);
    }
    engine::platform_reset(state);
    0
}

// The reply, or a packet with what it changes of the wires; its length.
fn say(speech: Speech, state: &mut [u8], reply: &mut [u8], read_store: &[u8]) -> u32
    requires { (reply_length ≤ length reply.old) × (read_length ≤ length read_store.now) × SaysFits speech state.old }
    ensures { (packet_put result state.new reply.new ≡ spoken_by speech state.old reply.old read_store.now)
        × (result ≤ reply_length) }
{
    match speech {
        Speech::Reply(r) => reply::put_reply(reply, r, read_store),
        Speech::Packet => reply::put_packet(reply, state),
    }
}

// What goes out of an exchange: what it says, and its data on the lent bytes.
fn commit(
    p: Outgoing,
    state: &mut [u8],
    command: &[u8],
    reply: &mut [u8],
    write_store: &mut [u8],
    read_store: &[u8],
) -> u32
    requires { (reply_length ≤ length reply.old) × (write_length ≤ length write_store.old) × (read_length ≤ length read_store.now)
        × SaysFits p.speech state.old × KeptFits p.kept (length command.now) write_length }
    ensures { exchanged result state.new reply.new write_store.new
        ≡ committed p state.old command.now reply.old write_store.old read_store.now }
{
    let n = say(p.speech, state, reply, read_store);
    reply::keep(write_store, p.kept, command);
    u32::from(p.number) + 256 * n
}

pub fn espi_exchange(
    state: &mut [u8],
    command: &[u8],
    reply: &mut [u8],
    write_store: &mut [u8],
    read_store: &[u8],
) -> u32
    ensures { exchanged result state.new reply.new write_store.new
        ≡ exchange_call state.old command.now reply.old write_store.old read_store.now }
{
    let short = (reply.len() < REPLY)
        | (write_store.len() < WRITE_STORE)
        | (read_store.len() < READ_STORE);
    if let Err(refusal) = guard(state, short) {
        return number(refusal);
    }
    let p = engine::exchange(command, state);
    commit(p, state, command, reply, write_store, read_store)
}

pub fn espi_look(state: &[u8], report: &mut [u8]) -> u32
    ensures { looked result report.new ≡ look_call state.now report.old }
{
    if let Err(refusal) = guard(state, report.len() < LOOK_REPORT) {
        return number(refusal);
    }
    let p = Peripheral::unpack(state);
    let Np::Waiting(q) = p.request else {
        return number(Refusal::NothingThere);
    };
    reply::put_request(report, q, p.serial);
    0
}

pub fn espi_answer(
    state: &mut [u8],
    read_store: &mut [u8],
    serial: u32,
    success: u32,
    bytes: &[u8],
) -> u32
    ensures { stored result state.new read_store.new
        ≡ answer_call state.old read_store.old serial success bytes.now }
{
    if let Err(refusal) = guard(state, read_store.len() < READ_STORE) {
        return number(refusal);
    }
    let p = engine::answer(serial, success, bytes, state);
    reply::keep(read_store, p.kept, bytes);
    u32::from(p.number)
}

pub fn espi_take_write(state: &mut [u8], write_store: &[u8], report: &mut [u8]) -> u32
    ensures { stored result state.new report.new ≡ take_write_call state.old write_store.now report.old }
{
    let short = (write_store.len() < WRITE_STORE) | (report.len() < TAKE_REPORT);
    if let Err(refusal) = guard(state, short) {
        return number(refusal);
    }
    let h = Peripheral::unpack(state);
    let w = h.write;
    let p = engine::take_write(state);
    reply::put_write(report, w);
    u32::from(p.number)
}

pub fn espi_set_wire(state: &mut [u8], index: u32, bit: u32, value: u32) -> u32
    ensures { done result state.new ≡ set_wire_call state.old index bit value }
{
    if let Err(refusal) = guard(state, false) {
        return number(refusal);
    }
    let p = engine::set_wire(index, bit, value, state);
    u32::from(p.number)
}

pub fn espi_read_wire(state: &[u8], index: u32, bit: u32) -> u32
    ensures { result ≡ read_wire_call state.now index bit }
{
    if let Err(refusal) = guard(state, false) {
        return number(refusal);
    }
    if !wires::defined_bit(index, bit) {
        return number(Refusal::NoSuchWire);
    }
    let w = Wires::unpack(state);
    256 * w.read(index, bit)
}

pub fn espi_set_line(state: &mut [u8], line: u32, level: u32) -> u32
    ensures { done result state.new ≡ set_line_call state.old line level }
{
    if let Err(refusal) = guard(state, false) {
        return number(refusal);
    }
    let p = engine::set_line(line, level, state);
    u32::from(p.number)
}

pub fn espi_pulse_line(state: &mut [u8], line: u32) -> u32
    ensures { done result state.new ≡ pulse_line_call state.old line }
{
    if let Err(refusal) = guard(state, false) {
        return number(refusal);
    }
    let p = engine::pulse_line(line, state);
    u32::from(p.number)
}
