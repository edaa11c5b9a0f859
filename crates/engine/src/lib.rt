// Every command and board call on the bytes of a sound state: a channel reads its own part where it stands and stores what it touches.
#![tactic(auto)]

mod configuration;
mod out;
mod peripheral_channel;
mod wires_channel;

ghost use Rattle.std.specs.Prelude.{◌≡◌, None, ◌+◌, ◌*◌, ◌≤◌, length, take, drop, true};
ghost use Rattle.command.specs.Facts.{CommandFits, PeripheralFits, WiresFits};
ghost use Rattle.state.specs.Layout.{state_length, unpacked};
ghost use Rattle.rules.specs.Rules.Reset.{espi_reset, platform_reset};
ghost use Rattle.rules.specs.Rules.Peripheral.{succeeded, answer_to, taken};
ghost use Rattle.rules.specs.Rules.Fits.{plain_say};
ghost use Rattle.rules.specs.Rules.Wires.{Act, setting, setting_line, pulsing_line};
ghost use Rattle.rules.specs.Rules.Channel.{peripheral, wires, act_of};
ghost use Rattle.rules.specs.Rules.Lift.{with_status, lift};
ghost use Rattle.rules.specs.Rules.Exchange.{was_reset, acted, decide, exchange};
ghost use Rattle.rules.specs.Rules.Calls.{kept};
ghost use Rattle.rules.specs.Rules.Numbers.{number_of, number_in};
ghost use Rattle.rules.specs.declared.Body.TheVariants.{Nothing};
ghost use Rattle.engine.specs.Carried.{Loadable, Stays, carried, carried_by, beside, Resets, says_out, says_only, showing, failing, quiet, refused_by};

use command::{Command, PeripheralCommand, WiresCommand};
use peripheral::Peripheral;
use registers::{Config, Reg010};
use rules::{Body, GroupsChange, Kept, Out, PeripheralChange, Refusal, Reply, Response, Say};
use state::Core;
use wires::Wires;

// What a call says: a reply or none; or a packet of wires. A packet is made where it is written, from the place and with the capacity that the state's bytes
// have, and the wires among them change then.
#[derive(Clone, Copy)]
pub enum Speech {
    Reply(Option<Reply>),
    Packet,
}

// A plan without its next state, which stands in the state's bytes.
#[derive(Clone, Copy)]
pub struct Outgoing {
    pub number: u8,
    pub speech: Speech,
    pub kept: Option<Kept>,
}

// ---- a channel's change put back into the whole

// Only a reply has a status.
fn reply_with(say: Option<Say>, word: u32) -> Option<Reply>
    ensures { result ≡ with_status say word }
{
    let y = say?;
    Some(Reply {
        response: y.response,
        body: y.body,
        status: word,
    })
}

fn spoken(out: Out, word: u32) -> Outgoing
    ensures { result ≡ says_out out word }
{
    Outgoing {
        number: out.number,
        speech: Speech::Reply(reply_with(out.say, word)),
        kept: out.kept,
    }
}

// A call of the board says nothing, so no status is looked at.
fn lift_peripheral(x: PeripheralChange, state: &mut [u8]) -> Outgoing
    requires { Loadable state.old × Stays (unpacked state.old) (lift peripheral (unpacked state.old) x) × (x.out.say ≡ None) }
    ensures { carried result state.new ≡ carried_by (lift peripheral (unpacked state.old) x) state.old }
{
    let out = x.out;
    peripheral_channel::store(out.number, x.next, state);
    Outgoing {
        kept: out.kept,
        ..silently(out.number)
    }
}

// The lines stay where they stand.
fn lift_wires(x: GroupsChange, state: &mut [u8]) -> Outgoing
    requires { Loadable state.old
        × Stays (unpacked state.old) (lift wires (unpacked state.old) (beside (unpacked state.old).wires.lines x))
        × (plain_say x.out.say ≡ true) }
    ensures { carried result state.new
        ≡ carried_by (lift wires (unpacked state.old) (beside (unpacked state.old).wires.lines x)) state.old }
{
    let out = x.out;
    let others = Peripheral::status_in(state);
    wires_channel::store(out.number, x.next, state);
    spoken(out, others + Wires::status_in(state))
}

// ---- a channel's command, decided by the channel and put back
// Stays, here and in configuration.rt: `Loadable` and `c ≡ (unpacked state).config` stand in each. The public functions are lent a slice (docs/CONTRACTS.md),
// and a struct of c and the bytes has no invariant to keep, since a write of a register or a reset parts them within the function that it would be lent to.

// Channel 0 stores the queue that it touches itself; the status is then that of the bytes.
fn act_peripheral(c: Config, o: PeripheralCommand, b: &[u8], state: &mut [u8]) -> Outgoing
    requires { Loadable state.old × (c ≡ (unpacked state.old).config) × PeripheralFits o b.now }
    ensures { carried result state.new
        ≡ carried_by
        (acted peripheral (unpacked state.old) (act_of peripheral (unpacked state.old).config o b.now)) state.old }
{
    let others = Wires::status_in(state);
    let out = peripheral_channel::decide(c, o, b, state);
    spoken(out, Peripheral::status_in(state) + others)
}

// Where a PUT_VWIRE has lowered PLTRST# the platform reset follows its reply, which is made by then.
fn put_wires(c: Config, n: u32, b: &[u8], state: &mut [u8]) -> Outgoing
    requires { Loadable state.old × (c ≡ (unpacked state.old).config) × (2 + n * 2 ≤ length b.now) }
    ensures { carried result state.new
        ≡ carried_by (acted wires (unpacked state.old) (Act.puts n (take (n * 2) (drop 2 b.now)))) state.old }
{
    let w = Wires::unpack(state);
    let was = wires_channel::pltrst(w);
    let x = wires_channel::put_vwire(c, w, n, b);
    let is = wires_channel::pltrst(x.next);
    let out = lift_wires(x, state);
    if was & !is {
        platform_reset(state);
    }
    out
}

// The packet that a GET_VWIRE sends is made where the reply is written: from the place on, as many entries as the operating count.
fn send_wires(state: &[u8]) -> Outgoing
    requires { Loadable state.now }
    ensures { carried result state.now ≡ carried_by (acted wires (unpacked state.now) Act.gets) state.now }
{
    if !Wires::any_pending(state) {
        return fatally(state::status_in(state));
    }
    Outgoing {
        speech: Speech::Packet,
        ..silently(0)
    }
}

// The two are apart, so that a GET_VWIRE pays nothing for PLTRST#.
fn act_wires(c: Config, o: WiresCommand, b: &[u8], state: &mut [u8]) -> Outgoing
    requires { Loadable state.old × (c ≡ (unpacked state.old).config) × WiresFits o b.now }
    ensures { carried result state.new
        ≡ carried_by (acted wires (unpacked state.old) (act_of wires (unpacked state.old).config o b.now)) state.old }
{
    match o {
        WiresCommand::PutVwire(n) => put_wires(c, n, b, state),
        WiresCommand::GetVwire => send_wires(state),
    }
}

// ---- above all channels

fn silently(number: u8) -> Outgoing
    ensures { result ≡ quiet number }
{
    Outgoing {
        number,
        speech: Speech::Reply(None),
        kept: None,
    }
}

// A reply, number 0, and no data kept.
fn replying(response: Response, body: Body, status: u32) -> Outgoing
    ensures { result ≡ says_only 0 response body status }
{
    let reply = Reply {
        response,
        body,
        status,
    };
    Outgoing {
        speech: Speech::Reply(Some(reply)),
        ..silently(0)
    }
}

// A reply that refuses.
fn refusing(x: Refusal, response: Response, status: u32) -> Outgoing
    ensures { result ≡ says_only (number_of x) response Nothing status }
{
    Outgoing {
        number: u8::from(x),
        ..replying(response, Body::Nothing, status)
    }
}

fn shown(body: Body, word: u32) -> Outgoing
    ensures { result ≡ showing body word }
{
    replying(Response::Accept, body, word)
}

fn fatally(word: u32) -> Outgoing
    ensures { result ≡ failing word }
{
    refusing(Refusal::Fatal, Response::Fatal, word)
}

fn decided(c: Config, o: Command, b: &[u8], state: &mut [u8]) -> Outgoing
    requires { Loadable state.old × (c ≡ (unpacked state.old).config) × CommandFits o b.now }
    ensures { carried result state.new ≡ carried_by (decide (unpacked state.old) o b.now) state.old }
{
    match o {
        Command::Peripheral(k) => act_peripheral(c, k, b, state),
        Command::Wires(k) => act_wires(c, k, b, state),
        Command::GetConfiguration(a) => shown(Body::Word(c.read(a)), state::status_in(state)),
        Command::SetConfiguration(a, v) => configuration::set(c, a, v, state),
        Command::GetStatus => shown(Body::Nothing, state::status_in(state)),
        Command::Reset => {
            configuration::reset_008(c, state);
            silently(0)
        }
    }
}

// ---- the exchange

// A decode that gives no command ends the exchange at once.
// Stays: document 01 asks for `let .. else` (docs/DECISIONS.md, 72), in which the error has no name; so `refused_by` has a case for a command, which no call
// reaches. `settled` is of other types: one function for both would be told what the value is and how the error is numbered, for two arms.
fn refused(d: Result<Command, command::Refusal>) -> Outgoing
    ensures { result ≡ refused_by d }
{
    match d {
        Ok(_) => silently(0),
        Err(refusal) => silently(u8::from(refusal)),
    }
}

// What an exchange sends and keeps; the state's bytes are the next state's after it.
pub fn exchange(b: &[u8], state: &mut [u8]) -> Outgoing
    requires { Loadable state.old }
    ensures { carried result state.new ≡ carried_by (exchange (unpacked state.old) b.now) state.old }
{
    let c = Config::unpack(state);
    let r008 = c.r008;
    let d = command::admit(configuration::channels(c), r008.crc_checked(), b);
    let Ok(o) = d else {
        return refused(d);
    };
    decided(c, o, b, state)
}

// ---- the resets: each channel its own
// Stays: two of each, since document 01 has two resets; what is one for both is `pack` and `unpack`, the rest says which part each leaves.

fn espi_core(s: Core) -> Core
    ensures { Resets espi_reset s result }
{
    let serial = s.peripheral.serial;
    Core {
        peripheral: Peripheral::idle(serial),
        ..Core::fresh()
    }
}

fn platform_core(s: Core) -> Core
    ensures { Resets platform_reset s result }
{
    Core {
        config: Config {
            r010: Reg010::fresh(),
            ..s.config
        },
        peripheral: Peripheral::idle(s.peripheral.serial),
        wires: s.wires.platform(),
    }
}

// The eSPI reset on the bytes.
pub fn espi_reset(state: &mut [u8])
    requires { state_length ≤ length state.old }
    ensures { state.new ≡ kept (was_reset espi_reset (unpacked state.old)) state.old }
{
    state::pack(espi_core(state::unpack(state)), state);
}

// The platform reset on the bytes.
pub fn platform_reset(state: &mut [u8])
    requires { state_length ≤ length state.old }
    ensures { state.new ≡ kept (was_reset platform_reset (unpacked state.old)) state.old }
{
    state::pack(platform_core(state::unpack(state)), state);
}

// ---- the board's calls

// The board answers the request with this serial with these bytes, or with failure.
pub fn answer(serial: u32, success: u32, bytes: &[u8], state: &mut [u8]) -> Outgoing
    requires { Loadable state.old }
    ensures { carried result state.new
        ≡ carried_by
        (lift peripheral (unpacked state.old)
        (answer_to (unpacked state.old).peripheral serial (succeeded success) (length bytes.now))) state.old }
{
    lift_peripheral(
        peripheral_channel::answer_to(Peripheral::unpack(state), serial, success != 0, bytes.len()),
        state,
    )
}

// The board takes the held write.
pub fn take_write(state: &mut [u8]) -> Outgoing
    requires { Loadable state.old }
    ensures { carried result state.new
        ≡ carried_by (lift peripheral (unpacked state.old) (taken (unpacked state.old).peripheral)) state.old }
{
    lift_peripheral(peripheral_channel::taken(Peripheral::unpack(state)), state)
}

// The board sets one wire.
pub fn set_wire(index: u32, bit: u32, value: u32, state: &mut [u8]) -> Outgoing
    requires { Loadable state.old }
    ensures { carried result state.new
        ≡ carried_by
        (lift wires (unpacked state.old)
        (setting (unpacked state.old).config (unpacked state.old).wires index bit value)) state.old }
{
    let c = Config::unpack(state);
    let x = wires_channel::setting(c, Wires::unpack(state), index, bit, value);
    let number = x.out.number;
    wires_channel::store(number, x.next, state);
    silently(number)
}

// What a call of a line says: 0, or its refusal's number.
fn settled(called: Result<(), Refusal>) -> Outgoing
    ensures { result ≡ quiet (number_in called) }
{
    match called {
        Ok(_) => silently(0),
        Err(x) => silently(u8::from(x)),
    }
}

// The board raises or lowers a line.
pub fn set_line(line: u32, level: u32, state: &mut [u8]) -> Outgoing
    requires { Loadable state.old }
    ensures { carried result state.new
        ≡ carried_by
        (lift wires (unpacked state.old)
        (setting_line (unpacked state.old).config (unpacked state.old).wires line level)) state.old }
{
    let c = Config::unpack(state);
    settled(wires_channel::set_line(c, line, level, state))
}

// The board asks for an edge on a line.
pub fn pulse_line(line: u32, state: &mut [u8]) -> Outgoing
    requires { Loadable state.old }
    ensures { carried result state.new
        ≡ carried_by
        (lift wires (unpacked state.old)
        (pulsing_line (unpacked state.old).config (unpacked state.old).wires line)) state.old }
{
    let c = Config::unpack(state);
    settled(wires_channel::pulse_line(c, line, state))
}
