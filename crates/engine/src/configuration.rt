// The configuration, above all channels: each channel gets the edge of its enable bit.
ghost use Rattle.std.specs.Prelude.{◌≡◌};
ghost use Rattle.state.specs.Layout.{unpacked};
ghost use Rattle.rules.specs.Rules.Calls.{kept};
ghost use Rattle.rules.specs.Rules.Exchange.{channels_of, reconfigured, set_configuration, reset008h};
ghost use Rattle.engine.specs.Carried.{Loadable, carried, carried_by, forbidding};

use crate::{Outgoing, peripheral_channel, wires_channel};
use command::Channels;
use registers::{Config, Reg008};
use rules::{Body, Refusal, Response};

// Which channels are on.
pub(crate) fn channels(c: Config) -> Channels
    ensures { result ≡ channels_of c }
{
    Channels {
        peripheral: c.r010.on(),
        wires: c.r020.on(),
    }
}

// The registers' bytes, and those of a channel whose enable bit has an edge: each reads its own where they stand.
fn reconfigure(c: Config, next: Config, state: &mut [u8])
    requires { Loadable state.old × (c ≡ (unpacked state.old).config) }
    ensures { state.new ≡ kept (reconfigured (unpacked state.old) next) state.old }
{
    let was = channels(c);
    let is = channels(next);
    next.pack(state);
    peripheral_channel::store_edge(was.peripheral, is.peripheral, state);
    wires_channel::store_edge(was.wires, is.wires, state);
}

fn non_fatally(word: u32) -> Outgoing
    ensures { result ≡ forbidding word }
{
    crate::refusing(Refusal::NonFatal, Response::NonFatal, word)
}

pub(crate) fn set(c: Config, address: u32, val: u32, state: &mut [u8]) -> Outgoing
    requires { Loadable state.old × (c ≡ (unpacked state.old).config) }
    ensures { carried result state.new ≡ carried_by (set_configuration (unpacked state.old) address val) state.old }
{
    // The reply shows the status before the write.
    let word = state::status_in(state);
    if registers::forbidden(address, val) {
        return non_fatally(word);
    }
    let next = c.write(address, val);
    if (address == 0x020) & wires_channel::hinders(next, state) {
        return non_fatally(word);
    }
    reconfigure(c, next, state);
    crate::shown(Body::Nothing, word)
}

// RESET: register 008h and nothing else.
pub(crate) fn reset_008(c: Config, state: &mut [u8])
    requires { Loadable state.old × (c ≡ (unpacked state.old).config) }
    ensures { state.new ≡ kept (reset008h (unpacked state.old)) state.old }
{
    let next = Config {
        r008: Reg008::fresh(),
        ..c
    };
    next.pack(state);
}
