// The state: the registers and each channel; its status, its soundness, its bytes (docs/STATE.md).
#![tactic(auto)]

ghost use Rattle.std.specs.Prelude.{◌≡◌, ◌≤◌, length};
ghost use Rattle.base.specs.Bytes.{over};
ghost use Rattle.state.specs.Core.{core_of, quiet_state, fresh_core};
ghost use Rattle.state.specs.Status.{status};
ghost use Rattle.state.specs.Layout.{state_length, packed, unpacked, holds};

use peripheral::Peripheral;
use registers::Config;
use wires::Wires;

// All of the state but the lines, which stand in its bytes alone.
#[derive(Clone, Copy)]
pub struct Core {
    pub config: Config,
    pub peripheral: Peripheral,
    pub wires: Wires,
}

impl Core {
    pub fn fresh() -> Core
        ensures { result ≡ fresh_core }
    {
        Core {
            config: Config::fresh(),
            peripheral: Peripheral::idle(0),
            wires: Wires::fresh(),
        }
    }
}

// Stays: the public functions here and in the engine take any slice of 174 bytes or more (docs/CONTRACTS.md), so each says so; the private ones there take what
// those are lent.

// The bytes of a state in which no line is high or waits at the start of `dst`; what is past them stays. Start and both resets leave such a one.
pub fn pack(s: Core, dst: &mut [u8])
    requires { state_length ≤ length dst.old }
    ensures { dst.new ≡ over (packed (quiet_state s)) dst.old }
{
    s.config.pack(dst);
    s.peripheral.pack(dst);
    s.wires.pack(dst);
    wires::lines::clear_lines(dst);
}

// What stands at the start of `b`, sound or not, but for the lines.
pub fn unpack(b: &[u8]) -> Core
    requires { state_length ≤ length b.now }
    ensures { result ≡ core_of (unpacked b.now) }
{
    let config = Config::unpack(b);
    let peripheral = Peripheral::unpack(b);
    let wires = Wires::unpack(b);
    Core {
        config,
        peripheral,
        wires,
    }
}

// Whether the bytes pack a sound state: they are tested as they stand.
pub fn holds(b: &[u8]) -> bool
    requires { state_length ≤ length b.now }
    ensures { result ≡ holds b.now }
{
    let c = Config::unpack(b);
    let peripheral = Peripheral::holds(b, c.r010.on());
    let r020 = c.r020;
    let wires = Wires::holds(b, r020.on(), r020.operating_count());
    c.reachable() & (peripheral & wires)
}

// The status word, of the bytes.
pub fn status_in(b: &[u8]) -> u32
    requires { state_length ≤ length b.now }
    ensures { result ≡ status (unpacked b.now) }
{
    Peripheral::status_in(b) + Wires::status_in(b)
}
