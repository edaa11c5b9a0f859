// The C boundary: the eleven calls of `espi` under the names that C links, with the same clauses (include/espi.h).
// Stays: C links each call by a name of its own, so the eleven stand here once more.
#![tactic(auto)]

ghost use Rattle.std.specs.Prelude.{◌≡◌};
ghost use Rattle.rules.specs.Rules.Calls.{done, exchanged, stored, looked, start_call, espi_reset_call, platform_reset_call, exchange_call, look_call, answer_call, take_write_call, set_wire_call, read_wire_call, set_line_call, pulse_line_call};

#[unsafe(no_mangle)]
pub extern "C" fn espi_start(state: &mut [u8]) -> u32
    ensures { done result state.new ≡ start_call state.old }
{
    espi::espi_start(state)
}

#[unsafe(no_mangle)]
pub extern "C" fn espi_reset(state: &mut [u8]) -> u32
    ensures { done result state.new ≡ espi_reset_call state.old }
{
    espi::espi_reset(state)
}

#[unsafe(no_mangle)]
pub extern "C" fn espi_platform_reset(state: &mut [u8]) -> u32
    ensures { done result state.new ≡ platform_reset_call state.old }
{
    espi::espi_platform_reset(state)
}

#[unsafe(no_mangle)]
pub extern "C" fn espi_exchange(
    state: &mut [u8],
    command: &[u8],
    reply: &mut [u8],
    write_store: &mut [u8],
    read_store: &[u8],
) -> u32
    ensures { exchanged result state.new reply.new write_store.new
        ≡ exchange_call state.old command.now reply.old write_store.old read_store.now }
{
    espi::espi_exchange(state, command, reply, write_store, read_store)
}

#[unsafe(no_mangle)]
pub extern "C" fn espi_look(state: &[u8], report: &mut [u8]) -> u32
    ensures { looked result report.new ≡ look_call state.now report.old }
{
    espi::espi_look(state, report)
}

#[unsafe(no_mangle)]
pub extern "C" fn espi_answer(
    state: &mut [u8],
    read_store: &mut [u8],
    serial: u32,
    success: u32,
    bytes: &[u8],
) -> u32
    ensures { stored result state.new read_store.new
        ≡ answer_call state.old read_store.old serial success bytes.now }
{
    espi::espi_answer(state, read_store, serial, success, bytes)
}

#[unsafe(no_mangle)]
pub extern "C" fn espi_take_write(state: &mut [u8], write_store: &[u8], report: &mut [u8]) -> u32
    ensures { stored result state.new report.new ≡ take_write_call state.old write_store.now report.old }
{
    espi::espi_take_write(state, write_store, report)
}

#[unsafe(no_mangle)]
pub extern "C" fn espi_set_wire(state: &mut [u8], index: u32, bit: u32, value: u32) -> u32
    ensures { done result state.new ≡ set_wire_call state.old index bit value }
{
    espi::espi_set_wire(state, index, bit, value)
}

#[unsafe(no_mangle)]
pub extern "C" fn espi_read_wire(state: &[u8], index: u32, bit: u32) -> u32
    ensures { result ≡ read_wire_call state.now index bit }
{
    espi::espi_read_wire(state, index, bit)
}

#[unsafe(no_mangle)]
pub extern "C" fn espi_set_line(state: &mut [u8], line: u32, level: u32) -> u32
    ensures { done result state.new ≡ set_line_call state.old line level }
{
    espi::espi_set_line(state, line, level)
}

#[unsafe(no_mangle)]
pub extern "C" fn espi_pulse_line(state: &mut [u8], line: u32) -> u32
    ensures { done result state.new ≡ pulse_line_call state.old line }
{
    espi::espi_pulse_line(state, line)
}
