// Channel 0: its commands, over the configuration and the channel's own bytes, and the board's calls, over its part by value.
ghost use Rattle.std.specs.Prelude.{◌≡◌, true, ◌+◌, ◌≤◌, length};
ghost use Rattle.std.proofs.Math.ListN as L;
ghost use Rattle.registers.specs.Registers.{reachable};
ghost use Rattle.pieces.specs.Blocks.{Block};
ghost use Rattle.command.specs.declared.PeripheralCommand.TheVariants.{Short};
ghost use Rattle.command.specs.Facts.{PeripheralFits, SizeFits};
ghost use Rattle.peripheral.specs.Sound.{sound_request};
ghost use Rattle.peripheral.specs.Layout.{np_in, peripheral_in};
ghost use Rattle.peripheral.specs.Stored.{Stands};
ghost use Rattle.state.specs.Layout.{state_length};
ghost use Rattle.rules.specs.Rules.Channel.{peripheral};
ghost use Rattle.rules.specs.Rules.Numbers.{number_of};
ghost use Rattle.rules.specs.Rules.Out as O;
ghost use Rattle.rules.specs.Rules.Peripheral as P;
ghost use Rattle.engine.specs.Carried.{changed_to, changed_by, stored_by, edge_stored};

use crate::out;
use command::{Access, Head, PeripheralCommand, Span};
use peripheral::{Kind, Np, Peripheral, Posted, Request};
use registers::Config;
use rules::{Body, Kept, Out, PeripheralChange, Refusal};

// A board call refused.
fn refused(p: Peripheral, x: Refusal) -> PeripheralChange
    ensures { result ≡ P.change p (O.number (number_of x)) }
{
    PeripheralChange {
        next: p,
        out: out::number(x),
    }
}

fn with_request(p: Peripheral, n: Np) -> Peripheral
    ensures { result ≡ P.with_request p n }
{
    Peripheral { request: n, ..p }
}

// Stays: five contracts ask for `Stands` and 64 bytes, three of them for a reachable configuration. The bytes are lent on by `&mut` and changed in between; a
// struct that holds them would promise that at each of its methods, as these do. A Config is read from any bytes (`Config::unpack`), so it cannot promise it.

// ---- posted writes

// Credit, then size; the data from this byte of the command on is kept.
fn post(c: Config, address: u64, length: u32, from: u32, state: &mut [u8]) -> Out
    requires { (64 ≤ L.length state.old) × Stands (peripheral_in state.old) state.old × (reachable c ≡ true) }
    ensures { changed_to result state.new ≡ changed_by peripheral (P.post c (peripheral_in state.old) address length from) state.old }
{
    if !Peripheral::takes_write(state) {
        return out::fatal();
    }
    let r = c.r010;
    let payload = r.payload_size();
    if !peripheral::within(address, length, payload) {
        return out::fatal();
    }
    let w = Posted {
        address,
        length,
        payload,
    };
    Peripheral::hold(w, state);
    out::accept(
        Body::Nothing,
        Some(Kept {
            from,
            count: length,
        }),
    )
}

// ---- non-posted requests

fn request_of(c: Config, kind: Kind, address: u64, length: u32, tag: u8, bytes: u32) -> Request
    ensures { result ≡ P.request_of c kind address length tag bytes }
{
    let r = c.r010;
    Request {
        kind,
        address,
        length,
        tag,
        payload: r.payload_size(),
        readsize: r.read_size(),
        bytes,
    }
}

// An I/O write obeys the payload size, a read the read request size.
fn size_for(q: Request) -> u32
    ensures { result ≡ P.size_for q.kind q }
{
    match q.kind {
        Kind::MemoryRead | Kind::IoRead => q.readsize,
        Kind::IoWrite => q.payload,
    }
}

// Credit, then size.
fn ask(q: Request, state: &mut [u8]) -> Out
    requires { (64 ≤ L.length state.old) × Stands (peripheral_in state.old) state.old × Block q.payload × Block q.readsize }
    ensures { changed_to result state.new ≡ changed_by peripheral (P.ask (peripheral_in state.old) q) state.old }
{
    if !Peripheral::takes_request(state) {
        return out::fatal();
    }
    let size = size_for(q);
    if !peripheral::within(q.address, q.length, size) {
        return out::fatal();
    }
    Peripheral::wait(q, state);
    out::defer()
}

// The bytes of an I/O write of this size, low byte first.
fn bytes_of(size: u8, b: &[u8]) -> u32
    requires { (3 + size ≤ length b.now) × SizeFits size }
    ensures { result ≡ P.bytes_of size b.now }
{
    match size {
        1 => u32::from(b[3]),
        2 => base::join2(b[3], b[4]),
        _ => base::join4(b[3], b[4], b[5], b[6]),
    }
}

fn short_access(c: Config, a: Access, at: Span, b: &[u8], state: &mut [u8]) -> Out
    requires { (64 ≤ L.length state.old) × Stands (peripheral_in state.old) state.old × (reachable c ≡ true) × PeripheralFits (Short a at) b.now }
    ensures { changed_to result state.new
        ≡ changed_by peripheral (P.acting c (peripheral_in state.old) (P.short_act c a at b.now)) state.old }
{
    let n = u32::from(at.size);
    match a {
        Access::IoRead => ask(request_of(c, Kind::IoRead, at.address, n, 0, 0), state),
        Access::IoWrite => {
            let bytes = bytes_of(at.size, b);
            ask(request_of(c, Kind::IoWrite, at.address, n, 0, bytes), state)
        }
        Access::MemoryRead => ask(request_of(c, Kind::MemoryRead, at.address, n, 0, 0), state),
        Access::MemoryWrite => post(c, at.address, n, 5, state),
    }
}

// ---- GET_PC

fn get_pc(state: &mut [u8]) -> Out
    requires { (64 ≤ L.length state.old) × Stands (peripheral_in state.old) state.old × (sound_request (np_in state.old) ≡ true) }
    ensures { changed_to result state.new ≡ changed_by peripheral (P.get_pc (peripheral_in state.old)) state.old }
{
    match Peripheral::hand_over(state) {
        None => out::fatal(),
        Some(c) => out::accept(Body::Piece(c), None),
    }
}

// ---- a command

// Where the data of a PUT_PC begins in the command.
fn data_at(h: Head) -> u32
    ensures { result ≡ P.data_at h }
{
    if h.wide {
        return 12;
    }
    8
}

pub(crate) fn decide(c: Config, o: PeripheralCommand, b: &[u8], state: &mut [u8]) -> Out
    requires { (64 ≤ L.length state.old) × Stands (peripheral_in state.old) state.old × (reachable c ≡ true) × (sound_request (np_in state.old) ≡ true)
        × PeripheralFits o b.now }
    ensures { changed_to result state.new
        ≡ changed_by peripheral (P.decide c (peripheral_in state.old) o b.now) state.old }
{
    match o {
        PeripheralCommand::PutPc(h) => post(c, h.address, h.length, data_at(h), state),
        PeripheralCommand::GetPc => get_pc(state),
        PeripheralCommand::PutNp(h) => ask(
            request_of(c, Kind::MemoryRead, h.address, h.length, h.tag, 0),
            state,
        ),
        PeripheralCommand::Short(a, at) => short_access(c, a, at, b, state),
    }
}

// ---- the board answers

// How many bytes a success answer has.
fn answer_length(q: Request) -> u32
    ensures { result ≡ P.answer_length q.kind q }
{
    match q.kind {
        Kind::MemoryRead | Kind::IoRead => q.length,
        Kind::IoWrite => 0,
    }
}

fn bytes_for(q: Request, success: bool) -> u32
    ensures { result ≡ P.bytes_for q success }
{
    if success {
        return answer_length(q);
    }
    0
}

fn answered(p: Peripheral, q: Request, success: bool) -> PeripheralChange
    ensures { result ≡ P.answered p q success }
{
    if success {
        let n = answer_length(q);
        return PeripheralChange {
            next: with_request(p, Np::Ready(q, 0)),
            out: out::keep(Some(Kept { from: 0, count: n })),
        };
    }
    PeripheralChange {
        next: with_request(p, Np::Failed(q)),
        out: out::keep(None),
    }
}

// Stays: serial and success are two words, as the C interface and the engine's public `answer` have them.
fn answer_waiting(
    p: Peripheral,
    q: Request,
    serial: u32,
    success: bool,
    n: usize,
) -> PeripheralChange
    ensures { result ≡ P.answering_waiting p q serial success n }
{
    if serial != p.serial {
        return refused(p, Refusal::NoSuchRequest);
    }
    let want = bytes_for(q, success);
    if n != (want as usize) {
        return refused(p, Refusal::CountWrong);
    }
    answered(p, q, success)
}

pub(crate) fn answer_to(p: Peripheral, serial: u32, success: bool, n: usize) -> PeripheralChange
    ensures { result ≡ P.answer_to p serial success n }
{
    match p.request {
        Np::Waiting(q) => answer_waiting(p, q, serial, success, n),
        _ => refused(p, Refusal::NoSuchRequest),
    }
}

// ---- the board takes the held write

fn emptied(p: Peripheral) -> Peripheral
    ensures { result ≡ P.emptied p }
{
    Peripheral { write: None, ..p }
}

pub(crate) fn taken(p: Peripheral) -> PeripheralChange
    ensures { result ≡ P.taken p }
{
    match p.write {
        None => refused(p, Refusal::NothingThere),
        Some(_) => PeripheralChange {
            next: emptied(p),
            out: out::keep(None),
        },
    }
}

// ---- its bytes

// The part of a change with this number; a refused one's stands there already.
pub(crate) fn store(number: u8, p: Peripheral, state: &mut [u8])
    requires { state_length ≤ length state.old }
    ensures { state.new ≡ stored_by peripheral number p state.old }
{
    if number != 0 {
        return;
    }
    p.pack(state);
}

// The edge from on to off drops the queues.
pub(crate) fn store_edge(was: bool, is: bool, state: &mut [u8])
    requires { state_length ≤ length state.old }
    ensures { state.new ≡ edge_stored peripheral was is (peripheral_in state.old) state.old }
{
    if was & !is {
        let p = Peripheral::unpack(state);
        let q = p.dropped();
        q.pack(state);
    }
}
