// A plan's reply written into the lent bytes, and its kept data into a lent store.
#![tactic(auto)]

ghost use Rattle.std.specs.Prelude.{◌≡◌, true, Some, ◌∷◌, ◌++◌, ◌+◌, ◌*◌, ◌≤◌, ◌<◌, length, take, drop};
ghost use Rattle.base.specs.Bytes.{over};
ghost use Rattle.wires.specs.Senders.{fresh_all};
ghost use Rattle.rules.specs.Rules.Peripheral.{request_report, posted_report, take_report};
ghost use Rattle.rules.specs.Rules.Reply.{header_bytes, data_bytes, body_bytes, closed, reply_bytes, kept_bytes};
ghost use Rattle.reply.specs.Packets.{Fillable, PacketReady, packet_put, filled_by, packet_put_by};
ghost use Rattle.rules.specs.Rules.Step.{reply_length, read_length, look_length, take_length};
ghost use Rattle.rules.specs.Rules.Fits.{BodyFits, ReplyFits, KeptFits, plain_body, plain};

use peripheral::{Completion, Peripheral, Posted, Request};
use registers::Config;
use rules::{Body, Kept, Reply, Response};
use wires::{Packet, Wires};

// Stays: `put_reply` and `put_packet`, public, take any slices of `reply_length` and `read_length` bytes or more (docs/CONTRACTS.md), and would make structs
// with these lengths for the private ones. Those two part replies from packets, which is what `BodyFits` and `plain_body` say; `Body` has both, as the
// definitions do.

// The response byte and the header of a completion.
fn header(code: u8, c: Completion) -> [u8; 4]
    ensures { result ≡ code ∷ header_bytes c }
{
    let [low, high, ..] = c.length.to_le_bytes();
    [code, c.cycle, c.tag % 16 * 16 + high % 16, low]
}

// The data goes into the reply from its fifth byte on.
fn put_piece(reply: &mut [u8], code: u8, c: Completion, reads: &[u8]) -> usize
    requires { (reply_length ≤ length reply.old) × (read_length ≤ length reads.now) × (c.length ≤ 256) × (c.from + c.length ≤ read_length) }
    ensures { (reply.new ≡ over ((code ∷ header_bytes c) ++ data_bytes c reads.now) reply.old) × (result ≡ 4 + c.length) }
{
    let first = header(code, c);
    let n = c.length as usize;
    let from = c.from as usize;
    base::put_at(reply, 0, &first);
    base::copy_in(&mut reply[4..], &reads[from..from + n]);
    4 + n
}

// The response byte and a register.
fn put_word(reply: &mut [u8], code: u8, v: u32) -> usize
    requires { reply_length ≤ length reply.old }
    ensures { (reply.new ≡ over (code ∷ Rattle.base.specs.Bytes.low4 v) reply.old) × (result ≡ 5) }
{
    let [a, b, c, d] = v.to_le_bytes();
    base::put_at(reply, 0, &[code, a, b, c, d]);
    5
}

// A packet of wires is put by `put_packet`.
fn put_body(reply: &mut [u8], code: u8, body: Body, reads: &[u8]) -> usize
    requires { (reply_length ≤ length reply.old) × (read_length ≤ length reads.now) × BodyFits body fresh_all × (plain_body body ≡ true) }
    ensures { (reply.new ≡ over (code ∷ body_bytes body fresh_all reads.now) reply.old)
        × (result ≡ length (code ∷ body_bytes body fresh_all reads.now)) × (result ≤ 260) }
{
    match body {
        Body::Nothing => {
            base::put_at(reply, 0, &[code]);
            1
        }
        Body::Word(v) => put_word(reply, code, v),
        Body::Piece(c) => put_piece(reply, code, c, reads),
        Body::Groups(_) => 0,
    }
}

// Status, and the CRC of all before it, after the first n bytes.
// Stays: n stands beside the slice, since status and CRC go behind the first n bytes, into the rest of it.
fn finish(reply: &mut [u8], n: usize, status: u32)
    requires { n + 3 ≤ length reply.old }
    ensures { reply.new ≡ over (closed (take n reply.old) status) reply.old }
{
    let w = base::bytes2(status);
    base::put_at(reply, n, &w);
    let end = n + 2;
    let one = [crc::crc_of(&reply[..end])];
    base::put_at(reply, end, &one);
}

fn say(reply: &mut [u8], r: Reply, reads: &[u8]) -> u32
    requires { (reply_length ≤ length reply.old) × (read_length ≤ length reads.now) × BodyFits r.body fresh_all × (plain_body r.body ≡ true) }
    ensures { (reply.new ≡ over (reply_bytes (Some r) fresh_all reads.now) reply.old)
        × (result ≡ length (reply_bytes (Some r) fresh_all reads.now)) × (result ≤ reply_length) }
{
    let n = put_body(reply, u8::from(r.response), r.body, reads);
    finish(reply, n, r.status);
    (n + 3) as u32
}

// The bytes of a reply that is no packet, the same over any wires; their count.
pub fn put_reply(reply: &mut [u8], r: Option<Reply>, reads: &[u8]) -> u32
    requires { (reply_length ≤ length reply.old) × (read_length ≤ length reads.now) × ReplyFits r fresh_all × (plain r ≡ true) }
    ensures { (reply.new ≡ over (reply_bytes r fresh_all reads.now) reply.old)
        × (result ≡ length (reply_bytes r fresh_all reads.now)) × (result ≤ reply_length) }
{
    match r {
        None => 0,
        Some(r) => say(reply, r, reads),
    }
}

// A packet's entries are written from the wires in the state's bytes, which change with it; the status, beside the other channels' word, is that after it.
fn fill_packet(reply: &mut [u8], state: &mut [u8], p: Packet, others: u32) -> u32
    requires { (reply_length ≤ length reply.old) × Fillable p state.old × (others ≤ 19) }
    ensures { (packet_put result state.new reply.new ≡ filled_by p others state.old reply.old) × (result ≤ reply_length) }
{
    base::put_at(reply, 0, &[u8::from(Response::Accept), 0]);
    let n = wires::send(state, reply, p);
    base::put_at(reply, 1, &[(n - 1) as u8]);
    let end = 2 + n * 2;
    finish(reply, end, others + Wires::status_in(state));
    (end + 3) as u32
}

// The bytes of an accepted GET_VWIRE's reply: from the state's going-round place on, as many entries as its operating count; their count.
pub fn put_packet(reply: &mut [u8], state: &mut [u8]) -> u32
    requires { (reply_length ≤ length reply.old) × PacketReady state.old }
    ensures { (packet_put result state.new reply.new ≡ packet_put_by state.old reply.old) × (result ≤ reply_length) }
{
    let c = Config::unpack(state);
    let w = Wires::unpack(state);
    let others = Peripheral::status_in(state);
    fill_packet(
        reply,
        state,
        Packet {
            place: w.place,
            capacity: c.r020.operating_count(),
        },
        others,
    )
}

fn keep_data(dst: &mut [u8], k: Kept, src: &[u8])
    requires { (k.count ≤ length dst.old) × (k.from + k.count ≤ length src.now) }
    ensures { dst.new ≡ over (take k.count (drop k.from src.now)) dst.old }
{
    let from = k.from as usize;
    let count = k.count as usize;
    base::copy_in(dst, &src[from..from + count]);
}

// The call's data that a store keeps.
pub fn keep(dst: &mut [u8], k: Option<Kept>, src: &[u8])
    requires { KeptFits k (length src.now) (length dst.old) }
    ensures { dst.new ≡ over (kept_bytes k src.now) dst.old }
{
    if let Some(d) = k {
        keep_data(dst, d, src);
    }
}

fn request_report(q: Request, serial: u32) -> [u8; 19]
    ensures { result ≡ request_report q serial }
{
    let [a0, a1, a2, a3, a4, a5, a6, a7] = q.address.to_le_bytes();
    let [n0, n1, ..] = q.length.to_le_bytes();
    let [s0, s1, s2, s3] = serial.to_le_bytes();
    let [b0, b1, b2, b3] = q.bytes.to_le_bytes();
    [
        u8::from(q.kind),
        a0,
        a1,
        a2,
        a3,
        a4,
        a5,
        a6,
        a7,
        n0,
        n1,
        s0,
        s1,
        s2,
        s3,
        b0,
        b1,
        b2,
        b3,
    ]
}

// The report of a look: kind, address, length, serial, an I/O write's bytes.
pub fn put_request(report: &mut [u8], q: Request, serial: u32)
    requires { look_length ≤ length report.old }
    ensures { report.new ≡ over (request_report q serial) report.old }
{
    let r = request_report(q, serial);
    base::put_at(report, 0, &r);
}

fn posted_report(w: Posted) -> [u8; 10]
    ensures { result ≡ posted_report w }
{
    let [a0, a1, a2, a3, a4, a5, a6, a7] = w.address.to_le_bytes();
    let [n0, n1, ..] = w.length.to_le_bytes();
    [a0, a1, a2, a3, a4, a5, a6, a7, n0, n1]
}

fn put_posted(report: &mut [u8], w: Posted)
    requires { take_length ≤ length report.old }
    ensures { report.new ≡ over (posted_report w) report.old }
{
    let r = posted_report(w);
    base::put_at(report, 0, &r);
}

// The report of a take: address and length; nothing where no write is held.
pub fn put_write(report: &mut [u8], w: Option<Posted>)
    requires { take_length ≤ length report.old }
    ensures { report.new ≡ over (take_report w) report.old }
{
    if let Some(p) = w {
        put_posted(report, p);
    }
}
