// Channel 0: the held write and request, what GET_PC hands over of them. A status bit is computed from its queue, never stored beside it.
#![tactic(auto)]

ghost use Rattle.std.specs.Prelude.{◌≡◌, ◌+◌, ◌*◌, ◌%◌, ◌^◌, ◌<◌, ◌≤◌, true, ◌++◌, length, nat_lt, Some};
ghost use Rattle.base.specs.Bytes.{bit, put, low4, number4};
ghost use Rattle.registers.specs.Registers.{payload_legal, read_legal};
ghost use Rattle.pieces.specs.Blocks.{Block};
ghost use Rattle.peripheral.specs.declared.Kind.TheVariants.{MemoryRead, IoRead, IoWrite};
ghost use Rattle.peripheral.specs.declared.Np.TheVariants.{Free, Waiting};
ghost use Rattle.peripheral.specs.Queues.{idle, dropped};
ghost use Rattle.peripheral.specs.Status.{pc_free, np_free, pc_avail, peripheral_status};
ghost use Rattle.peripheral.specs.Upward.{bare, next_piece, success_of, upward, first_of, left_of, after_piece, after_success};
ghost use Rattle.peripheral.specs.Sound.{within, short_size, io_made, made_as_value, request_made, write_made, sent_right, sound_request};
ghost use Rattle.peripheral.specs.Coded.{held_right};
ghost use Rattle.peripheral.specs.Layout.{handed_bytes, write_bytes_value, kind_number, request_bytes, np_bytes, peripheral_bytes, posted_in, write_in, kind_of, request_in, np_in, peripheral_in, holds_write, blank_in, holds_request, holds_peripheral};

#[derive(Clone, Copy)]
pub enum Kind {
    MemoryRead,
    IoRead,
    IoWrite,
}

// A non-posted request, with the sizes in force when it was accepted; `bytes`: those of an I/O write, low byte first.
#[derive(Clone, Copy)]
pub struct Request {
    pub kind: Kind,
    pub address: u64,
    pub length: u32,
    pub tag: u8,
    pub payload: u32,
    pub readsize: u32,
    pub bytes: u32,
}

// The held request by phase: unanswered; answered with success, and so many bytes sent; answered with failure.
#[derive(Clone, Copy)]
pub enum Np {
    Free,
    Waiting(Request),
    Ready(Request, u32),
    Failed(Request),
}

// A posted write, with the payload size in force when it was accepted.
#[derive(Clone, Copy)]
pub struct Posted {
    pub address: u64,
    pub length: u32,
    pub payload: u32,
}

// `serial`: the last one given, so that of the held request.
#[derive(Clone, Copy)]
pub struct Peripheral {
    pub write: Option<Posted>,
    pub request: Np,
    pub serial: u32,
}

// A completion: its header, and where in the read store its data begins.
#[derive(Clone, Copy)]
pub struct Completion {
    pub cycle: u8,
    pub tag: u8,
    pub length: u32,
    pub from: u32,
}

// Stays: each public function on the bytes (`Peripheral::unpack`, `hold`, `wait` ..) takes any slice of 64 bytes or more (docs/CONTRACTS.md), and would make a
// struct with that length for the private ones.

// ---- the status bits

fn pc_free(w: Option<Posted>) -> bool
    ensures { result ≡ pc_free w }
{
    w.is_none()
}

impl Np {
    fn is_free(self) -> bool
        ensures { result ≡ np_free self }
    {
        matches!(self, Np::Free)
    }

    #[tactic(auto, unfolding(crate::specs::Upward::upward))]
    fn is_ready(self) -> bool
        ensures { result ≡ pc_avail self }
    {
        matches!(self, Np::Ready(_, _) | Np::Failed(_))
    }
}

fn word_of(write: bool, request: bool, completion: bool) -> u32
    ensures { (result ≡ bit write + bit request * 2 + bit completion * 16) × (result ≤ 19) }
{
    u32::from(write) + u32::from(request) * 2 + u32::from(completion) * 16
}

// ---- what GET_PC hands over (01, Requests, answers, pieces)

impl Request {
    // A completion without data: an I/O write's, or a failure's.
    fn bare(self, cycle: u8) -> Completion
        ensures { result ≡ bare cycle self }
    {
        Completion {
            cycle,
            tag: self.tag,
            length: 0,
            from: 0,
        }
    }

    // The bytes of what is held once `gone` bytes have been handed over: the place is free once the last piece is, and not before.
    fn put_left(self, gone: u32, b: &mut [u8])
        requires { 64 ≤ length b.old }
        ensures { b.new ≡ put 29 (np_bytes (left_of self gone)) b.old }
    {
        let left = if gone == self.length {
            Np::Free
        } else {
            Np::Ready(self, gone)
        };
        base::put_at(b, 29, &left.bytes());
    }

    // The next piece, and the request's bytes after it.
    fn hand_piece(self, sent: u32, b: &mut [u8]) -> Completion
        requires { (64 ≤ length b.old) × (sent < self.length) × (self.length ≤ 4096) × Block self.payload }
        ensures { (result ≡ next_piece self sent) × (b.new ≡ put 29 (np_bytes (after_piece self sent)) b.old) }
    {
        let length = pieces::next_size(self.address, self.length, self.payload, sent);
        let gone = sent + length;
        let mark = pieces::mark_of(sent == 0, gone == self.length);
        let cycle = u8::from(mark);
        self.put_left(gone, b);
        Completion {
            cycle,
            tag: self.tag,
            length,
            from: sent,
        }
    }

    // A completion without data, after which nothing is held.
    fn hand_bare(self, cycle: u8, b: &mut [u8]) -> Completion
        requires { 64 ≤ length b.old }
        ensures { (result ≡ bare cycle self) × (b.new ≡ put 29 (np_bytes Free) b.old) }
    {
        base::put_at(b, 29, &Np::Free.bytes());
        self.bare(cycle)
    }

    fn hand_success(self, sent: u32, b: &mut [u8]) -> Completion
        requires { (64 ≤ length b.old) × (sent < self.length) × (self.length ≤ 4096) × Block self.payload }
        ensures { (result ≡ success_of self.kind self sent) × (b.new ≡ put 29 (np_bytes (after_success self.kind self sent)) b.old) }
    {
        match self.kind {
            Kind::MemoryRead | Kind::IoRead => self.hand_piece(sent, b),
            Kind::IoWrite => self.hand_bare(0x06, b),
        }
    }
}

// ---- soundness (01, Wires, last paragraph)

// "at most the size, and does not cross a block of that size". Blocks divide 4,096 bytes, so the low bits of the address tell its place in one.
pub fn within(address: u64, length: u32, block: u32) -> bool
    requires { Block block }
    ensures { result ≡ within address length block }
{
    let low = (address % 4096) as u32;
    let at = u64::from(pieces::place_in(low, block));
    at + u64::from(length) <= u64::from(block)
}

fn payload_legal(p: u32) -> bool
    ensures { result ≡ payload_legal p }
{
    matches!(p, 64 | 128 | 256)
}

fn read_legal(p: u32) -> bool
    ensures { result ≡ read_legal p }
{
    matches!(p, 64 | 128 | 256 | 512 | 1024 | 2048 | 4096)
}

// An I/O write's bytes are as many as its length.
fn bytes_fit(bytes: u32, length: u32) -> bool
    requires { short_size length ≡ true }
    ensures { result ≡ nat_lt bytes (2 ^ (8 * length)) }
{
    match length {
        1 => bytes < 256,
        2 => bytes < 65536,
        _ => true,
    }
}

// Stays: eight private contracts ask for `Block`, of a request's sizes. A Request is read from any bytes, so it cannot promise it; a second type for those that
// passed `payload_legal` and `read_legal` would hold the same seven fields for the few lines until it is answered.
impl Request {
    fn io_made(self) -> bool
        ensures { result ≡ io_made self }
    {
        (self.tag == 0) & ((self.address < 65536) & matches!(self.length, 1 | 2 | 4))
    }

    // Stays: three rules with conjuncts of their own (`made_as_value` has an equation for each), so no twins.
    fn memory_read_made(self) -> bool
        requires { Block self.readsize }
        ensures { result ≡ made_as_value MemoryRead self }
    {
        (1 <= self.length)
            & (within(self.address, self.length, self.readsize)
                & ((self.tag < 16) & (self.bytes == 0)))
    }

    fn io_read_made(self) -> bool
        requires { Block self.readsize }
        ensures { result ≡ made_as_value IoRead self }
    {
        self.io_made() & (within(self.address, self.length, self.readsize) & (self.bytes == 0))
    }

    fn io_write_made(self) -> bool
        requires { Block self.payload }
        ensures { result ≡ made_as_value IoWrite self }
    {
        self.io_made()
            && (within(self.address, self.length, self.payload)
                & bytes_fit(self.bytes, self.length))
    }

    fn made_as(self) -> bool
        requires { Block self.payload × Block self.readsize }
        ensures { result ≡ made_as_value self.kind self }
    {
        match self.kind {
            Kind::MemoryRead => self.memory_read_made(),
            Kind::IoRead => self.io_read_made(),
            Kind::IoWrite => self.io_write_made(),
        }
    }

    fn made(self) -> bool
        ensures { result ≡ request_made self }
    {
        payload_legal(self.payload) && (read_legal(self.readsize) && self.made_as())
    }

    // "end at a piece's edge, short of the whole"
    fn at_edge(self, sent: u32) -> bool
        requires { Block self.payload }
        ensures { result ≡ sent_right MemoryRead self sent }
    {
        let low = (self.address % 4096) as u32;
        let at = pieces::place_in(low + sent % 4096, self.payload);
        (sent < self.length) & ((sent == 0) | (at == 0))
    }

    fn sent_right(self, sent: u32) -> bool
        requires { Block self.payload }
        ensures { result ≡ sent_right self.kind self sent }
    {
        match self.kind {
            Kind::MemoryRead | Kind::IoRead => self.at_edge(sent),
            Kind::IoWrite => sent == 0,
        }
    }
}

impl Posted {
    fn made(self) -> bool
        ensures { result ≡ write_made self }
    {
        payload_legal(self.payload)
            && ((1 <= self.length) & within(self.address, self.length, self.payload))
    }
}

// ---- the bytes (docs/STATE.md)

impl Posted {
    fn bytes(self) -> [u8; 17]
        ensures { result ≡ write_bytes_value (Some self) }
    {
        let [a0, a1, a2, a3, a4, a5, a6, a7] = self.address.to_le_bytes();
        let [l0, l1, l2, l3] = self.length.to_le_bytes();
        let [p0, p1, p2, p3] = self.payload.to_le_bytes();
        [
            1, a0, a1, a2, a3, a4, a5, a6, a7, l0, l1, l2, l3, p0, p1, p2, p3,
        ]
    }

    fn unpack(b: &[u8]) -> Posted
        requires { 64 ≤ length b.now }
        ensures { result ≡ posted_in b.now }
    {
        Posted {
            address: base::get8(b, 13),
            length: base::get4(b, 21),
            payload: base::get4(b, 25),
        }
    }
}

fn write_bytes(w: Option<Posted>) -> [u8; 17]
    ensures { result ≡ write_bytes_value w }
{
    match w {
        None => [0; 17],
        Some(p) => p.bytes(),
    }
}

fn write_in(b: &[u8]) -> Option<Posted>
    requires { 64 ≤ length b.now }
    ensures { result ≡ write_in b.now }
{
    match b[12] {
        0 => None,
        _ => Some(Posted::unpack(b)),
    }
}

// Stays a match: must-fail/kept_and_cut.edit makes two kinds one number; as discriminants that is no program, so no proof would refuse it.
impl From<Kind> for u8 {
    ghost from_gives = { λ k n. n ≡ kind_number k };

    fn from(k: Kind) -> u8 {
        match k {
            Kind::MemoryRead => 0,
            Kind::IoRead => 1,
            Kind::IoWrite => 2,
        }
    }
}

// Any byte gives a kind, sound or not.
impl From<u8> for Kind {
    ghost from_gives = { λ n k. k ≡ kind_of n };

    fn from(n: u8) -> Kind {
        match n {
            0 => Kind::MemoryRead,
            1 => Kind::IoRead,
            _ => Kind::IoWrite,
        }
    }
}

impl Request {
    fn bytes(self, phase: u8, sent: u32) -> [u8; 31]
        ensures { result ≡ request_bytes phase self sent }
    {
        let kind = u8::from(self.kind);
        let [a0, a1, a2, a3, a4, a5, a6, a7] = self.address.to_le_bytes();
        let [l0, l1, l2, l3] = self.length.to_le_bytes();
        let [p0, p1, p2, p3] = self.payload.to_le_bytes();
        let [r0, r1, r2, r3] = self.readsize.to_le_bytes();
        let [b0, b1, b2, b3] = self.bytes.to_le_bytes();
        let [s0, s1, s2, s3] = sent.to_le_bytes();
        [
            phase, kind, self.tag, a0, a1, a2, a3, a4, a5, a6, a7, l0, l1, l2, l3, p0, p1, p2, p3,
            r0, r1, r2, r3, b0, b1, b2, b3, s0, s1, s2, s3,
        ]
    }

    fn unpack(b: &[u8]) -> Request
        requires { 64 ≤ length b.now }
        ensures { result ≡ request_in b.now }
    {
        Request {
            kind: Kind::from(b[30]),
            address: base::get8(b, 32),
            length: base::get4(b, 40),
            tag: b[31],
            payload: base::get4(b, 44),
            readsize: base::get4(b, 48),
            bytes: base::get4(b, 52),
        }
    }
}

impl Np {
    fn bytes(self) -> [u8; 31]
        ensures { result ≡ np_bytes self }
    {
        match self {
            Np::Free => [0; 31],
            Np::Waiting(q) => q.bytes(1, 0),
            Np::Ready(q, sent) => q.bytes(2, sent),
            Np::Failed(q) => q.bytes(3, 0),
        }
    }

    fn unpack(b: &[u8]) -> Np
        requires { 64 ≤ length b.now }
        ensures { result ≡ np_in b.now }
    {
        match b[29] {
            0 => Np::Free,
            1 => Np::Waiting(Request::unpack(b)),
            2 => Np::Ready(Request::unpack(b), base::get4(b, 56)),
            _ => Np::Failed(Request::unpack(b)),
        }
    }
}

// ---- the bytes tested as they stand: in their one form, and of a sound write or request

fn write_holds(b: &[u8]) -> bool
    requires { 64 ≤ length b.now }
    ensures { result ≡ holds_write b.now }
{
    let w = Posted::unpack(b);
    match b[12] {
        0 => (w.address == 0) & ((w.length == 0) & (w.payload == 0)),
        1 => w.made(),
        _ => false,
    }
}

// Two fields of four bytes are tested as one word.
fn blank(b: &[u8]) -> bool
    requires { 64 ≤ length b.now }
    ensures { result ≡ blank_in b.now }
{
    let address = base::get8(b, 32);
    let sizes = base::get8(b, 40);
    let more = base::get8(b, 48);
    let sent = base::get4(b, 56);
    (b[30] == 0) & ((b[31] == 0) & ((address == 0) & ((sizes == 0) & ((more == 0) & (sent == 0)))))
}

impl Request {
    // A request of bytes with this kind, which may number none: one that a command makes; only after an answer with success bytes are sent.
    fn held_right(self, success: bool, kind: u8, sent: u32) -> bool
        ensures { result ≡ held_right success kind self sent }
    {
        if !self.made() {
            return false;
        }
        if success {
            return (kind <= 2) & self.sent_right(sent);
        }
        (kind <= 2) & (sent == 0)
    }
}

// The three phases of a held request share one test, so that the request is read once and stays in registers.
// Stays: phase and kind are told by their bytes, which may number none; only where this holds are they an `Np` and a `Kind`.
fn request_holds(b: &[u8]) -> bool
    requires { 64 ≤ length b.now }
    ensures { result ≡ holds_request b.now }
{
    let phase = b[29];
    if phase == 0 {
        return blank(b);
    }
    if 3 < phase {
        return false;
    }
    Request::unpack(b).held_right(phase == 2, b[30], base::get4(b, 56))
}

// ---- the channel

impl Peripheral {
    // Nothing held, and this the last serial given.
    pub fn idle(serial: u32) -> Peripheral
        ensures { result ≡ idle serial }
    {
        Peripheral {
            write: None,
            request: Np::Free,
            serial,
        }
    }

    // Held write, request and completions go; the serial stays.
    pub fn dropped(self) -> Peripheral
        ensures { result ≡ dropped self }
    {
        Peripheral::idle(self.serial)
    }

    // Whether bytes of the channel hold no write, and no request.
    pub fn takes_write(b: &[u8]) -> bool
        requires { 64 ≤ length b.now }
        ensures { result ≡ pc_free (write_in b.now) }
    {
        b[12] == 0
    }

    pub fn takes_request(b: &[u8]) -> bool
        requires { 64 ≤ length b.now }
        ensures { result ≡ np_free (np_in b.now) }
    {
        b[29] == 0
    }

    // This write held: its bytes at their place, and no others.
    pub fn hold(w: Posted, b: &mut [u8])
        requires { 64 ≤ length b.old }
        ensures { b.new ≡ put 12 (write_bytes_value (Some w)) b.old }
    {
        base::put_at(b, 12, &w.bytes());
    }

    // This request waits under the next serial, which goes up by one modulo 2^32.
    pub fn wait(q: Request, b: &mut [u8])
        requires { 64 ≤ length b.old }
        ensures { b.new ≡ put 29 (np_bytes (Waiting q) ++ low4 ((number4 60 b.old + 1) % 2 ^ 32)) b.old }
    {
        let last = base::get4(b, 60);
        base::put_at(b, 29, &Np::Waiting(q).bytes());
        base::put_at(b, 60, &last.wrapping_add(1).to_le_bytes());
    }

    // What GET_PC hands over next, and the request's bytes after it; where that is nothing the bytes stay.
    pub fn hand_over(b: &mut [u8]) -> Option<Completion>
        requires { (64 ≤ length b.old) × (sound_request (np_in b.old) ≡ true) }
        ensures { (result ≡ first_of (upward (np_in b.old))) × (b.new ≡ handed_bytes (np_in b.old) b.old) }
    {
        match Np::unpack(b) {
            Np::Free | Np::Waiting(_) => None,
            Np::Ready(q, sent) => Some(q.hand_success(sent, b)),
            Np::Failed(q) => Some(q.hand_bare(0x0E, b)),
        }
    }

    // The channel's word of the status, of its bytes.
    pub fn status_in(b: &[u8]) -> u32
        requires { 64 ≤ length b.now }
        ensures { (result ≡ peripheral_status (peripheral_in b.now)) × (result ≤ 19) }
    {
        word_of(b[12] == 0, b[29] == 0, 1 < b[29])
    }

    pub fn status(self) -> u32
        ensures { (result ≡ peripheral_status self) × (result ≤ 19) }
    {
        let n = self.request;
        word_of(pc_free(self.write), n.is_free(), n.is_ready())
    }

    // Its bytes at their place in `dst`; what is beside them stays.
    pub fn pack(self, dst: &mut [u8])
        requires { 64 ≤ length dst.old }
        ensures { dst.new ≡ put 12 (peripheral_bytes self) dst.old }
    {
        base::put_at(dst, 12, &write_bytes(self.write));
        base::put_at(dst, 29, &self.request.bytes());
        base::put_at(dst, 60, &self.serial.to_le_bytes());
    }

    // The channel whose bytes stand at their place in `b`, sound or not.
    pub fn unpack(b: &[u8]) -> Peripheral
        requires { 64 ≤ length b.now }
        ensures { result ≡ peripheral_in b.now }
    {
        Peripheral {
            write: write_in(b),
            request: Np::unpack(b),
            serial: base::get4(b, 60),
        }
    }

    // Whether its bytes in `b` pack a sound channel, it being on or off.
    pub fn holds(b: &[u8], on: bool) -> bool
        requires { 64 ≤ length b.now }
        ensures { result ≡ holds_peripheral on b.now }
    {
        let nothing = (b[12] == 0) & (b[29] == 0);
        (on | nothing) & (request_holds(b) & write_holds(b))
    }
}
