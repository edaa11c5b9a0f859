// Commands: a row an opcode, what a command's bytes need, and the decoder.
#![tactic(auto)]

ghost use Rattle.std.specs.Prelude.{◌≡◌, true, Some, ◌+◌, ◌^◌, ◌≤◌, ◌<◌, length, get_or};
ghost use Rattle.command.specs.Numbers.{number_of};
ghost use Rattle.command.specs.Rows.{plain, headed, size_of_code, short, row_of};
ghost use Rattle.command.specs.Needs.{channel_on, cycle_listed, wide_cycle, address_bytes, length_of, group_count, all_ff, whole_with_value, need_data, need_row, need_in};
ghost use Rattle.command.specs.Decode.{high_first, address_in, head_of, register_address, register_data, command_of, crc_good, admit};
ghost use Rattle.command.specs.Facts.{Reaches};
ghost use Rattle.command.specs.Refused.{verdict, refused_fixed, refused_short, headed_bytes, refused_headed, refused_reset};

// Why bytes are no command, by document 01's numbers.
#[derive(Clone, Copy, PartialEq, Eq)]
pub enum Refusal {
    LengthWrong = 12,
    OpcodeUnknown = 13,
    ChannelDisabled = 14,
    CycleUnlisted = 15,
    CrcWrong = 16,
}

impl From<Refusal> for u8 {
    ghost from_gives = { λ x n. n ≡ number_of x };

    fn from(x: Refusal) -> u8 {
        x as u8
    }
}

#[derive(Clone, Copy)]
pub enum Access {
    IoRead,
    IoWrite,
    MemoryRead,
    MemoryWrite,
}

// Which command an opcode byte is; a short access has its size in bytes.
#[derive(Clone, Copy)]
pub enum Opcode {
    PutPc,
    GetPc,
    PutNp,
    PutVwire,
    GetVwire,
    GetConfiguration,
    SetConfiguration,
    GetStatus,
    Reset,
    Short(Access, u8),
}

// Which channels are on.
#[derive(Clone, Copy)]
pub struct Channels {
    pub peripheral: bool,
    pub wires: bool,
}

// The channel that a command is for.
#[derive(Clone, Copy)]
pub enum Channel {
    Peripheral,
    Wires,
    Independent,
}

// The cycle types that a command takes: with as many address bytes as its row says, and with 8.
#[derive(Clone, Copy)]
pub struct Cycle {
    pub narrow: u8,
    pub wide: u8,
}

const PUT_PC: Cycle = Cycle {
    narrow: 0x01,
    wide: 0x03,
};

const PUT_NP: Cycle = Cycle {
    narrow: 0x00,
    wide: 0x02,
};

// How many bytes there are between address and CRC.
#[derive(Clone, Copy)]
pub enum Data {
    Fixed(u8),
    // As many as the length in bytes 2 and 3.
    Length,
    // Two for each group counted in byte 1.
    Pairs,
    // Any number of FFh.
    Ones,
}

// How the bytes of a command stand: a header, an address, data, a CRC byte.
#[derive(Clone, Copy)]
pub struct Row {
    pub opcode: Opcode,
    pub channel: Channel,
    pub cycle: Option<Cycle>,
    // So many bytes tell how many there are in all.
    pub told: u8,
    // Where the address begins, and its bytes.
    pub from: u8,
    pub address: u8,
    pub carries: Data,
    pub crc: bool,
}

// What the first bytes of a command need.
#[derive(Clone, Copy)]
pub enum Need {
    // So many bytes in all.
    Whole(u32),
    // So many more before that is known.
    More(u32),
    // RESET: two or more, known only at the end.
    Open,
    // No command begins like this.
    Never(Refusal),
}

// The header of PUT_PC and PUT_NP; wide: 8 address bytes, not 4.
#[derive(Clone, Copy)]
pub struct Head {
    pub wide: bool,
    pub tag: u8,
    pub length: u32,
    pub address: u64,
}

// Where a short access goes, and its size in bytes.
#[derive(Clone, Copy)]
pub struct Span {
    pub address: u64,
    pub size: u8,
}

// A command for the peripheral channel; the data of a write stay in the command's bytes.
#[derive(Clone, Copy)]
pub enum PeripheralCommand {
    PutPc(Head),
    GetPc,
    PutNp(Head),
    Short(Access, Span),
}

// A command for the wires; the pairs of PUT_VWIRE stay in the command's bytes.
#[derive(Clone, Copy)]
pub enum WiresCommand {
    // The group count.
    PutVwire(u32),
    GetVwire,
}

// A decoded command, under the channel that it is for; the last four are for none.
#[derive(Clone, Copy)]
pub enum Command {
    Peripheral(PeripheralCommand),
    Wires(WiresCommand),
    GetConfiguration(u32),
    SetConfiguration(u32, u32),
    GetStatus,
    Reset,
}

// A command's row and its bytes, which reach as far as the row's address.
#[derive(Clone, Copy)]
struct Fields<'a> {
    row: Row,
    b: &'a [u8],
    ghost reaches: { Reaches row b.now },
}

// A command's bytes, one or more, and whether their CRC is checked.
#[derive(Clone, Copy)]
struct Phase<'a> {
    checked: bool,
    b: &'a [u8],
    ghost some: { 1 ≤ length b.now },
}

// ---- rows

fn plain(opcode: Opcode, channel: Channel, address: u8, n: u8) -> Option<Row>
    ensures { result ≡ plain opcode channel address n }
{
    Some(Row {
        opcode,
        channel,
        cycle: None,
        told: 1,
        from: 1,
        address,
        carries: Data::Fixed(n),
        crc: true,
    })
}

fn headed(opcode: Opcode, cycle: Cycle, told: u8, carries: Data) -> Option<Row>
    ensures { result ≡ headed opcode cycle.narrow cycle.wide told carries }
{
    Some(Row {
        opcode,
        channel: Channel::Peripheral,
        cycle: Some(cycle),
        told,
        from: 4,
        address: 4,
        carries,
        crc: true,
    })
}

fn size_of_code(c: u8) -> u8
    ensures { result ≡ size_of_code c }
{
    match c {
        0 => 1,
        1 => 2,
        _ => 4,
    }
}

// Stays: the definition `short` (specs/Rows) is told address and writes too; made here from the access they would be one more match over it, and a law.
fn short(a: Access, address: u8, writes: bool, c: u8) -> Option<Row>
    ensures { result ≡ short a address writes c }
{
    if c == 2 {
        return None;
    }
    let n = size_of_code(c);
    if writes {
        return plain(Opcode::Short(a, n), Channel::Peripheral, address, n);
    }
    plain(Opcode::Short(a, n), Channel::Peripheral, address, 0)
}

fn row_of(op: u8) -> Option<Row>
    ensures { result ≡ row_of op }
{
    match op {
        0x00 => headed(Opcode::PutPc, PUT_PC, 4, Data::Length),
        0x01 => plain(Opcode::GetPc, Channel::Peripheral, 0, 0),
        0x02 => headed(Opcode::PutNp, PUT_NP, 2, Data::Fixed(0)),
        0x04 => Some(Row {
            opcode: Opcode::PutVwire,
            channel: Channel::Wires,
            cycle: None,
            told: 2,
            from: 2,
            address: 0,
            carries: Data::Pairs,
            crc: true,
        }),
        0x05 => plain(Opcode::GetVwire, Channel::Wires, 0, 0),
        0x21 => plain(Opcode::GetConfiguration, Channel::Independent, 2, 0),
        0x22 => plain(Opcode::SetConfiguration, Channel::Independent, 2, 4),
        0x25 => plain(Opcode::GetStatus, Channel::Independent, 0, 0),
        0x40..=0x43 => short(Access::IoRead, 2, false, op % 4),
        0x44..=0x47 => short(Access::IoWrite, 2, true, op % 4),
        0x48..=0x4B => short(Access::MemoryRead, 4, false, op % 4),
        0x4C..=0x4F => short(Access::MemoryWrite, 4, true, op % 4),
        0xFF => Some(Row {
            opcode: Opcode::Reset,
            channel: Channel::Independent,
            cycle: None,
            told: 1,
            from: 1,
            address: 0,
            carries: Data::Ones,
            crc: false,
        }),
        _ => None,
    }
}

// ---- what the row says of the bytes

// The byte at a place, or 0 past the end.
// Stays: `get` gives an Option of a reference, which archives for 32-bit cores do not carry (docs/CONTRIBUTING.md, last section).
fn byte_at(b: &[u8], i: usize) -> u8
    ensures { result ≡ get_or b.now i 0 }
{
    if i < b.len() { b[i] } else { 0 }
}

impl Cycle {
    fn lists(self, t: u8) -> bool
        ensures { result ≡ cycle_listed (Some self) t }
    {
        (t == self.narrow) | (t == self.wide)
    }
}

impl Channels {
    fn has(self, k: Channel) -> bool
        ensures { result ≡ channel_on self k }
    {
        match k {
            Channel::Peripheral => self.peripheral,
            Channel::Wires => self.wires,
            Channel::Independent => true,
        }
    }
}

fn length_of(hi: u8, lo: u8) -> u32
    ensures { (result ≡ length_of hi lo) × (result ≤ 4096) }
{
    match base::from_high2(hi % 16, lo) {
        0 => 4096,
        n => n,
    }
}

fn group_count(c: u8) -> u32
    ensures { (result ≡ group_count c) × (result ≤ 64) }
{
    u32::from(c) % 64 + 1
}

// Stays a `for`: `iter().all` gives each byte as an Option of a reference, which archives for 32-bit cores do not carry (docs/CONTRIBUTING.md, last section).
fn all_ff(b: &[u8]) -> bool
    ensures { result ≡ all_ff b.now }
{
    for x in b {
        if *x != 0xFF {
            return false;
        }
    }
    true
}

fn high_first(n: u8, at: u8, b: &[u8]) -> u64
    requires { (n ≤ 8) × (at + n ≤ length b.now) }
    ensures { (result ≡ high_first n at b.now) × (result < 256 ^ n) }
{
    let from = usize::from(at);
    let mut v: u64 = 0;
    for x in &b[from..from + usize::from(n)] {
        v = v * 256 + u64::from(*x);
    }
    v
}

fn register_data(b: &[u8]) -> u32
    ensures { result ≡ register_data b.now }
{
    base::join4(byte_at(b, 3), byte_at(b, 4), byte_at(b, 5), byte_at(b, 6))
}

impl Row {
    // ---- which bytes

    fn cycle_listed(self, b: &[u8]) -> bool
        ensures { result ≡ cycle_listed self.cycle (get_or b.now 1 0) }
    {
        let t = byte_at(b, 1);
        self.cycle.is_none_or(|c| c.lists(t))
    }

    fn wide_cycle(self, b: &[u8]) -> bool
        ensures { result ≡ wide_cycle self.cycle (get_or b.now 1 0) }
    {
        let t = byte_at(b, 1);
        self.cycle.is_some_and(|c| t == c.wide)
    }

    fn address_bytes(self, b: &[u8]) -> u8
        ensures { result ≡ address_bytes self b.now }
    {
        if self.wide_cycle(b) { 8 } else { self.address }
    }

    // ---- how many bytes

    fn whole_with(self, b: &[u8], n: u32) -> u32
        requires { n ≤ 4096 }
        ensures { result ≡ whole_with_value self b.now n }
    {
        u32::from(self.from) + u32::from(self.address_bytes(b)) + n + u32::from(self.crc)
    }

    fn need_data(self, b: &[u8]) -> Need
        ensures { result ≡ need_data self b.now self.carries }
    {
        match self.carries {
            Data::Fixed(n) => Need::Whole(self.whole_with(b, u32::from(n))),
            Data::Length => Need::Whole(self.whole_with(
                b,
                length_of(byte_at(b, 2), byte_at(b, 3)),
            )),
            Data::Pairs => Need::Whole(self.whole_with(b, group_count(byte_at(b, 1)) * 2)),
            Data::Ones if all_ff(b) => Need::Open,
            Data::Ones => Need::Never(Refusal::OpcodeUnknown),
        }
    }

    fn need(self, on: Channels, b: &[u8]) -> Need
        ensures { result ≡ need_row on b.now self }
    {
        if !on.has(self.channel) {
            return Need::Never(Refusal::ChannelDisabled);
        }
        if !self.cycle_listed(b) & (1 < b.len()) {
            return Need::Never(Refusal::CycleUnlisted);
        }
        if b.len() < usize::from(self.told) {
            return Need::More(u32::from(self.told) - b.len() as u32);
        }
        self.need_data(b)
    }
}

// ---- the fields of a command

impl Fields<'_> {
    fn address(self) -> u64
        ensures { result ≡ address_in self.entry.row self.entry.b.now }
    {
        high_first(self.row.address_bytes(self.b), self.row.from, self.b)
    }

    fn head(self) -> Head
        ensures { result ≡ head_of self.entry.row self.entry.b.now }
    {
        let b = self.b;
        Head {
            wide: self.row.wide_cycle(b),
            tag: byte_at(b, 2) / 16,
            length: length_of(byte_at(b, 2), byte_at(b, 3)),
            address: self.address(),
        }
    }

    fn register_address(self) -> u32
        ensures { result ≡ register_address self.entry.row self.entry.b.now }
    {
        (high_first(self.row.address, self.row.from, self.b) as u32) / 4 % 1024 * 4
    }

    fn command(self) -> Command
        ensures { result ≡ command_of self.entry.row self.entry.b.now }
    {
        let b = self.b;
        match self.row.opcode {
            Opcode::PutPc => Command::Peripheral(PeripheralCommand::PutPc(self.head())),
            Opcode::GetPc => Command::Peripheral(PeripheralCommand::GetPc),
            Opcode::PutNp => Command::Peripheral(PeripheralCommand::PutNp(self.head())),
            Opcode::PutVwire => Command::Wires(WiresCommand::PutVwire(group_count(byte_at(b, 1)))),
            Opcode::GetVwire => Command::Wires(WiresCommand::GetVwire),
            Opcode::GetConfiguration => Command::GetConfiguration(self.register_address()),
            Opcode::SetConfiguration => Command::SetConfiguration(
                self.register_address(),
                register_data(b),
            ),
            Opcode::GetStatus => Command::GetStatus,
            Opcode::Reset => Command::Reset,
            Opcode::Short(a, n) => Command::Peripheral(PeripheralCommand::Short(
                a,
                Span {
                    address: self.address(),
                    size: n,
                },
            )),
        }
    }
}

// What the first bytes of a command need.
pub fn need_in(on: Channels, b: &[u8]) -> Need
    ensures { result ≡ need_in on b.now }
{
    let [opcode, ..] = b else {
        return Need::More(1);
    };
    match row_of(*opcode) {
        Some(r) => r.need(on, b),
        None => Need::Never(Refusal::OpcodeUnknown),
    }
}

// ---- the decoder

fn crc_good(b: &[u8]) -> bool
    requires { 1 ≤ length b.now }
    ensures { result ≡ crc_good b.now }
{
    let n = b.len() - 1;
    crc::crc_of(&b[..n]) == b[n]
}

fn headed_bytes(b: &[u8], wide: u8, writes: bool) -> usize
    requires { 4 ≤ length b.now }
    ensures { result ≡ headed_bytes b.now wide writes }
{
    let n = if b[1] == wide { 13 } else { 9 };
    if writes {
        return n + length_of(b[2], b[3]) as usize;
    }
    n
}

// What refuses the bytes, by how many their command has; on: its channel is.
// `fixed` and `short` are inlined at each call: out of line each call has a `Phase` of its own in memory, and an exchange took 72 bytes more of stack on
// Cortex-M4, 80 on RISC-V 32.
impl Phase<'_> {
    // Of n bytes in all.
    #[inline(always)]
    fn fixed(self, on: bool, n: usize) -> Result<(), Refusal>
        ensures { result ≡ refused_fixed on self.entry.checked self.entry.b.now n }
    {
        if !on {
            return Err(Refusal::ChannelDisabled);
        }
        if self.b.len() != n {
            return Err(Refusal::LengthWrong);
        }
        if self.checked && !crc_good(self.b) {
            return Err(Refusal::CrcWrong);
        }
        Ok(())
    }

    // A short access; c: its C1C0.
    #[inline(always)]
    fn short(self, on: bool, n: usize, c: u8) -> Result<(), Refusal>
        ensures { result ≡ refused_short on self.entry.checked self.entry.b.now n c }
    {
        if c == 2 {
            return Err(Refusal::OpcodeUnknown);
        }
        self.fixed(on, n)
    }

    // PUT_PC and PUT_NP: the cycle type first, then the length that the header tells.
    fn headed(self, on: bool, cycle: Cycle, writes: bool) -> Result<(), Refusal>
        ensures { result ≡ refused_headed on self.entry.checked self.entry.b.now cycle.narrow cycle.wide writes }
    {
        let b = self.b;
        if !on {
            return Err(Refusal::ChannelDisabled);
        }
        if b.len() < 2 {
            return Err(Refusal::LengthWrong);
        }
        if !cycle.lists(b[1]) {
            return Err(Refusal::CycleUnlisted);
        }
        if b.len() < 4 {
            return Err(Refusal::LengthWrong);
        }
        self.fixed(on, headed_bytes(b, cycle.wide, writes))
    }
}

fn refused_reset(b: &[u8]) -> Result<(), Refusal>
    ensures { result ≡ refused_reset b.now }
{
    if !all_ff(b) | (b.len() < 2) {
        return Err(Refusal::OpcodeUnknown);
    }
    Ok(())
}

// What refuses a command, by one match over the opcode before its row is made: so the lengths are numbers that the compiler knows.
fn refused_in(on: Channels, checked: bool, b: &[u8]) -> Result<(), Refusal>
    requires { 1 ≤ length b.now }
    ensures { result ≡ verdict (admit on checked b.now) }
{
    let phase = Phase { checked, b };
    let op = b[0];
    match op {
        0x00 => phase.headed(on.peripheral, PUT_PC, true),
        0x01 => phase.fixed(on.peripheral, 2),
        0x02 => phase.headed(on.peripheral, PUT_NP, false),
        0x04 => phase.fixed(on.wires, 3 + 2 * (group_count(byte_at(b, 1)) as usize)),
        0x05 => phase.fixed(on.wires, 2),
        0x21 => phase.fixed(true, 4),
        0x22 => phase.fixed(true, 8),
        0x25 => phase.fixed(true, 2),
        0x40..=0x43 => phase.short(on.peripheral, 4, op % 4),
        0x44..=0x47 => phase.short(on.peripheral, 4 + usize::from(size_of_code(op % 4)), op % 4),
        0x48..=0x4B => phase.short(on.peripheral, 6, op % 4),
        0x4C..=0x4F => phase.short(on.peripheral, 6 + usize::from(size_of_code(op % 4)), op % 4),
        0xFF => refused_reset(b),
        _ => Err(Refusal::OpcodeUnknown),
    }
}

// The command that the bytes are, or why they are none: the first refusal that applies, in document 01's order.
pub fn admit(on: Channels, checked: bool, b: &[u8]) -> Result<Command, Refusal>
    ensures { result ≡ admit on checked b.now }
{
    let [op, ..] = b else {
        return Err(Refusal::LengthWrong); // not even an opcode
    };
    refused_in(on, checked, b)?;
    let Some(row) = row_of(*op) else {
        // What has no row is refused above.
        return Err(Refusal::OpcodeUnknown);
    };
    Ok(Fields { row, b }.command())
}
