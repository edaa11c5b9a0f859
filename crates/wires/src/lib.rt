// Virtual wires: the table of six rows, the six groups by value, and what waits to be sent. The interrupt lines are in lines.rt, a packet's going round is in
// sending.rt.
#![tactic(auto)]

pub mod lines;
mod sending;

ghost use Rattle.std.specs.Prelude.{◌≡◌, true, false, ◌+◌, ◌-◌, ◌*◌, ◌≤◌, ◌<◌, length, take, ◌++◌};
ghost use Rattle.base.specs.Bytes.{put, low4, low8};
ghost use Rattle.wires.specs.Table.{senders, is_up};
ghost use Rattle.wires.specs.Groups.{pair_at, fresh_wires, with_group, nibble, defined_bit, settable, set_wire, read_wire, remarked, enabled, disabled, reset_group, platform_wires, in_row};
ghost use Rattle.wires.specs.Transitions.{putting};
ghost use Rattle.wires.specs.Course.{course_of, counted, past_pair, with_level, with_levels, Small};
ghost use Rattle.wires.specs.Going.{Sendable, PacketSent};
ghost use Rattle.wires.specs.Layout.{wires_bytes, wires_in, all_in, holds_wires, holds_all, levels_fit, marks_in};
ghost use Rattle.wires.specs.Senders.{any_pending, wires_status};

#[derive(Clone, Copy)]
pub struct WireRow {
    pub index: u8,
    pub down: bool,
    pub defined: u8,
    pub reset: u8,
}

pub const TABLE: [WireRow; 6] = [
    WireRow {
        index: 2,
        down: true,
        defined: 0x7,
        reset: 0x0,
    },
    WireRow {
        index: 3,
        down: true,
        defined: 0x7,
        reset: 0x0,
    },
    WireRow {
        index: 4,
        down: false,
        defined: 0xD,
        reset: 0xC,
    },
    WireRow {
        index: 5,
        down: false,
        defined: 0xF,
        reset: 0x0,
    },
    WireRow {
        index: 6,
        down: false,
        defined: 0xF,
        reset: 0x7,
    },
    WireRow {
        index: 7,
        down: true,
        defined: 0x7,
        reset: 0x6,
    },
];

// Where going round begins: "from 4 itself", the first sender behind the lines.
const FIRST_PLACE: u32 = 256;

// The wires that the host drives, the defined bits of the down groups, in one word: bit k of group i is its bit i * 4 + k.
const HOST_WIRES: u32 = 0x70007700;

// Index i stands at place i - 2 of both arrays; `place` is the sender that the next GET_VWIRE begins with: a line, or 252 more than a group.
// Stays: two lists, the form that document 01 names ("an array of six nibbles and one of pending marks"); `Put` (`marks`) and Wires/Rows in
// rules/specs/Statements speak of them.
#[derive(Clone, Copy)]
pub struct Wires {
    pub level: [u8; 6],
    pub pending: [bool; 6],
    pub place: u32,
}

// Why a PUT_VWIRE's pairs are refused: one of the wires has a third transition. The wires that all pairs would make are told beside it.
#[derive(Clone, Copy)]
pub struct ThirdTransition {
    pub next: Wires,
}

// The host's wires on their way through a packet: the value of each, and which have changed once, twice and a third time.
#[derive(Clone, Copy)]
pub struct Course {
    pub level: u32,
    pub once: u32,
    pub twice: u32,
    pub third: u32,
}

// What a GET_VWIRE sends, over the wires as they were: going round from a place, as many entries as fit.
#[derive(Clone, Copy)]
pub struct Packet {
    pub place: u32,
    pub capacity: u32,
}

// Going round once: the sender asked next, how many are still to be asked, the entries that still fit, where the next one is written, and the place behind
// the last one sent.
#[derive(Clone, Copy)]
pub struct Going {
    pub sender: usize,
    pub left: usize,
    pub room: usize,
    pub at: usize,
    pub place: usize,
}

// Four bits: those of `val` where the mask has ones, those of `old` elsewhere.
fn nibble_of(old: u8, val: u8, mask: u8) -> u8
    requires { mask ≤ 15 }
    ensures { result ≡ nibble old val mask }
{
    (old & (15 - mask)) | (val & mask)
}

impl Course {
    // These wires have one more transition: the third of those that had two.
    fn counted(self, changed: u32) -> Course
        ensures { result ≡ counted self changed }
    {
        Course {
            level: self.level ^ changed,
            once: self.once | changed,
            twice: self.twice | (self.once & changed),
            third: self.third | (self.twice & changed),
        }
    }

    // "A transition is a value differing from the one just before": of valid and defined bits of down groups.
    fn past(self, index: u8, byte: u8) -> Course
        ensures { result ≡ past_pair self index byte }
    {
        if 7 < index {
            return self;
        }
        let at = u32::from(index) * 4;
        let value = u32::from(byte % 16) << at;
        let valid = (u32::from(byte / 16) << at) & HOST_WIRES;
        self.counted((self.level ^ value) & valid)
    }
}

// Index and data of a group, "with all defined bits valid"; the compiler knows each row.
pub fn pair(group: u8, level: u8) -> [u8; 2]
    requires { (is_up group ≡ true) × (level < 16) }
    ensures { result ≡ pair_at group level }
{
    match group {
        4 => [group, TABLE[2].defined * 16 + level],
        5 => [group, TABLE[3].defined * 16 + level],
        _ => [group, TABLE[4].defined * 16 + level],
    }
}

pub fn defined_bit(index: u32, bit: u32) -> bool
    ensures { result ≡ defined_bit index bit }
{
    if index < 2 {
        return false;
    }
    if 7 < index {
        return false;
    }
    if 4 <= bit {
        return false;
    }
    let at = (index - 2) as usize;
    (TABLE[at].defined >> bit) % 2 == 1
}

pub fn settable(index: u32, bit: u32, value: u32) -> bool
    ensures { result ≡ settable index bit value }
{
    if !defined_bit(index, bit) {
        return false;
    }
    let at = (index - 2) as usize;
    !TABLE[at].down & (value <= 1)
}

// Stays: an index and a bit are numbers as the C interface has them, and public functions here and in the engine take any; `2 ≤ index` and `index ≤ 7` are
// asked for by three private ones, whose callers name the group, count it from the table or have tested it.
impl Wires {
    pub fn fresh() -> Wires
        ensures { result ≡ fresh_wires }
    {
        Wires {
            level: TABLE.map(|row| row.reset),
            pending: [false; 6],
            place: FIRST_PLACE,
        }
    }

    // The one place where the wires change: a group's level and mark, and the place.
    fn with(self, index: usize, level: u8, mark: bool, place: u32) -> Wires
        requires { (2 ≤ index) × (index ≤ 7) }
        ensures { result ≡ with_group self index level mark place }
    {
        let i = index - 2;
        let mut next = Wires { place, ..self };
        next.level[i] = level;
        next.pending[i] = mark;
        next
    }

    // No wire of the host's has changed yet.
    fn course(self) -> Course
        requires { Small self }
        ensures { result ≡ course_of self }
    {
        let two = u32::from(self.level[0]) << 8;
        let three = u32::from(self.level[1]) << 12;
        let seven = u32::from(self.level[5]) << 28;
        Course {
            level: two | three | seven,
            once: 0,
            twice: 0,
            third: 0,
        }
    }

    fn with_level(self, index: usize, level: u8) -> Wires
        requires { (2 ≤ index) × (index ≤ 7) }
        ensures { result ≡ with_level self index level }
    {
        self.with(index, level, self.pending[index - 2], self.place)
    }

    // The levels that the host's wires have in a word.
    fn with_levels(self, word: u32) -> Wires
        ensures { result ≡ with_levels self word }
    {
        let two = self.with_level(2, ((word >> 8) % 16) as u8);
        let three = two.with_level(3, ((word >> 12) % 16) as u8);
        three.with_level(7, ((word >> 28) % 16) as u8)
    }

    // One pass over the pairs; the wires change after it, at once.
    pub fn put(self, bytes: &[u8]) -> Result<Wires, ThirdTransition>
        requires { Small self }
        ensures { result ≡ putting self bytes.now }
    {
        let mut course = self.course();
        let (pairs, _) = bytes.as_chunks::<2>();
        for [index, byte] in pairs {
            course = course.past(*index, *byte);
        }
        let next = self.with_levels(course.level);
        if course.third != 0 {
            return Err(ThirdTransition { next });
        }
        Ok(next)
    }

    pub fn set(self, on: bool, index: u32, bit: u32, value: u32) -> Wires
        requires { settable index bit value ≡ true }
        ensures { result ≡ set_wire on self index bit value }
    {
        let at = (index - 2) as usize;
        let old = self.level[at];
        let level = nibble_of(old, (value as u8) << bit, 1 << bit);
        self.with(
            index as usize,
            level,
            self.pending[at] | (on & (level != old)),
            self.place,
        )
    }

    pub fn read(self, index: u32, bit: u32) -> u32
        requires { defined_bit index bit ≡ true }
        ensures { result ≡ read_wire self index bit }
    {
        let at = (index - 2) as usize;
        u32::from((self.level[at] >> bit) % 2)
    }

    // Each mark anew: that of an up group that differs from its reset value, or none.
    fn remarked(self, on: bool, place: u32) -> Wires
        ensures { result ≡ remarked on self place }
    {
        let mut next = self;
        for (i, row) in TABLE.iter().enumerate() {
            let mark = on & (!row.down & (self.level[i] != row.reset));
            next = next.with(i + 2, self.level[i], mark, place);
        }
        next
    }

    // "Enabling it from disabled makes each up group pending that differs from its reset value."
    pub fn enabled(self) -> Wires
        ensures { result ≡ enabled self }
    {
        self.remarked(true, self.place)
    }

    pub fn disabled(self) -> Wires
        ensures { result ≡ disabled self }
    {
        self.remarked(false, FIRST_PLACE)
    }

    fn reset_group(self, index: usize) -> Wires
        requires { (2 ≤ index) × (index ≤ 7) }
        ensures { result ≡ reset_group self index }
    {
        self.with(index, TABLE[index - 2].reset, false, FIRST_PLACE)
    }

    pub fn platform(self) -> Wires
        ensures { result ≡ platform_wires self }
    {
        self.reset_group(6).reset_group(7)
    }

    // Stays: a byte a place, as docs/STATE.md has them.
    fn bytes(self) -> [u8; 14]
        ensures { result ≡ wires_bytes self }
    {
        let place = self.place.to_le_bytes();
        [
            self.level[0],
            self.level[1],
            self.level[2],
            self.level[3],
            self.level[4],
            self.level[5],
            u8::from(self.pending[0]),
            u8::from(self.pending[1]),
            u8::from(self.pending[2]),
            u8::from(self.pending[3]),
            u8::from(self.pending[4]),
            u8::from(self.pending[5]),
            place[0],
            place[1],
        ]
    }

    // Their bytes at their place in `dst`; what is beside them stays.
    pub fn pack(self, dst: &mut [u8])
        requires { 174 ≤ length dst.old }
        ensures { dst.new ≡ put 64 (wires_bytes self) dst.old }
    {
        let bytes = self.bytes();
        base::put_at(dst, 64, &bytes);
    }

    // The wires whose bytes stand at their place in `b`, sound or not.
    pub fn unpack(b: &[u8]) -> Wires
        requires { 174 ≤ length b.now }
        ensures { result ≡ wires_in b.now }
    {
        Wires {
            level: [b[64], b[65], b[66], b[67], b[68], b[69]],
            pending: [b[70], b[71], b[72], b[73], b[74], b[75]].map(|mark| mark == 1),
            place: base::join2(b[76], b[77]),
        }
    }

    // A group's mark, or a line that waits.
    pub fn any_pending(b: &[u8]) -> bool
        requires { 174 ≤ length b.now }
        ensures { result ≡ any_pending (all_in b.now) }
    {
        lines::any_line(b) | ((b[72] == 1) | ((b[73] == 1) | (b[74] == 1)))
    }

    // The channel's word of the status, of its bytes. Bit 2, VWIRE_FREE, is always 1.
    pub fn status_in(b: &[u8]) -> u32
        requires { 174 ≤ length b.now }
        ensures { (result ≡ wires_status (all_in b.now)) × (result ≤ 68) }
    {
        4 + u32::from(Wires::any_pending(b)) * 64
    }

    // Whether the groups' bytes in `b` pack sound ones, the channel being on or off: eight bytes are tested at a time.
    fn groups_hold(b: &[u8], on: bool) -> bool
        requires { 174 ≤ length b.now }
        ensures { result ≡ holds_wires on b.now }
    {
        let low = base::get8(b, 64);
        let high = base::get4(b, 72);
        let place = base::join2(b[76], b[77]);
        levels_fit(low) & (marks_fit(on, low, high) & (place < 259))
    }

    // Whether all of the channel's bytes in `b` pack sound wires, with this operating count.
    pub fn holds(b: &[u8], on: bool, count: u32) -> bool
        requires { 174 ≤ length b.now }
        ensures { result ≡ holds_all on count b.now }
    {
        Wires::groups_hold(b, on) & lines::lines_hold(b, on, count)
    }
}

fn in_row(k: usize, level: u8) -> bool
    requires { k < 6 }
    ensures { result ≡ in_row k level }
{
    (level & (15 - TABLE[k].defined) == 0) & (level < 16)
}

// The levels are the low six bytes.
// Stays: a row each, as the definition has them; every call but a start goes through here, and so the masks are numbers that the compiler knows.
fn levels_fit(low: u64) -> bool
    ensures { result ≡ levels_fit (low8 low) }
{
    let levels = low.to_le_bytes();
    in_row(0, levels[0])
        & in_row(1, levels[1])
        & in_row(2, levels[2])
        & in_row(3, levels[3])
        & in_row(4, levels[4])
        & in_row(5, levels[5])
}

// The marks are the two bytes above them, and four more.
fn marks_fit(on: bool, low: u64, high: u32) -> bool
    ensures { result ≡ marks_in on (low8 low ++ low4 high) }
{
    let [.., a, b] = low.to_le_bytes();
    let [c, d, e, f] = high.to_le_bytes();
    (a == 0)
        & ((b == 0)
            & ((f == 0)
                & ((c <= 1) & ((d <= 1) & ((e <= 1) & (on | ((c == 0) & ((d == 0) & (e == 0)))))))))
}

// A packet's entries into the reply, behind its count; the senders' marks go, and the next packet begins behind the last of them. How many entries they are.
pub fn send(state: &mut [u8], reply: &mut [u8], p: Packet) -> usize
    requires { Sendable state.old reply.old p }
    ensures { PacketSent state.old reply.old p state.new reply.new result }
{
    let mut g = Going {
        sender: p.place as usize,
        left: sending::left_for(p.capacity as usize, 259),
        room: p.capacity as usize,
        at: 2,
        place: base::join2(state[76], state[77]) as usize,
    };
    // Stays: no index is counted here; a step passes over as many senders as it finds quiet, and what is left falls by those.
    while 0 < g.left {
        g = sending::step(state, reply, g);
    }
    let place = g.place.to_le_bytes();
    state[76] = place[0];
    state[77] = place[1];
    (g.at - 2) / 2
}
