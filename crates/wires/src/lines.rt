// Interrupt lines, where they stand in a state's bytes: three maps of 32 bytes, line n in byte n / 8, bit n mod 8. They are never handed on by value.
ghost use Rattle.std.specs.Prelude.{◌≡◌, true, ◌-◌, ◌≤◌, ◌<◌, length, take};
ghost use Rattle.base.specs.Bytes.{put};
ghost use Rattle.wires.specs.Table.{is_line};
ghost use Rattle.wires.specs.Lines.{byte_with, no_lines, line_value, line_bit, any_bit, any_edge, line_level_ok, set_line, pulse_line, raised, dropped, sound_lines, map_in, lines_in, lines_bytes};
ghost use Rattle.wires.specs.LineCode.{bit_put, three_empty};
ghost use Rattle.wires.specs.LineWords.{mask_of, wrong_in};

pub(crate) const LEVELS: usize = 78;

pub(crate) const WAITS: usize = 110;

pub(crate) const EDGES: usize = 142;

// Stays: of these functions the eight public ones take any slice of 174 bytes or more (docs/CONTRACTS.md), so each would make a struct with that length for the
// nine private ones; and three ask `is_line` of a number that may be none. The private ones ask for `line < 256`: with a `u8` the sender that goes round, up to
// 258, would be cut at each call. A map is told by the place of its first byte, as `map_in` has it; by an enum each of the definitions would be asked for that
// place.

// A line's bit of the map that begins at a byte.
pub(crate) fn value_at(b: &[u8], map: usize, line: usize) -> u8
    requires { (174 ≤ length b.now) × (map ≤ 142) × (line < 256) }
    ensures { (result ≡ line_value (map_in map b.now) line) × (result ≤ 1) }
{
    (b[map + line / 8] >> (line % 8)) % 2
}

// .. as a test.
pub(crate) fn bit_at(b: &[u8], map: usize, line: usize) -> bool
    requires { (174 ≤ length b.now) × (map ≤ 142) × (line < 256) }
    ensures { result ≡ line_bit (map_in map b.now) line }
{
    value_at(b, map, line) == 1
}

fn byte_with(byte: u8, k: usize, on: bool) -> u8
    requires { k < 8 }
    ensures { result ≡ byte_with byte k on }
{
    let bit: u8 = 1 << k;
    if on {
        return byte | bit;
    }
    byte & (255 - bit)
}

// One byte changes.
pub(crate) fn put_bit(b: &mut [u8], map: usize, line: usize, on: bool)
    requires { (174 ≤ length b.old) × (map ≤ 142) × (line < 256) }
    ensures { b.new ≡ bit_put map b.old line on }
{
    let at = map + line / 8;
    b[at] = byte_with(b[at], line % 8, on);
}

pub fn line_waits(b: &[u8], line: u32) -> bool
    requires { (174 ≤ length b.now) × (is_line line ≡ true) }
    ensures { result ≡ line_bit (lines_in b.now).waits line }
{
    bit_at(b, WAITS, line as usize)
}

// What waits is an edge.
pub fn edge_waits(b: &[u8], line: u32) -> bool
    requires { (174 ≤ length b.now) × (is_line line ≡ true) }
    ensures { result ≡ line_bit (lines_in b.now).edges line }
{
    bit_at(b, EDGES, line as usize)
}

// "The board raises and lowers a line": a real change makes it wait while the channel is on.
pub fn set_line(b: &mut [u8], on: bool, line: u32, level: u32)
    requires { (174 ≤ length b.old) × (line_level_ok line level ≡ true) }
    ensures { b.new ≡ put 78 (lines_bytes (set_line on (lines_in b.old) line level)) b.old }
{
    let at = line as usize;
    if u32::from(value_at(b, LEVELS, at)) == level {
        return;
    }
    put_bit(b, LEVELS, at, level == 1);
    if !on {
        return;
    }
    put_bit(b, WAITS, at, true);
}

// "or asks for an edge": the line waits, and the level stays.
pub fn pulse_line(b: &mut [u8], line: u32)
    requires { (174 ≤ length b.old) × (is_line line ≡ true) }
    ensures { b.new ≡ put 78 (lines_bytes (pulse_line (lines_in b.old) line)) b.old }
{
    let n = line as usize;
    put_bit(b, WAITS, n, true);
    put_bit(b, EDGES, n, true);
}

// The maps from one on are cleared.
fn clear_from(b: &mut [u8], map: usize)
    requires { (174 ≤ length b.old) × (78 ≤ map) × (map ≤ 174) }
    ensures { b.new ≡ put map (take (174 - map) three_empty) b.old }
{
    b[map..174].fill(0);
}

// The waits become the levels.
// Stays a `for`: in archives for 32-bit cores the library's `copy_within` copies wrongly (docs/CONTRIBUTING.md, last section).
fn levels_wait(b: &mut [u8])
    requires { 174 ≤ length b.old }
    ensures { b.new ≡ put 110 (map_in 78 b.old) b.old }
{
    for i in 0..32 {
        b[WAITS + i] = b[LEVELS + i];
    }
}

// "Enabling channel 1 makes every high line pending."
pub fn raise_lines(b: &mut [u8])
    requires { 174 ≤ length b.old }
    ensures { b.new ≡ put 78 (lines_bytes (raised (lines_in b.old))) b.old }
{
    levels_wait(b);
    clear_from(b, EDGES);
}

pub fn drop_lines(b: &mut [u8])
    requires { 174 ≤ length b.old }
    ensures { b.new ≡ put 78 (lines_bytes (dropped (lines_in b.old))) b.old }
{
    clear_from(b, WAITS);
}

// "Both resets lower all lines and drop their waits and edges."
pub fn clear_lines(b: &mut [u8])
    requires { 174 ≤ length b.old }
    ensures { b.new ≡ put 78 (lines_bytes no_lines) b.old }
{
    clear_from(b, LEVELS);
}

// Four words.
// Stays: unrolled, since every reply with a status goes through here: so the places are numbers that the compiler knows.
fn any_in(b: &[u8], map: usize) -> bool
    requires { (174 ≤ length b.now) × (map ≤ 142) }
    ensures { result ≡ any_bit (map_in map b.now) }
{
    (base::get8(b, map) != 0)
        | ((base::get8(b, map + 8) != 0)
            | ((base::get8(b, map + 16) != 0) | (base::get8(b, map + 24) != 0)))
}

pub(crate) fn any_line(b: &[u8]) -> bool
    requires { 174 ≤ length b.now }
    ensures { result ≡ any_bit (lines_in b.now).waits }
{
    any_in(b, WAITS)
}

pub fn any_edge(b: &[u8]) -> bool
    requires { 174 ≤ length b.now }
    ensures { result ≡ any_edge (lines_in b.now) }
{
    any_in(b, EDGES)
}

// All ones or none.
fn mask_of(b: bool) -> u64
    ensures { result ≡ mask_of b }
{
    if b { u64::MAX } else { 0 }
}

// What is wrong in eight bytes of the maps: an edge that does not wait or has no room, and what may not wait. It is one word, so that all are tested
// at once.
fn wrong_in(b: &[u8], k: usize, live: u64, room: u64) -> u64
    requires { (174 ≤ length b.now) × (k ≤ 24) }
    ensures { result ≡ wrong_in k live room b.now }
{
    let edges = base::get8(b, EDGES + k);
    let waits = base::get8(b, WAITS + k);
    (edges ^ (edges & (waits & room))) | (waits ^ (waits & live))
}

// Whether the lines are sound: edges wait, none waits while the channel is off, and no edge while one entry fills a packet.
// Stays: unrolled, since every call but a start goes through here: so the places are numbers that the compiler knows.
pub(crate) fn lines_hold(b: &[u8], on: bool, count: u32) -> bool
    requires { 174 ≤ length b.now }
    ensures { result ≡ sound_lines on count (lines_in b.now) }
{
    let live = mask_of(on);
    let room = mask_of(1 < count);
    let low = wrong_in(b, 0, live, room) | wrong_in(b, 8, live, room);
    let high = wrong_in(b, 16, live, room) | wrong_in(b, 24, live, room);
    low | high == 0
}
