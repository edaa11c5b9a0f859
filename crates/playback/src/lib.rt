// Plays a capture (02, Q-2), an entry at a time: the entry's call, and the line that tells it.
#![tactic(auto)]

ghost use Rattle.std.specs.Prelude.{◌≡◌, true, ◌+◌, ◌<◌, ◌≤◌, length, get_or, drop};
ghost use Rattle.base.specs.Bytes.{put, over, number4};
ghost use Rattle.rules.specs.Rules.Calls.{done, stored, answer_call, set_wire_call};
ghost use Rattle.housefile.specs.Kinds.{body_fits};
ghost use Rattle.playback.specs.Lines.{digit_of, upper_of, decimal_of, hex_of, shown_of, line_of, line_length};
ghost use Rattle.playback.specs.Play.{obeyed, taking, replied_length, played, play_entry, begun, begin_on};
ghost use Rattle.playback.specs.Places.{Stands};

use housefile::Kind;

// Where play stands: the entries before it, those to come, and where the next one's body begins.
#[derive(Clone, Copy)]
pub struct Place {
    pub number: usize,
    pub left: usize,
    pub body: usize,
}

// What is said, so many bytes at the start of the lent line, and where play goes on.
// Stays: the line is its lender's, and `Told` (specs/Statements) takes so many bytes of it.
#[derive(Clone, Copy)]
pub struct Said {
    pub size: usize,
    pub next: Place,
}

// Stays: text byte by byte at a place of the lent line, since the clauses say which bytes stand there (`decimal_of`, `hex_of`, `put`); `write!` into a slice
// promises none.

fn digit(d: usize) -> u8
    requires { d < 10 }
    ensures { result ≡ digit_of d }
{
    b'0' + (d as u8)
}

// A hex digit in upper case.
fn upper(d: u8) -> u8
    requires { d < 16 }
    ensures { result ≡ upper_of d }
{
    match d {
        0..=9 => b'0' + d,
        _ => b'A' + (d - 10),
    }
}

// A number's decimal digits from `at` on; where they end.
#[tactic(auto, using(crate::specs::Laws::decimal_small, crate::specs::Written::decimal_length, crate::specs::Written::decimal_put))]
fn decimal(line: &mut [u8], at: usize, value: usize) -> usize
    requires { at + length (decimal_of value) ≤ length line.old }
    ensures { (line.new ≡ put at (decimal_of value) line.old) × (result ≡ at + length (decimal_of value)) }
{
    if value < 10 {
        base::put_at(line, at, &[digit(value)]);
        return at + 1;
    }
    let end = decimal(line, at, value / 10);
    base::put_at(line, end, &[digit(value % 10)]);
    end + 1
}

// Bytes in hex from `at` on; where they end.
#[tactic(auto, using(crate::specs::Laws::length_hex))]
fn hex(line: &mut [u8], at: usize, bytes: &[u8]) -> usize
    requires { at + length (hex_of bytes.now) ≤ length line.old }
    ensures { (line.new ≡ put at (hex_of bytes.now) line.old) × (result ≡ at + length (hex_of bytes.now)) }
{
    for (i, &b) in bytes.iter().enumerate() {
        base::put_at(line, at + 2 * i, &[upper(b / 16), upper(b % 16)]);
    }
    at + 2 * bytes.len()
}

// A reply in hex, or "-" if there is none.
fn shown(line: &mut [u8], at: usize, reply: &[u8]) -> usize
    requires { at + length (shown_of reply.now) ≤ length line.old }
    ensures { (line.new ≡ put at (shown_of reply.now) line.old) × (result ≡ at + length (shown_of reply.now)) }
{
    if reply.is_empty() {
        base::put_at(line, at, b"-");
        return at + 1;
    }
    hex(line, at, reply)
}

// The line of an entry at the start of the lent one; how long it is.
#[tactic(auto, using(crate::specs::Written::line_sum))]
fn tell(line: &mut [u8], number: usize, refusal: u32, reply: &[u8]) -> usize
    requires { length (line_of number refusal reply.now) ≤ length line.old }
    ensures { (line.new ≡ over (line_of number refusal reply.now) line.old)
        × (result ≡ length (line_of number refusal reply.now)) }
{
    let a = decimal(line, 0, number);
    base::put_at(line, a, b" ");
    let b = decimal(line, a + 1, refusal as usize);
    base::put_at(line, b, b" ");
    let c = shown(line, b + 1, reply);
    base::put_at(line, c, b"\n");
    c + 1
}

// An answer's body begins with the serial, low byte first.
fn answer(state: &mut [u8], read_store: &mut [u8], success: u32, body: &[u8]) -> u32
    requires { 4 ≤ length body.now }
    ensures { stored result state.new read_store.new
        ≡ answer_call state.old read_store.old (number4 0 body.now) success (drop 4 body.now) }
{
    let serial = base::get4(body, 0);
    espi::espi_answer(state, read_store, serial, success, &body[4..])
}

// A wire's body: index, bit, value.
fn set(state: &mut [u8], body: &[u8]) -> u32
    requires { 3 ≤ length body.now }
    ensures { done result state.new
        ≡ set_wire_call state.old (get_or body.now 0 0) (get_or body.now 1 0) (get_or body.now 2 0) }
{
    let (index, bit, value) = (body[0], body[1], body[2]);
    espi::espi_set_wire(state, u32::from(index), u32::from(bit), u32::from(value))
}

// The report is not told.
#[tactic(auto, unfolding(crate::specs::Play::taking))]
fn take(state: &mut [u8], write_store: &[u8]) -> u32
    ensures { done result state.new ≡ taking state.old write_store.now }
{
    let mut report = [0; 10];
    espi::espi_take_write(state, write_store, &mut report)
}

// The entry's call on the lent bytes.
// Stays: `play` alone hands the four slices on, and must be lent them one by one; in a struct they would be packed there and unpacked here.
#[tactic(auto, unfolding(crate::specs::Play::obey, promises::specs::ByteRuns::byte_step_value, crate::specs::Play::taking))]
fn obey(
    kind: Kind,
    body: &[u8],
    state: &mut [u8],
    reply: &mut [u8],
    write_store: &mut [u8],
    read_store: &mut [u8],
) -> u32
    requires { body_fits kind (length body.now) ≡ true }
    ensures { obeyed result state.new reply.new write_store.new read_store.new
        ≡ Rattle.playback.specs.Play.obey kind body.now state.old reply.old write_store.old
        read_store.old }
{
    match kind {
        Kind::Command => espi::espi_exchange(state, body, reply, write_store, read_store),
        Kind::Success => answer(state, read_store, 1, body),
        Kind::Failure => answer(state, read_store, 0, body),
        Kind::SetWire => set(state, body),
        Kind::PlatformReset => espi::espi_platform_reset(state),
        Kind::EspiReset => espi::espi_reset(state),
        Kind::TakeWrite => take(state, write_store),
    }
}

// How many bytes of the reply store a call's reply has: only a command has one.
fn replied(kind: Kind, word: u32) -> usize
    ensures { result ≡ replied_length kind word }
{
    match kind {
        Kind::Command => (word / 256) as usize,
        _ => 0,
    }
}

// Reads the file and starts the state; of a bad file only the line is said.
#[tactic(auto, using(crate::specs::Playing::begun_few, crate::specs::Playing::begun_bad, base::specs::Bytes::put_first))]
pub fn begin(file: &[u8], state: &mut [u8], line: &mut [u8]) -> Said
    requires { line_length ≤ length line.old }
    ensures { begun result state.new line.new ≡ begin_on file.now state.old line.old }
{
    match housefile::read(file) {
        None => {
            base::put_at(line, 0, b"bad capture\n");
            Said {
                size: 12,
                next: Place {
                    number: 0,
                    left: 0,
                    body: 0,
                },
            }
        }
        Some(n) => {
            espi::espi_start(state);
            Said {
                size: 0,
                next: Place {
                    number: 0,
                    left: n,
                    body: 2 + 3 * n,
                },
            }
        }
    }
}

// Plays the entry at a place of a good file, and says its line.
pub fn play(
    file: &[u8],
    place: Place,
    state: &mut [u8],
    reply: &mut [u8],
    write_store: &mut [u8],
    read_store: &mut [u8],
    line: &mut [u8],
) -> Said
    requires { Stands file.now place × (0 < place.left) × (line_length ≤ length line.old) }
    ensures { played result state.new reply.new write_store.new read_store.new line.new
        ≡ play_entry file.now place state.old reply.old write_store.old read_store.old
        line.old }
{
    let number = place.number;
    let from = place.body;
    let row = housefile::row_at(file, number);
    let kind = housefile::kind_of(row.kind);
    let end = from + row.length;
    let word = obey(
        kind,
        &file[from..end],
        state,
        reply,
        write_store,
        read_store,
    );
    let n = replied(kind, word);
    let size = tell(line, number + 1, word % 256, &reply[..n]);
    Said {
        size,
        next: Place {
            number: number + 1,
            left: place.left - 1,
            body: end,
        },
    }
}
