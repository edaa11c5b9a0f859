// The house file of a capture (02, Q-2): a contents table, then the bodies that it names.
#![tactic(auto)]

ghost use Rattle.std.specs.Prelude.{◌≡◌, ◌∷◌, ◌+◌, ◌*◌, ◌<◌, ◌≤◌, length, IfSome};
ghost use Rattle.base.specs.Bytes.{over, low2};
ghost use Rattle.housefile.specs.Kinds.{kind_of, kind_named, body_fits, row_fits_value};
ghost use Rattle.housefile.specs.Format.{rows_begin, row_at, found, row_of, written, write_into};
ghost use Rattle.housefile.specs.Tables.{sizes_of, contents_bytes};

// The longest file.
const LONGEST: usize = 65536;

// What an entry is.
#[derive(Clone, Copy, Debug, PartialEq, Eq)]
pub enum Kind {
    Command,
    Success,
    Failure,
    SetWire,
    PlatformReset,
    EspiReset,
    TakeWrite,
}

// A byte that numbers no kind.
#[derive(Clone, Copy, Debug, PartialEq, Eq)]
pub struct UnknownKind(pub u8);

impl TryFrom<u8> for Kind {
    type Error = UnknownKind;

    ghost try_from_gives = { λ byte r. r ≡ kind_named byte };

    fn try_from(byte: u8) -> Result<Kind, UnknownKind> {
        match byte {
            0 => Ok(Kind::Command),
            1 => Ok(Kind::Success),
            2 => Ok(Kind::Failure),
            3 => Ok(Kind::SetWire),
            4 => Ok(Kind::PlatformReset),
            5 => Ok(Kind::EspiReset),
            6 => Ok(Kind::TakeWrite),
            _ => Err(UnknownKind(byte)),
        }
    }
}

// A row of the contents table: an entry's kind byte, and its body's length.
// Stays: the kind is a byte, since `row_at` tells the rows of a bad file too, and `Refused` (specs/Statements) speaks of kinds above 6 in them.
#[derive(Clone, Copy)]
pub struct Row {
    pub kind: u8,
    pub length: usize,
}

// The kind of a byte that is known to number one; of any other byte the last.
// Stays: docs/CONTRACTS.md has a kind for every byte; `try_from` stands beside it.
pub fn kind_of(byte: u8) -> Kind
    ensures { result ≡ kind_of byte }
{
    Kind::try_from(byte).unwrap_or(Kind::TakeWrite)
}

fn body_fits(kind: Kind, length: usize) -> bool
    ensures { result ≡ body_fits kind length }
{
    match kind {
        Kind::Command => true,
        Kind::Success => 4 <= length,
        Kind::Failure => length == 4,
        Kind::SetWire => length == 3,
        Kind::PlatformReset | Kind::EspiReset | Kind::TakeWrite => length == 0,
    }
}

fn row_fits(row: Row) -> bool
    ensures { result ≡ row_fits_value row }
{
    Kind::try_from(row.kind).is_ok_and(|kind| body_fits(kind, row.length))
}

// The row of the i-th entry, from 0.
pub fn row_at(file: &[u8], i: usize) -> Row
    requires { rows_begin + 3 * i + 3 ≤ length file.now }
    ensures { (result ≡ row_at file.now i) × (result.length < 65536) }
{
    let at = 2 + 3 * i;
    Row {
        kind: file[at],
        length: base::join2(file[at + 1], file[at + 2]) as usize,
    }
}

// How long the bodies of a file's first n rows are together, if each row may stand.
fn rows_in(file: &[u8], n: usize) -> Option<usize>
    requires { (rows_begin + 3 * n ≤ length file.now) × (n < 65536) }
    ensures { (result ≡ sizes_of (row_at file.now) n) × IfSome result (λ total. total ≤ 65535 * n) }
{
    let mut total = 0;
    for i in 0..n {
        let row = row_at(file, i);
        if !row_fits(row) {
            return None;
        }
        total += row.length;
    }
    Some(total)
}

// How many entries the file has, if it is a capture. `row_at` has each entry's kind and length; the bodies follow the table in that order.
#[tactic(auto, using(crate::specs::Answers::reading))]
pub fn read(file: &[u8]) -> Option<usize>
    ensures { result ≡ found (Rattle.housefile.specs.Format.read file.now) }
{
    if LONGEST < file.len() {
        return None;
    }
    if file.len() < 2 {
        return None;
    }
    let n = base::join2(file[0], file[1]) as usize;
    if file.len() < 2 + 3 * n {
        return None;
    }
    let total = rows_in(file, n)?;
    if 2 + 3 * n + total != file.len() {
        return None;
    }
    Some(n)
}

// How long the bodies of a capture to be written are together, if each row may stand.
// Stays: a loop of its own; one over a function that gives row i would ask for a clause of that function at each of its two calls, more than these lines.
fn rows_given(kinds: &[u8], lengths: &[u16]) -> Option<usize>
    requires { (length kinds.now ≡ length lengths.now) × (length kinds.now ≤ 65536) }
    ensures { (result ≡ sizes_of (row_of kinds.now lengths.now) (length kinds.now)) × IfSome result (λ total. total ≤ 65535 * length kinds.now) }
{
    let mut total = 0;
    for (&kind, &length) in kinds.iter().zip(lengths) {
        let row = Row {
            kind,
            length: usize::from(length),
        };
        if !row_fits(row) {
            return None;
        }
        total += row.length;
    }
    Some(total)
}

fn row_bytes(kind: u8, length: u16) -> [u8; 3]
    ensures { result ≡ kind ∷ low2 length }
{
    let [low, high] = length.to_le_bytes();
    [kind, low, high]
}

// The count and the rows, from the start of `out` on.
#[tactic(auto, using(crate::specs::Tables::put_none, crate::specs::Tables::put_row, crate::specs::Tables::put_whole))]
fn put_rows(out: &mut [u8], kinds: &[u8], lengths: &[u16])
    requires { (length kinds.now ≡ length lengths.now) × (length kinds.now < 65536) × (rows_begin + 3 * length kinds.now ≤ length out.old) }
    ensures { out.new ≡ over (contents_bytes (row_of kinds.now lengths.now) (length kinds.now)) out.old }
{
    let count = base::bytes2(kinds.len() as u32);
    base::put_at(out, 0, &count);
    for (i, &kind) in kinds.iter().enumerate() {
        base::put_at(out, 2 + 3 * i, &row_bytes(kind, lengths[i]));
    }
}

// Writes the file of a capture whose entries have these kinds and lengths, and these bodies one behind the other; how long it is. None, and nothing written,
// where no file can hold it or `out` is too short.
// Stays: kinds and lengths are two slices, as the theorem `writes_back` (proofs/Proofs/Code) has them.
#[tactic(auto, using(crate::specs::Answers::no_writing))]
pub fn write(kinds: &[u8], lengths: &[u16], bodies: &[u8], out: &mut [u8]) -> Option<usize>
    ensures { written result out.new ≡ write_into kinds.now lengths.now bodies.now out.old }
{
    let n = kinds.len();
    if n != lengths.len() {
        return None;
    }
    if LONGEST < n {
        return None;
    }
    let total = rows_given(kinds, lengths)?;
    if total != bodies.len() {
        return None;
    }
    let begin = 2 + 3 * n;
    let size = begin + total;
    if LONGEST < size {
        return None;
    }
    if out.len() < size {
        return None;
    }
    put_rows(out, kinds, lengths);
    base::put_at(out, begin, bodies);
    Some(size)
}
