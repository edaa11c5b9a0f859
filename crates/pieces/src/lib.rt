// The cutting of an answer into pieces at blocks of the payload size, and the pieces' marks.
#![tactic(auto)]

ghost use Rattle.std.specs.Prelude.{◌≡◌, ◌%◌, ◌≤◌, ◌<◌};
ghost use Rattle.pieces.specs.Blocks.{Block};
ghost use Rattle.pieces.specs.Marks.{mark_of, mark_type};
ghost use Rattle.pieces.specs.Pieces.{next_size};

#[derive(Clone, Copy)]
pub enum Mark {
    Only,
    First,
    Middle,
    Last,
}

// The place of a number in its block. A size of blocks is a power of two, so that is its low bits; dividing would take many times as long.
pub fn place_in(n: u32, block: u32) -> u32
    requires { Block block }
    ensures { (result ≡ n % block) × (result < block) }
{
    n & (block - 1)
}

// How many bytes the next piece has, when `sent` have gone. Blocks divide 4,096 bytes, so the low bits of the address tell its place in one.
pub fn next_size(address: u64, length: u32, payload: u32, sent: u32) -> u32
    requires { (sent < length) × (length ≤ 4096) × Block payload }
    ensures { result ≡ next_size address length payload sent }
{
    let low = (address % 4096) as u32;
    let room = payload - place_in(low + sent, payload);
    room.min(length - sent)
}

// The mark of a piece that is the first, the last, both or neither.
#[tactic(auto, unfolding(crate::specs::Marks::mark_of))]
pub fn mark_of(first: bool, last: bool) -> Mark
    ensures { result ≡ mark_of first last }
{
    match (first, last) {
        (true, true) => Mark::Only,
        (true, false) => Mark::First,
        (false, true) => Mark::Last,
        (false, false) => Mark::Middle,
    }
}

// The cycle type that says the mark.
// Stays a match: must-fail/cut_from_a.edit makes two marks one number; as discriminants that is no program, so no proof would refuse it.
impl From<Mark> for u8 {
    ghost from_gives = { λ m r. r ≡ mark_type m };

    fn from(m: Mark) -> u8 {
        match m {
            Mark::Only => 0x0F,
            Mark::First => 0x0B,
            Mark::Middle => 0x09,
            Mark::Last => 0x0D,
        }
    }
}
