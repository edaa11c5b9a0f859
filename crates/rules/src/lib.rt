// What an exchange or a board call does, as data: it names bytes by place and count only.
#![tactic(auto)]

ghost use Rattle.std.specs.Prelude.{◌≡◌};
ghost use Rattle.rules.specs.Rules.Numbers.{number_of};
ghost use Rattle.rules.specs.Rules.Out.{response_byte};

use peripheral::{Completion, Peripheral};
use wires::{Packet, Wires};

// Why a command or a call is refused above the decoder, by document 01's numbers; the decoder's own are in the crate command.
#[derive(Clone, Copy, PartialEq, Eq)]
pub enum Refusal {
    Fatal = 1,
    NonFatal = 2,
    StoreTooShort = 10,
    StateNotSound = 11,
    NoSuchRequest = 20,
    CountWrong = 21,
    NoSuchWire = 22,
    NothingThere = 23,
    LineBusy = 24,
}

impl From<Refusal> for u8 {
    ghost from_gives = { λ x n. n ≡ number_of x };

    fn from(x: Refusal) -> u8 {
        x as u8
    }
}

// The response byte.
#[derive(Clone, Copy)]
pub enum Response {
    Accept,
    Defer,
    NonFatal,
    Fatal,
}

// Stays a match: must-fail/values.edit makes two responses one byte; as discriminants that is no program, so no proof would refuse it.
impl From<Response> for u8 {
    ghost from_gives = { λ r n. n ≡ response_byte r };

    fn from(r: Response) -> u8 {
        match r {
            Response::Accept => 0x08,
            Response::Defer => 0x01,
            Response::NonFatal => 0x02,
            Response::Fatal => 0x03,
        }
    }
}

// What stands between the response byte and the status.
#[derive(Clone, Copy)]
pub enum Body {
    Nothing,
    Word(u32),
    Piece(Completion),
    Groups(Packet),
}

// What a channel says. The status, which is all channels', is added above them.
#[derive(Clone, Copy)]
pub struct Say {
    pub response: Response,
    pub body: Body,
}

// Data of the call that goes to the start of a store: from where, and how many bytes.
#[derive(Clone, Copy)]
pub struct Kept {
    pub from: u32,
    pub count: u32,
}

// What goes out of a channel's change; the number is 0 where it is accepted.
// Stays: the number here and in the engine's `Outgoing` is document 01's and no Result of a Refusal, since the C interface hands it over and the statements
// speak of it: CallsRefuse, FirstApplies, Shape, Rows in rules/specs/Statements.
#[derive(Clone, Copy)]
pub struct Out {
    pub number: u8,
    pub say: Option<Say>,
    pub kept: Option<Kept>,
}

// A channel's change: its own next part, and what goes out.
#[derive(Clone, Copy)]
pub struct Change<P> {
    pub next: P,
    pub out: Out,
}

pub type PeripheralChange = Change<Peripheral>;

// Of channel 1 the six groups alone: the lines stand in the state's bytes.
pub type GroupsChange = Change<Wires>;

// What a channel says, and the status after it.
#[derive(Clone, Copy)]
pub struct Reply {
    pub response: Response,
    pub body: Body,
    pub status: u32,
}
