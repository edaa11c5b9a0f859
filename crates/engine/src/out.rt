// What goes out of a channel's change.
ghost use Rattle.std.specs.Prelude.{◌≡◌};
ghost use Rattle.rules.specs.Rules.Numbers.{number_of};
ghost use Rattle.rules.specs.Rules.Out as O;

use rules::{Body, Kept, Out, Refusal, Response, Say};

fn says(response: Response, body: Body) -> Option<Say>
    ensures { result ≡ O.says response body }
{
    Some(Say { response, body })
}

pub(crate) fn fatal() -> Out
    ensures { result ≡ O.fatal }
{
    Out {
        say: says(Response::Fatal, Body::Nothing),
        ..number(Refusal::Fatal)
    }
}

pub(crate) fn accept(body: Body, kept: Option<Kept>) -> Out
    ensures { result ≡ O.accept body kept }
{
    Out {
        say: says(Response::Accept, body),
        ..keep(kept)
    }
}

pub(crate) fn defer() -> Out
    ensures { result ≡ O.defer }
{
    Out {
        say: says(Response::Defer, Body::Nothing),
        ..keep(None)
    }
}

pub(crate) fn number(x: Refusal) -> Out
    ensures { result ≡ O.number (number_of x) }
{
    Out {
        number: u8::from(x),
        say: None,
        kept: None,
    }
}

pub(crate) fn keep(kept: Option<Kept>) -> Out
    ensures { result ≡ O.keep kept }
{
    Out {
        number: 0,
        say: None,
        kept,
    }
}
