// What a line of the bench program does to the card, which is the first bytes of a buffer.
#![tactic(auto)]

ghost use Rattle.std.specs.Prelude.{◌≡◌, take};
ghost use Rattle.rules.specs.Calls.{answered, called};
ghost use Rattle.rules.specs.Layout.{size_of};
ghost use Rattle.rules.specs.Format.{meant};
ghost use Rattle.rules.specs.Bench.{first_format, bench_line};
ghost use Rattle.line.specs.Requests.{call_of};
ghost use Rattle.session.specs.Cards.{Room};

use line::Request;
use rules::{Answer, Refusal};

// The card's length after a line, and the answer to it.
#[derive(Clone, Copy)]
pub struct Acted {
    pub len: usize,
    pub answer: Answer,
}

// A request that is not the first format, on the card alone.
#[tactic(auto, unfolding(rules::specs::Calls::called, rules::specs::Calls::planned, rules::specs::Calls::answered))]
fn call(card: &mut [u8], request: Request) -> Answer
    ensures { answered card.new result ≡ called card.old (call_of request) }
{
    match request {
        Request::Format {
            buckets,
            sectors,
            td,
            ti,
        } => format::format(card, buckets, sectors, td, ti),
        Request::Post {
            bib,
            at,
            status,
            time,
        } => write::post(card, bib, at, status, time),
        Request::Strike { bib, at } => write::strike(card, bib, at),
        Request::Look { bib, at } => walk::look(card, bib, at),
        Request::Next { bib, at } => next::next(card, bib, at),
    }
}

// The card is the buffer's first bytes.
fn act_on(card: &mut [u8], len: usize, request: Request) -> Acted
    requires { Room card.old len }
    ensures room { Room card.new result.len }
    ensures answer_after { answered (take result.len card.new) result.answer ≡ called (take len card.old) (call_of request) }
{
    let answer = call(&mut card[..len], request);
    Acted { len, answer }
}

// A card of the length that the numbers call for, if the buffer holds it. 16 x (1 + 4095) is all of the buffer.
fn first_format(card: &mut [u8], buckets: u32, sectors: u32, td: u32, ti: u32) -> Acted
    requires { Room card.old 0 }
    ensures room { Room card.new result.len }
    ensures answer_after { answered (take result.len card.new) result.answer ≡ first_format (size_of (meant buckets sectors td ti)) buckets sectors td ti }
{
    let behind = buckets as usize * (sectors as usize + 1);
    let too_long = 4095 < behind;
    if too_long {
        return Acted {
            len: 0,
            answer: Answer::from(Refusal::Shape),
        };
    }
    let len = 16 * (1 + behind);
    let answer = format::format(&mut card[..len], buckets, sectors, td, ti);
    // The exported call's answer, in which acceptance is 0.
    if answer.code == 0 {
        Acted { len, answer }
    } else {
        Acted { len: 0, answer }
    }
}

// One line on the card that is the buffer's first `len` bytes; 0 where there is none yet. Buffer and length are no struct with
// `Room` as its invariant: `act` may not ask its callers for a narrower type.
pub fn act(card: &mut [u8], len: usize, line: &[u8]) -> Acted
    requires { Room card.old len }
    ensures room { Room card.new result.len }
    ensures answer_after { answered (take result.len card.new) result.answer ≡ bench_line (take len card.old) line.now }
{
    let Some(request) = line::parse(line) else {
        return Acted {
            len,
            answer: Answer::from(Refusal::NoLine),
        };
    };
    match request {
        Request::Format {
            buckets,
            sectors,
            td,
            ti,
        } if len == 0 => first_format(card, buckets, sectors, td, ti),
        _ => act_on(card, len, request),
    }
}
