// What a controller has to know of a card that it opens again.
#![tactic(auto)]

ghost use Rattle.std.specs.Prelude.{◌≡◌, ◌≤◌};
ghost use Rattle.rules.specs.Layout.{beginning};
ghost use Rattle.rules.specs.Refusals.{number};
ghost use Rattle.rules.specs.State.{state_of, no_state, state};

use bucket::Card;
use rules::{Refusal, State};
use survey::Area;

// A refusal's number, and zeros beside it.
fn no_state(refusal: Refusal) -> State
    ensures { result ≡ no_state (number refusal) }
{
    State {
        code: refusal.number(),
        buckets: 0,
        sectors: 0,
        td: 0,
        ti: 0,
        begin: 0,
        last: 0,
        used: 0,
    }
}

fn state_of(card: &Card, area: Area) -> State
    requires { area.used ≤ card.now.head.n }
    ensures { result ≡ state_of card.now.head (beginning card.now.bytes.now) area.stamp area.used }
{
    let head = card.head;
    State {
        code: 0,
        buckets: head.n as u32,
        sectors: head.m as u32,
        td: head.td as u32,
        ti: head.ti as u32,
        begin: card.beginning(),
        last: area.stamp,
        used: area.used as u32,
    }
}

// The head's numbers and beginning, the largest stamp and the highest bucket used, from the pass that a write makes too.
#[tactic(auto, unfolding(rules::specs::State::state, rules::specs::State::state_in))]
pub fn of_card(card: &[u8]) -> State
    ensures { result ≡ state card.now }
{
    match walk::head::read(card) {
        Ok(card) => state_of(&card, survey::survey(&card)),
        Err(refusal) => no_state(refusal),
    }
}
