// A morning's results at once: each request of a batch as its own call would be answered.
// What a call reads off the whole card, its largest stamp, its highest bucket used and its root, is read once and carried along.
#![tactic(auto)]

ghost use Rattle.std.specs.Prelude.{◌≡◌, ◌+◌, ◌-◌, ◌*◌, ◌/◌, ◌%◌, ◌≤◌, eqb, ◌++◌, length, take, replicate, Some, Ok};
ghost use Rattle.rules.specs.Plain.{◌&◌, ◌or◌};
ghost use Rattle.rules.specs.Sector.{sector_at, is_post};
ghost use Rattle.rules.specs.Layout.{head_of};
ghost use Rattle.rules.specs.Write.{plan};
ghost use Rattle.rules.specs.Batch.{well_asked, request, requests_in, card_of, answers_to, batch};
ghost use Rattle.laws.proofs.Entries.{Asks};
ghost use Rattle.write.specs.Plans.{Did};
ghost use Rattle.batch.specs.Carry.{Knows, Knew, Took, code_of};

use bucket::Card;
use rules::{Entry, Head, Refusal};
use write::{Entered, Task};

// What the next request starts from: the card's largest stamp, its highest bucket used, and its root.
#[derive(Clone, Copy)]
pub struct Known {
    pub stamp: u32,
    pub used: usize,
    pub root: u32,
}

// An entry as its call is answered: what is known afterwards, or what refuses it, which leaves the card and so what is known of it.
fn enter(card: &mut [u8], head: Head, e: Entry, known: Known) -> Result<Known, Refusal>
    requires { (head_of card.old ≡ Some head) × Asks e × Knows head card.old known }
    ensures { Took result head card.old card.new (plan card.old e) }
{
    sector::check(e)?;
    if e.stamp <= known.stamp {
        return Err(Refusal::Stamp);
    }
    let task = Task {
        entry: e,
        used: known.used,
        root: known.root,
    };
    let entered = write::insert(card, head, task)?;
    Ok(Known {
        stamp: e.stamp,
        used: entered.used,
        root: entered.root,
    })
}

// Whether a request with these fields is a post, or a strike without status and value.
#[tactic(auto, unfolding(rules::specs::Sector::is_strike))]
fn asks(e: Entry) -> bool
    ensures { result ≡ (is_post e or (eqb e.kind 2 & eqb e.status 0 & eqb e.value 0)) }
{
    e.is_post() || (e.is_strike() && e.status == 0 && e.value == 0)
}

// Whether request i is a post or such a strike, with nothing beside its fields.
#[tactic(auto, unfolding(rules::specs::Batch::well_asked))]
fn well_asked(requests: &[u8], i: usize) -> bool
    requires { 16 * i + 16 ≤ length requests.now }
    ensures { result ≡ well_asked (sector_at requests.now i) }
{
    sector::all_zero(&sector::bytes(requests, i)[2..4]) && asks(sector::fields_at(requests, i))
}

// Request i: 11, or as its call.
fn answer_to(
    card: &mut [u8],
    head: Head,
    requests: &[u8],
    i: usize,
    known: Known,
) -> Result<Known, Refusal>
    requires { (head_of card.old ≡ Some head) × Knows head card.old known × (16 * i + 16 ≤ length requests.now) }
    ensures { Took result head card.old card.new (request card.old (sector_at requests.now i)) }
{
    if !well_asked(requests, i) {
        return Err(Refusal::NoRequest);
    }
    enter(card, head, sector::fields_at(requests, i), known)
}

// The first request asks of the card's stamps only whether its own comes too late, as a single call does.
fn begin(card: &mut [u8], head: Head, requests: &[u8]) -> Result<Entered, Refusal>
    requires { (head_of card.old ≡ Some head) × (16 ≤ length requests.now) }
    ensures { Did result head card.old card.new (request card.old (sector_at requests.now 0)) }
{
    if !well_asked(requests, 0) {
        return Err(Refusal::NoRequest);
    }
    write::enter_on(card, head, sector::fields_at(requests, 0))
}

// What is known after the first request, stamped `at`: what it told, or where it was refused what the card says, looked through once.
fn known_after(card: &Card, first: Result<Entered, Refusal>, at: u32) -> Known
    requires { Knew card.now.head card.now.bytes.now first at }
    ensures { Knows card.now.head card.now.bytes.now result }
{
    if let Ok(done) = first {
        return Known {
            stamp: at,
            used: done.used,
            root: done.root,
        };
    }
    let area = survey::survey(card);
    Known {
        stamp: area.stamp,
        used: area.used,
        root: trail::root_of(card),
    }
}

// The byte that tells a request's answer.
fn code_of<T: Copy>(answered: Result<T, Refusal>) -> u8
    ensures { result ≡ code_of answered }
{
    match answered {
        Ok(_) => 0,
        Err(r) => r as u8,
    }
}

// The requests behind the first, one after the other; none of them stops the batch.
fn load(card: &mut [u8], head: Head, requests: &[u8], answers: &mut [u8], first: Known)
    requires { (head_of card.old ≡ Some head) × Knows head card.old first × (length requests.now ≡ 16 * length answers.old) × (1 ≤ length answers.old) }
    ensures card_after { card.new ≡ card_of card.old (requests_in requests.now 1 (length answers.old - 1)) }
    ensures answers_after { answers.new ≡ take 1 answers.old ++ answers_to card.old (requests_in requests.now 1 (length answers.old - 1)) }
{
    let mut known = first;
    for i in 1..answers.len() {
        let answered = answer_to(card, head, requests, i, known);
        answers[i] = code_of(answered);
        known = answered.unwrap_or(known);
    }
}

// All requests. The first is answered by itself, so that a batch of one costs what its call does.
fn answer_all(card: &mut [u8], head: Head, requests: &[u8], answers: &mut [u8])
    requires { (head_of card.old ≡ Some head) × (length requests.now ≡ 16 * length answers.old) }
    ensures card_after { card.new ≡ card_of card.old (requests_in requests.now 0 (length answers.old)) }
    ensures answers_after { answers.new ≡ answers_to card.old (requests_in requests.now 0 (length answers.old)) }
{
    let count = answers.len();
    if count == 0 {
        return;
    }
    let first = begin(card, head, requests);
    answers[0] = code_of(first);
    let alone = count == 1;
    if alone {
        return;
    }
    let at = sector::fields_at(requests, 0).stamp;
    let known = known_after(&Card { bytes: card, head }, first, at);
    load(card, head, requests, answers, known);
}

// Whether there are as many requests, all of them whole, as places for their answers.
fn is_paired(bytes: usize, places: usize) -> bool
    ensures { result ≡ (eqb (bytes % 16) 0 & eqb (bytes / 16) places) }
{
    bytes % 16 == 0 && bytes / 16 == places
}

// The whole batch: 12, or 0 with an answer for each request, the number as C gets it. On what is no card of the layout each is answered with 1.
pub fn batch(card: &mut [u8], requests: &[u8], answers: &mut [u8]) -> u32
    ensures value { result ≡ (batch card.old requests.now answers.old).code }
    ensures card_after { card.new ≡ (batch card.old requests.now answers.old).card }
    ensures answers_after { answers.new ≡ (batch card.old requests.now answers.old).answers }
{
    if !is_paired(requests.len(), answers.len()) {
        return Refusal::Unpaired as u32;
    }
    let head = match walk::head::read(card) {
        Ok(before) => before.head,
        Err(r) => {
            answers.fill(r as u8);
            return 0;
        }
    };
    answer_all(card, head, requests, answers);
    0
}
