// The card for C and Rust: the six calls, the batch, the season card, the scroll's records, a bib's history and the card's state, and the four calls of a journal, in one place. Each takes every input, and its contract is the rule.
#![tactic(auto)]

ghost use Rattle.std.specs.Prelude.{◌≡◌, ◌/◌, length};
ghost use Rattle.rules.specs.Look.{look};
ghost use Rattle.rules.specs.Next.{next};
ghost use Rattle.rules.specs.Panel.{panel};
ghost use Rattle.rules.specs.State.{state};
ghost use Rattle.rules.specs.Batch.{batch};
ghost use Rattle.rules.specs.Format.{format};
ghost use Rattle.rules.specs.Write.{plan_answer, plan_card, post, strike};
ghost use Rattle.rules.specs.Season.{season};
ghost use Rattle.rules.specs.History.{history};
ghost use Rattle.rules.specs.Journal.{journal_post, journal_strike, journal_look, journal_next};
ghost use Rattle.writer.specs.Rows.{puts};
ghost use Rattle.scroll.specs.Records.{records_of, tally_of};

use rules::{Answer, Digits, State};
use scroll::Tally;

pub fn card_format(card: &mut [u8], buckets: u32, sectors: u32, td: u32, ti: u32) -> Answer
    ensures value { result ≡ plan_answer (format card.old buckets sectors td ti) }
    ensures card_after { card.new ≡ plan_card card.old (format card.old buckets sectors td ti) }
{
    format::format(card, buckets, sectors, td, ti)
}

pub fn card_post(card: &mut [u8], bib: u32, at: u32, status: u32, time: u32) -> Answer
    ensures value { result ≡ plan_answer (post card.old bib at status time) }
    ensures card_after { card.new ≡ plan_card card.old (post card.old bib at status time) }
{
    write::post(card, bib, at, status, time)
}

pub fn card_strike(card: &mut [u8], bib: u32, at: u32) -> Answer
    ensures value { result ≡ plan_answer (strike card.old bib at) }
    ensures card_after { card.new ≡ plan_card card.old (strike card.old bib at) }
{
    write::strike(card, bib, at)
}

pub fn card_batch(card: &mut [u8], requests: &[u8], answers: &mut [u8]) -> u32
    ensures value { result ≡ (batch card.old requests.now answers.old).code }
    ensures card_after { card.new ≡ (batch card.old requests.now answers.old).card }
    ensures answers_after { answers.new ≡ (batch card.old requests.now answers.old).answers }
{
    batch::batch(card, requests, answers)
}

pub fn card_season(
    card: &[u8],
    at: u32,
    target: &mut [u8],
    buckets: u32,
    sectors: u32,
    td: u32,
    ti: u32,
) -> u32
    ensures value { result ≡ (plan_answer (season card.now at target.old buckets sectors td ti)).code }
    ensures target_after { target.new ≡ plan_card target.old (season card.now at target.old buckets sectors td ti) }
{
    season::season(card, at, target, buckets, sectors, td, ti)
}

pub fn card_look(card: &[u8], bib: u32, at: u32) -> Answer
    ensures { result ≡ look card.now bib at }
{
    walk::look(card, bib, at)
}

pub fn card_next(card: &[u8], bib: u32, at: u32) -> Answer
    ensures { result ≡ next card.now bib at }
{
    next::next(card, bib, at)
}

pub fn card_records(card: &[u8], bib: u32, at: u32, out: &mut [u8]) -> Tally
    ensures value { result ≡ tally_of (records_of card.now at (length out.old / 16) bib) }
    ensures out_after { out.new ≡ puts out.old 0 (records_of card.now at (length out.old / 16) bib).records }
{
    scroll::records(card, bib, at, out)
}

pub fn card_history(card: &[u8], bib: u32, at: u32, out: &mut [u8]) -> Tally
    ensures value { result ≡ tally_of (history card.now bib at (length out.old / 16)) }
    ensures out_after { out.new ≡ puts out.old 0 (history card.now bib at (length out.old / 16)).records }
{
    history::history(card, bib, at, out)
}

pub fn card_state(card: &[u8]) -> State
    ensures { result ≡ state card.now }
{
    state::of_card(card)
}

pub fn card_digits(time: u32, field: u32) -> Digits
    ensures { result ≡ panel time field }
{
    panel::digits(time, field)
}

pub fn journal_post(journal: &mut [u8], bib: u32, at: u32, status: u32, time: u32) -> Answer
    ensures value { result ≡ plan_answer (journal_post journal.old bib at status time) }
    ensures journal_after { journal.new ≡ plan_card journal.old (journal_post journal.old bib at status time) }
{
    journal::post(journal, bib, at, status, time)
}

pub fn journal_strike(journal: &mut [u8], bib: u32, at: u32) -> Answer
    ensures value { result ≡ plan_answer (journal_strike journal.old bib at) }
    ensures journal_after { journal.new ≡ plan_card journal.old (journal_strike journal.old bib at) }
{
    journal::strike(journal, bib, at)
}

pub fn journal_look(journal: &[u8], bib: u32, at: u32) -> Answer
    ensures { result ≡ journal_look journal.now bib at }
{
    journal::look(journal, bib, at)
}

pub fn journal_next(journal: &[u8], bib: u32, at: u32) -> Answer
    ensures { result ≡ journal_next journal.now bib at }
{
    journal::next(journal, bib, at)
}
