// The library for C: each of the card's calls exported under its own name, with the contract that it has in `card`.
#![tactic(auto)]

ghost use Rattle.std.specs.Prelude.{◌≡◌, ◌/◌, length};
ghost use Rattle.rules.specs.Look.{look};
ghost use Rattle.rules.specs.Next.{next};
ghost use Rattle.rules.specs.Panel.{panel};
ghost use Rattle.rules.specs.State.{state};
ghost use Rattle.rules.specs.Batch.{batch};
ghost use Rattle.rules.specs.Format.{format};
ghost use Rattle.rules.specs.Write.{plan_answer, plan_card, post, strike};
ghost use Rattle.rules.specs.Season.{season};
ghost use Rattle.rules.specs.History.{history};
ghost use Rattle.rules.specs.Journal.{journal_post, journal_strike, journal_look, journal_next};
ghost use Rattle.writer.specs.Rows.{puts};
ghost use Rattle.scroll.specs.Records.{records_of, tally_of};

use rules::{Answer, Digits, State};
use scroll::Tally;

#[unsafe(no_mangle)]
pub extern "C" fn card_format(
    card: &mut [u8],
    buckets: u32,
    sectors: u32,
    td: u32,
    ti: u32,
) -> Answer
    ensures value { result ≡ plan_answer (format card.old buckets sectors td ti) }
    ensures card_after { card.new ≡ plan_card card.old (format card.old buckets sectors td ti) }
{
    card::card_format(card, buckets, sectors, td, ti)
}

#[unsafe(no_mangle)]
pub extern "C" fn card_post(card: &mut [u8], bib: u32, at: u32, status: u32, time: u32) -> Answer
    ensures value { result ≡ plan_answer (post card.old bib at status time) }
    ensures card_after { card.new ≡ plan_card card.old (post card.old bib at status time) }
{
    card::card_post(card, bib, at, status, time)
}

#[unsafe(no_mangle)]
pub extern "C" fn card_strike(card: &mut [u8], bib: u32, at: u32) -> Answer
    ensures value { result ≡ plan_answer (strike card.old bib at) }
    ensures card_after { card.new ≡ plan_card card.old (strike card.old bib at) }
{
    card::card_strike(card, bib, at)
}

#[unsafe(no_mangle)]
pub extern "C" fn card_batch(card: &mut [u8], requests: &[u8], answers: &mut [u8]) -> u32
    ensures value { result ≡ (batch card.old requests.now answers.old).code }
    ensures card_after { card.new ≡ (batch card.old requests.now answers.old).card }
    ensures answers_after { answers.new ≡ (batch card.old requests.now answers.old).answers }
{
    card::card_batch(card, requests, answers)
}

#[unsafe(no_mangle)]
pub extern "C" fn card_season(
    card: &[u8],
    at: u32,
    target: &mut [u8],
    buckets: u32,
    sectors: u32,
    td: u32,
    ti: u32,
) -> u32
    ensures value { result ≡ (plan_answer (season card.now at target.old buckets sectors td ti)).code }
    ensures target_after { target.new ≡ plan_card target.old (season card.now at target.old buckets sectors td ti) }
{
    card::card_season(card, at, target, buckets, sectors, td, ti)
}

#[unsafe(no_mangle)]
pub extern "C" fn card_look(card: &[u8], bib: u32, at: u32) -> Answer
    ensures { result ≡ look card.now bib at }
{
    card::card_look(card, bib, at)
}

#[unsafe(no_mangle)]
pub extern "C" fn card_next(card: &[u8], bib: u32, at: u32) -> Answer
    ensures { result ≡ next card.now bib at }
{
    card::card_next(card, bib, at)
}

#[unsafe(no_mangle)]
pub extern "C" fn card_records(card: &[u8], bib: u32, at: u32, out: &mut [u8]) -> Tally
    ensures value { result ≡ tally_of (records_of card.now at (length out.old / 16) bib) }
    ensures out_after { out.new ≡ puts out.old 0 (records_of card.now at (length out.old / 16) bib).records }
{
    card::card_records(card, bib, at, out)
}

#[unsafe(no_mangle)]
pub extern "C" fn card_history(card: &[u8], bib: u32, at: u32, out: &mut [u8]) -> Tally
    ensures value { result ≡ tally_of (history card.now bib at (length out.old / 16)) }
    ensures out_after { out.new ≡ puts out.old 0 (history card.now bib at (length out.old / 16)).records }
{
    card::card_history(card, bib, at, out)
}

#[unsafe(no_mangle)]
pub extern "C" fn card_state(card: &[u8]) -> State
    ensures { result ≡ state card.now }
{
    card::card_state(card)
}

#[unsafe(no_mangle)]
pub extern "C" fn card_digits(time: u32, field: u32) -> Digits
    ensures { result ≡ panel time field }
{
    card::card_digits(time, field)
}

#[unsafe(no_mangle)]
pub extern "C" fn journal_post(
    journal: &mut [u8],
    bib: u32,
    at: u32,
    status: u32,
    time: u32,
) -> Answer
    ensures value { result ≡ plan_answer (journal_post journal.old bib at status time) }
    ensures journal_after { journal.new ≡ plan_card journal.old (journal_post journal.old bib at status time) }
{
    card::journal_post(journal, bib, at, status, time)
}

#[unsafe(no_mangle)]
pub extern "C" fn journal_strike(journal: &mut [u8], bib: u32, at: u32) -> Answer
    ensures value { result ≡ plan_answer (journal_strike journal.old bib at) }
    ensures journal_after { journal.new ≡ plan_card journal.old (journal_strike journal.old bib at) }
{
    card::journal_strike(journal, bib, at)
}

#[unsafe(no_mangle)]
pub extern "C" fn journal_look(journal: &[u8], bib: u32, at: u32) -> Answer
    ensures { result ≡ journal_look journal.now bib at }
{
    card::journal_look(journal, bib, at)
}

#[unsafe(no_mangle)]
pub extern "C" fn journal_next(journal: &[u8], bib: u32, at: u32) -> Answer
    ensures { result ≡ journal_next journal.now bib at }
{
    card::journal_next(journal, bib, at)
}
