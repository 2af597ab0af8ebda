// The walk to a bib as of a stamp, and the look.
#![tactic(auto)]

ghost use Rattle.std.specs.Prelude.{◌≡◌, ◌≤◌};
ghost use Rattle.rules.specs.Answers.{refused, result_of};
ghost use Rattle.rules.specs.Look.{look};
ghost use Rattle.scan.specs.Scan.{sectors, root_in, search_log};
ghost use Rattle.scan.specs.Look.{walk_scan, trip_from, told};

pub mod head;

use bucket::Card;
use rules::{Answer, Damage, Refusal};
use scan::{Found, Trip, Way};

// From the root down, one bucket a turn. The buckets read are at most as many as the card has.
fn descend(card: &Card, root: u32, key: u32, stamp: u32) -> Result<Trip, Damage>
    requires { (1 ≤ root) × (root ≤ card.now.head.n) }
    ensures { result ≡ walk_scan card.now.head card.now.bytes.now key stamp card.now.head.n 0 root 0 }
{
    let mut b = root;
    let mut header = 0;
    for reads in 0..card.head.n as u32 {
        match card.search(b, header, key, stamp)? {
            Way::Down(e) => {
                b = e.value;
                header = e.key;
            }
            Way::End(copy) => {
                let reads = reads + 1;
                return Ok(Trip { reads, copy });
            }
        }
    }
    Err(Damage)
}

// The walk to a key as of a stamp, from the log's last root entry left.
fn walk(card: &Card, key: u32, stamp: u32) -> Result<Trip, Damage>
    ensures { result ≡ trip_from card.now.head card.now.bytes.now key stamp (root_in (search_log stamp (sectors card.now.head.n card.now.bytes.now 1 card.now.head.n))) }
{
    let root = card.root_at(stamp)?;
    descend(card, root.value, key, stamp)
}

// The answer that refuses, with its number. What refuses by name is an answer by `Answer::from`; a number may be any.
#[tactic(auto, unfolding(rules::specs::Answers::refused, rules::specs::Answers::ended))]
pub fn refusal(code: u32) -> Answer
    ensures { result ≡ refused code }
{
    Answer {
        code,
        ..Answer::end()
    }
}

// The answer that a walk's end gives: a strike, or no copy, is none; damage is refused.
#[tactic(auto, unfolding(scan::specs::Look::told, rules::specs::Answers::sheet, rules::specs::Answers::ended, rules::specs::Walk::standing))]
pub fn tell(bib: u32, reads: u32, found: Found) -> Answer
    ensures { result ≡ told bib reads found }
{
    let none = Answer {
        bib,
        reads,
        ..Answer::end()
    };
    let e = match found {
        Ok(Some(e)) => e,
        Ok(None) => return none,
        Err(damage) => return Answer::from(Refusal::from(damage)),
    };
    let posted = e.is_post();
    if posted {
        return Answer {
            at: e.stamp,
            status: e.status,
            time: e.value,
            ..none
        };
    }
    none
}

fn looked(card: &[u8], bib: u32, at: u32) -> Result<Answer, Refusal>
    ensures { result_of result ≡ look card.now bib at }
{
    let card = head::read(card)?;
    if bib == 0 {
        return Err(Refusal::NoBib);
    }
    card.as_of(at)?;
    let trip = walk(&card, bib, at)?;
    Ok(tell(bib, trip.reads, Ok(trip.copy)))
}

// What stands for the bib as of `at`, and the buckets read.
pub fn look(card: &[u8], bib: u32, at: u32) -> Answer
    ensures { result ≡ look card.now bib at }
{
    Answer::of(looked(card, bib, at))
}
