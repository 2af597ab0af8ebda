// The smallest standing bib above a given one, as of a stamp.
#![tactic(auto)]

ghost use Rattle.std.specs.Prelude.{◌≡◌, ◌≤◌, true, None, Ok};
ghost use Rattle.rules.specs.Sector.{is_index, is_data};
ghost use Rattle.rules.specs.Answers.{answer};
ghost use Rattle.rules.specs.Next.{next};
ghost use Rattle.scan.specs.Scan.{sectors, root_in, search_log};
ghost use Rattle.scan.specs.Next.{pick_up, weigh, runs, stand_in, sectors_of, leg_of, leg_scan, rounds};
ghost use Rattle.next.specs.Found.{told, Above};

mod asks;
pub mod picks;

use bucket::Card;
use rules::{Answer, Damage, Entry, Refusal};
use scan::{Leg, Way};

// The least index key above x, with bucket b's, which was searched.
fn key_above(card: &Card, b: u32, x: u32, t: u32, up: Option<Entry>) -> Option<Entry>
    requires { (1 ≤ b) × (b ≤ card.now.head.n) × (runs is_index (sectors_of card.now.head card.now.bytes.now b) ≡ true) }
    ensures { result ≡ weigh (pick_up x t) (sectors_of card.now.head card.now.bytes.now b) up }
{
    asks::least_above(card.bucket(b), card.head.n, card.head.m, x, t, up)
}

// Where a walk ends, in the data bucket b, which was searched: the bib that is next, or the index key to walk to.
fn arrive(card: &Card, b: u32, k: u32, t: u32, up: Option<Entry>) -> Leg
    requires { (1 ≤ b) × (b ≤ card.now.head.n) × (runs is_data (sectors_of card.now.head card.now.bytes.now b) ≡ true) }
    ensures { result ≡ leg_of (stand_in k t (sectors_of card.now.head card.now.bytes.now b) None) up }
{
    match asks::standing(card.bucket(b), card.head.n, card.head.m, k, t) {
        Some(e) => Leg::Stand(e),
        None => Leg::Over(up),
    }
}

// One walk to x, which gathers the least index key above x on its way.
fn walk_to(card: &Card, root: u32, k: u32, x: u32, t: u32) -> Result<Leg, Damage>
    requires { (1 ≤ root) × (root ≤ card.now.head.n) }
    ensures { result ≡ leg_scan card.now.head card.now.bytes.now k x t card.now.head.n None root 0 }
{
    let mut b = root;
    let mut header = 0;
    let mut up = None;
    for reads in 0..card.head.n {
        match card.search(b, header, x, t)? {
            Way::Down(e) => {
                up = key_above(card, b, x, t, up);
                b = e.value;
                header = e.key;
            }
            Way::End(_) => return Ok(arrive(card, b, k, t, up)),
        }
    }
    Err(Damage)
}

pub fn given(e: Entry) -> Answer
    ensures { result ≡ answer 0 e.key e.stamp e.status e.value 0 }
{
    Answer {
        code: 0,
        bib: e.key,
        at: e.stamp,
        status: e.status,
        time: e.value,
        reads: 0,
    }
}

// What C is told: the record, the end, or the refusal's number.
#[tactic(auto, unfolding(crate::specs::Found::told))]
fn told(found: Result<Option<Entry>, Refusal>) -> Answer
    ensures { result ≡ told found }
{
    match found {
        Ok(Some(e)) => given(e),
        Ok(None) => Answer::end(),
        Err(r) => Answer::from(r),
    }
}

// Walk after walk, each to the least index key above the last, until one gives a bib or no key. The log is read once, before.
fn walk_on(card: &Card, root: Entry, k: u32, t: u32) -> Result<Option<Entry>, Refusal>
    requires { root_in (search_log t (sectors card.now.head.n card.now.bytes.now 1 card.now.head.n)) ≡ Ok root }
    ensures answer { told result ≡ rounds card.now.head card.now.bytes.now k t 4294967296 k }
    ensures above { Above k result }
{
    let mut x = k;
    loop {
        match walk_to(card, root.value, k, x, t)? {
            Leg::Stand(e) => return Ok(Some(e)),
            Leg::Over(Some(e)) => x = e.key,
            Leg::Over(None) => return Ok(None),
        }
    }
}

// The post of the next standing bib above `bib` as of `at`, none at the end.
pub fn following(card: &[u8], bib: u32, at: u32) -> Result<Option<Entry>, Refusal>
    ensures answer { told result ≡ next card.now bib at }
    ensures above { Above bib result }
{
    let card = walk::head::read(card)?;
    card.as_of(at)?;
    let root = card.root_at(at)?;
    walk_on(&card, root, bib, at)
}

// The next standing bib above `bib` as of `at`, or the end.
pub fn next(card: &[u8], bib: u32, at: u32) -> Answer
    ensures { result ≡ next card.now bib at }
{
    told(following(card, bib, at))
}
