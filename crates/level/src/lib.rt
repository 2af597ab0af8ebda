// One level of a write: how much of a bucket is written, what is kept of it, what goes up and what goes down.
#![tactic(auto)]

ghost use Rattle.std.specs.Prelude.{◌≡◌, ◌++◌, ◌+◌, ◌*◌, ◌≤◌, ◌<◌, length};
ghost use Rattle.rules.specs.Rewrite.{key_of, kept, pair, limit_of};
ghost use Rattle.hand.specs.Hand.{entries_at};
ghost use Rattle.writer.specs.Rows.{puts};
ghost use Rattle.level.specs.Level.{sent_list, used_of, pairs_of, need_of, AllSmall};

use hand::Hand;
use rules::{Entry, Head, Kind};

// What goes up from a level: the call's entry at first, then the pairs of the new buckets, of which there may be a second.
#[derive(Clone, Copy)]
pub struct Sent {
    pub low: Entry,
    pub high: Option<Entry>,
}

// How many of a bucket's m sectors are written, from its start.
pub fn used(part: &[u8], m: usize) -> usize
    requires { 16 * m ≤ length part.now }
    ensures { (result ≤ m) × (result ≡ used_of 0 part.now 0 m) }
{
    for i in 0..m {
        if part[16 * i] == 0 {
            return i;
        }
    }
    m
}

pub fn sent_count(p: Sent) -> usize
    ensures { (result ≡ length (sent_list p)) × (1 ≤ result) × (result ≤ 2) }
{
    if p.high.is_some() { 2 } else { 1 }
}

// The key of the first entry, 0 where there is none.
#[tactic(auto, unfolding(rules::specs::Rewrite::key_of))]
fn key_of(entries: &[Entry]) -> u32
    ensures { result ≡ key_of entries.now }
{
    match entries {
        [] => 0,
        [e, ..] => e.key,
    }
}

// What was sent joins those in hand.
fn add(hand: &mut Hand, p: Sent)
    requires { length hand.old < 33 }
    ensures value { hand.new ≡ hand.old ++ sent_list p }
    ensures most { length hand.new ≤ length hand.old + 2 }
{
    hand.push(p.low);
    if let Some(high) = p.high {
        hand.push(high);
    }
}

// What a rewrite keeps of the first `used` entries of a bucket and those sent to it.
pub fn regrouped(part: &[u8], used: usize, p: Sent, stamp: u32) -> Hand
    requires { (16 * used ≤ length part.now) × (used ≤ 32) }
    ensures { (length result ≤ used + 2) × (result ≡ kept (key_of (entries_at part.now 0 used)) stamp (entries_at part.now 0 used ++ sent_list p)) }
{
    let mut hand = Hand::gathered(part, used);
    let header = key_of(hand.as_slice());
    add(&mut hand, p);
    hand.put_in_order();
    hand.thin(header, stamp);
    hand
}

// The fewest entries that make two buckets: TI for an index bucket, TD for a data bucket.
pub fn limit(part: &[u8], used: usize, head: Head) -> usize
    requires { (16 * used ≤ length part.now) × (1 ≤ used) }
    ensures { result ≡ limit_of head (entries_at part.now 0 used) }
{
    if part[0] == Kind::Index as u8 {
        head.ti
    } else {
        head.td
    }
}

pub fn fresh_needed(entries: &[Entry], limit: usize) -> usize
    ensures { (result ≡ need_of limit entries.now) × (1 ≤ result) × (result ≤ 2) }
{
    let n = entries.len();
    if n < limit { 1 } else { 2 }
}

// The pair of a new bucket b that takes these entries.
#[tactic(auto, unfolding(rules::specs::Rewrite::pair))]
fn pair(entries: &[Entry], b: usize, stamp: u32) -> Entry
    requires { b < 4294967296 }
    ensures { result ≡ pair stamp b entries.now }
{
    let key = key_of(entries);
    Entry::index(key, stamp, b as u32)
}

// What the new buckets of these entries, numbered from `fresh`, send up.
#[tactic(auto, unfolding(crate::specs::Level::pairs_of))]
pub fn pairs(entries: &[Entry], limit: usize, fresh: usize, stamp: u32) -> Sent
    requires { fresh < 1000000 }
    ensures { sent_list result ≡ pairs_of stamp limit fresh entries.now }
{
    let n = entries.len();
    if n < limit {
        return Sent {
            low: pair(entries, fresh, stamp),
            high: None,
        };
    }
    let (first, second) = entries.split_at(hand::halved(n));
    Sent {
        low: pair(first, fresh, stamp),
        high: Some(pair(second, fresh + 1, stamp)),
    }
}

// These entries, into the card's sectors from `at` on.
pub fn write_run(card: &mut [u8], at: usize, entries: &[Entry])
    requires { (16 * (at + length entries.now) ≤ length card.old) × AllSmall entries.now }
    ensures { card.new ≡ puts card.old at entries.now }
{
    for (i, e) in entries.iter().enumerate() {
        writer::write_entry(card, at + i, *e);
    }
}

// What was sent, into the card's sectors from `at` on.
pub fn write_sent(card: &mut [u8], at: usize, p: Sent)
    requires { (16 * (at + length (sent_list p)) ≤ length card.old) × AllSmall (sent_list p) }
    ensures { card.new ≡ puts card.old at (sent_list p) }
{
    writer::write_entry(card, at, p.low);
    if let Some(high) = p.high {
        writer::write_entry(card, at + 1, high);
    }
}
