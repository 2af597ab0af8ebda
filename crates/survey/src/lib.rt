// The bucket area looked through: the stamps in it, and the highest bucket with a nonzero byte.
#![tactic(auto)]

ghost use Rattle.std.specs.Prelude.{◌≡◌, true, false, ◌+◌, ◌-◌, ◌*◌, ◌≤◌, ◌<◌, length, drop, leb, MatchResult};
ghost use Rattle.rules.specs.declared.refusal.Refusal.TheVariants as Refusals;
ghost use Rattle.rules.specs.Plain.{zeros};
ghost use Rattle.rules.specs.Write.{stamp_of, top_stamp, top_used, stamp_on};
ghost use Rattle.survey.specs.Survey.{survey_of};

use bucket::Card;
use rules::Refusal;

// What the whole card holds: its largest stamp, and the highest bucket with a nonzero byte.
#[derive(Clone, Copy)]
pub struct Area {
    pub stamp: u32,
    pub used: usize,
}

// The stamp of a write comes too late; and the highest bucket with a nonzero byte, which is the same whatever the stamp.
#[derive(Clone, Copy, Debug, PartialEq, Eq)]
pub struct Late {
    pub used: usize,
}

impl From<Late> for Refusal {
    ghost from_gives = { λ _ r. r ≡ Refusals.Stamp };

    fn from(_late: Late) -> Refusal {
        Refusal::Stamp
    }
}

// Whether a stamp field of the card's sectors from..to is above `before`, whatever the kinds are: if none is, no stamp is.
// The loop has no branch, so that several fields are compared at once.
fn passed(card: &[u8], from: usize, to: usize, before: u32) -> bool
    requires { (from ≤ to) × (16 * to ≤ length card.now) }
    ensures { result ≡ false → top_stamp card.now from (to - from) ≤ before }
{
    let mut over = false;
    for i in from..to {
        over |= before < sector::read_word(sector::bytes(card, i), 8);
    }
    over
}

// The largest stamp field of the card's sectors from..to, whatever the kinds are: no stamp is above it.
fn bound(card: &[u8], from: usize, to: usize) -> u32
    requires { (from ≤ to) × (16 * to ≤ length card.now) }
    ensures { top_stamp card.now from (to - from) ≤ result }
{
    let mut top = 0;
    for i in from..to {
        top = sector::read_word(sector::bytes(card, i), 8).max(top);
    }
    top
}

// The stamp field of a sector, where its kind is not zero.
#[tactic(auto, unfolding(rules::specs::Write::stamp_of))]
fn stamp_of(s: &[u8; 16]) -> u32
    ensures { result ≡ stamp_of s.now }
{
    if s[0] == 0 {
        return 0;
    }
    sector::read_word(s, 8)
}

// The largest stamp of the card's sectors from..to, the kinds asked; or one of them that is `enough`.
// The newest sectors mostly lie last, so it goes from behind.
fn top_stamp(card: &[u8], from: usize, to: usize, enough: u32) -> u32
    requires { (from ≤ to) × (16 * to ≤ length card.now) }
    ensures { (result ≤ top_stamp card.now from (to - from)) × (result < enough → top_stamp card.now from (to - from) ≤ result) }
{
    let mut top = 0;
    for i in (from..to).rev() {
        top = stamp_of(sector::bytes(card, i)).max(top);
        let seen = enough <= top;
        if seen {
            return top;
        }
    }
    top
}

// A number of buckets which on a card we wrote are the written ones: behind them a first byte is zero. It decides nothing. Halved by hand:
// the library's `partition_point` is for the elements of a slice, and a bucket is a part of one.
fn guess(card: &Card) -> usize
    ensures { result ≤ card.now.head.n }
{
    let mut low = 0;
    let mut high = card.head.n;
    while low < high {
        let mid = (low + high) / 2;
        if card.from_bucket(mid as u32 + 1)[0] == 0 {
            high = mid;
        } else {
            low = mid + 1;
        }
    }
    low
}

// So many buckets that no byte behind them is nonzero: where the guess is not right they are all.
fn written(card: &Card) -> usize
    ensures upper_bound { (result ≤ card.now.head.n) × (survey_of card.now.head card.now.bytes.now card.now.head.n ≡ survey_of card.now.head card.now.bytes.now result) }
    ensures card_value { zeros (drop (16 * (1 + card.now.head.n + result * card.now.head.m)) card.now.bytes.now) ≡ true }
{
    let n = card.head.n;
    let b = guess(card);
    if b < n {
        if sector::all_zero(card.from_bucket(b as u32 + 1)) {
            return b;
        }
        return n;
    }
    n
}

// The number of the sector behind the first `last` buckets.
fn behind(card: &Card, last: usize) -> usize
    requires { last ≤ card.now.head.n }
    ensures { (result ≡ 1 + card.now.head.n + last * card.now.head.m) × (16 * result ≤ length card.now.bytes.now) }
{
    1 + card.head.n + last * card.head.m
}

// The number of the sector behind the last bucket that need be read: every byte from it on is zero.
pub fn end(card: &Card) -> usize
    ensures { (1 + card.now.head.n ≤ result) × (16 * result ≤ length card.now.bytes.now) × (zeros (drop (16 * result) card.now.bytes.now) ≡ true) }
{
    behind(card, written(card))
}

// Whether every byte of a bucket is zero. A written one mostly shows by its first byte that it was written.
fn blank(part: &[u8]) -> bool
    requires { 1 ≤ length part.now }
    ensures { result ≡ zeros part.now }
{
    part[0] == 0 && sector::all_zero(part)
}

// The highest of the first `last` buckets that has a nonzero byte.
fn highest(card: &Card, last: usize) -> usize
    requires { last ≤ card.now.head.n }
    ensures { result ≡ top_used card.now.head card.now.bytes.now last }
{
    for below in (0..last).rev() {
        let b = below + 1;
        if !blank(card.bucket(b as u32)) {
            return b;
        }
    }
    0
}

// The largest stamp of the first `last` buckets. The kinds are asked only until a stamp is as large as the largest field.
fn largest(card: &Card, last: usize) -> u32
    requires { last ≤ card.now.head.n }
    ensures { result ≡ top_stamp card.now.bytes.now (1 + card.now.head.n) (last * card.now.head.m) }
{
    let from = 1 + card.head.n;
    let to = behind(card, last);
    let most = bound(card.bytes, from, to);
    top_stamp(card.bytes, from, to, most)
}

// Whether a stamp of the first `last` buckets is `at` or later. Only where a stamp field is are the kinds asked.
fn too_late(card: &Card, last: usize, at: u32) -> bool
    requires { last ≤ card.now.head.n }
    ensures { result ≡ leb at (top_stamp card.now.bytes.now (1 + card.now.head.n) (last * card.now.head.m)) }
{
    if at == 0 {
        return true;
    }
    let from = 1 + card.head.n;
    let to = behind(card, last);
    if passed(card.bytes, from, to, at - 1) {
        return at <= top_stamp(card.bytes, from, to, at);
    }
    false
}

// For who wants the largest stamp itself.
pub fn survey(card: &Card) -> Area
    ensures { (result.stamp ≡ stamp_on card.now.head card.now.bytes.now) × (result.used ≡ top_used card.now.head card.now.bytes.now card.now.head.n) }
{
    let last = written(card);
    Area {
        stamp: largest(card, last),
        used: highest(card, last),
    }
}

// For a write stamped `at`: the highest bucket used, also where the stamp comes too late. The card's stamps are asked for nothing else.
pub fn survey_for(card: &Card, at: u32) -> Result<usize, Late>
    ensures { MatchResult result (λ used. (leb at (stamp_on card.now.head card.now.bytes.now) ≡ false) × (used ≡ top_used card.now.head card.now.bytes.now card.now.head.n)) (λ late. (leb at (stamp_on card.now.head card.now.bytes.now) ≡ true) × (late.used ≡ top_used card.now.head card.now.bytes.now card.now.head.n)) }
{
    let last = written(card);
    let used = highest(card, last);
    if too_late(card, last, at) {
        return Err(Late { used });
    }
    Ok(used)
}
