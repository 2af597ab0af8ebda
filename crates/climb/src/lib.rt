// The way up of a write: the fresh buckets are counted first, so that a refusal is known before a byte is written; then the levels are written, the lowest first.
#![tactic(auto)]

ghost use Rattle.std.specs.Prelude.{◌≡◌, List, [], ◌∷◌, ◌+◌, ◌-◌, ◌*◌, ◌≤◌, ◌<◌, length, Some};
ghost use Rattle.rules.specs.declared.Entry.{Entry};
ghost use Rattle.rules.specs.Sector.{root_entry};
ghost use Rattle.rules.specs.Layout.{base};
ghost use Rattle.rules.specs.Bucket.{log, log_blanks};
ghost use Rattle.rules.specs.Rewrite.{fill, into};
ghost use Rattle.laws.proofs.Buckets.{raw};
ghost use Rattle.level.specs.Level.{sent_list, need_of, AllSmall};
ghost use Rattle.bucket.specs.Shapes.{Shape};
ghost use Rattle.climb.specs.Levels.{entries_on, kept_on, limit_on, own_card, tally, count_on, needs_of, risen, topped, Read, AllRead, Ready, HandsOn};

use bucket::Card;
use hand::Hand;
use level::Sent;
use rules::{Entry, Head};

// What a rewritten level hands on: the pairs of its new buckets, and the next fresh one.
#[derive(Clone, Copy)]
pub struct Renewed {
    pub sent: Sent,
    pub fresh: usize,
}

// What a write will need: the next fresh bucket when it is done, and whether there is a new root.
#[derive(Clone, Copy)]
pub struct Needs {
    pub fresh: usize,
    pub root: bool,
}

// A function of the geometry alone: it is asked for cards that are read and for cards that are written.
pub fn first_sector(head: Head, b: usize) -> usize
    requires { (head.m ≤ 32) × (head.n ≤ 4096) × (1 ≤ b) × (b ≤ head.n) }
    ensures { result ≡ base head b }
{
    1 + head.n + head.m * (b - 1)
}

// How many entries bucket b holds.
pub fn used_in(card: &Card, b: u32) -> usize
    requires { Read card.now.head card.now.bytes.now b }
    ensures { (result ≡ length (entries_on card.now.head card.now.bytes.now b)) × (1 ≤ result) × (result ≤ card.now.head.m) }
{
    level::used(card.bucket(b), card.head.m)
}

// What is kept of bucket b, which holds `used` entries, and of what was sent to it.
fn kept_in(card: &Card, b: u32, used: usize, p: Sent, stamp: u32) -> Hand
    requires read { Read card.now.head card.now.bytes.now b × (used ≡ length (entries_on card.now.head card.now.bytes.now b)) }
    requires small { AllSmall (sent_list p) }
    ensures { (result ≡ kept_on card.now.head stamp card.now.bytes.now b (sent_list p)) × (length result ≤ used + 2) × AllSmall result }
{
    level::regrouped(card.bucket(b), used, p, stamp)
}

fn limit_in(card: &Card, b: u32, used: usize) -> usize
    requires { Read card.now.head card.now.bytes.now b × (used ≡ length (entries_on card.now.head card.now.bytes.now b)) }
    ensures { (result ≡ limit_on card.now.head card.now.bytes.now b) × (2 ≤ result) × (result ≤ card.now.head.m) }
{
    level::limit(card.bucket(b), used, card.head)
}

// The pairs of the buckets that take these entries, numbered from `fresh`.
fn sent_up(entries: &[Entry], limit: usize, fresh: usize, stamp: u32) -> Renewed
    requires { fresh ≤ 20000 }
    ensures { HandsOn stamp limit fresh entries.now result }
{
    Renewed {
        sent: level::pairs(entries, limit, fresh, stamp),
        fresh: fresh + level::fresh_needed(entries, limit),
    }
}

// What a rewrite of bucket b would hand on. The hand has no name here, so that it is not copied: this is in a frame that stays.
fn renewal(card: &Card, b: u32, used: usize, p: Sent, fresh: usize, stamp: u32) -> Renewed
    requires read { Read card.now.head card.now.bytes.now b × (used ≡ length (entries_on card.now.head card.now.bytes.now b)) }
    requires small { AllSmall (sent_list p) × (fresh ≤ 20000) }
    ensures { HandsOn stamp (limit_on card.now.head card.now.bytes.now b) fresh (kept_on card.now.head stamp card.now.bytes.now b (sent_list p)) result }
{
    let limit = limit_in(card, b, used);
    sent_up(
        kept_in(card, b, used, p, stamp).as_slice(),
        limit,
        fresh,
        stamp,
    )
}

// Above the root: two pairs want a bucket more, and any pair is a new root.
#[tactic(auto, unfolding(crate::specs::Levels::needs_of, crate::specs::Levels::fresh_over, crate::specs::Levels::is_open))]
fn over(p: Sent, fresh: usize) -> Needs
    requires { fresh ≤ 20000 }
    ensures { result ≡ needs_of (tally (sent_list p) fresh) }
{
    let fresh = if p.high.is_some() { fresh + 1 } else { fresh };
    Needs { fresh, root: true }
}

// What the write will need, given the levels' buckets, the lowest first.
pub fn count(card: &Card, levels: &[u32], p: Sent, fresh: usize, stamp: u32) -> Needs
    requires read { AllRead card.now.head card.now.bytes.now levels.now × AllSmall (sent_list p) }
    requires bounds { (length levels.now ≤ 4096) × (fresh ≤ 4097) }
    ensures { result ≡ needs_of (count_on card.now.head stamp card.now.bytes.now levels.now (tally (sent_list p) fresh)) }
{
    let mut sent = p;
    let mut next = fresh;
    for b in levels {
        let used = used_in(card, *b);
        if used + level::sent_count(sent) <= card.head.m {
            return Needs {
                fresh: next,
                root: false,
            };
        }
        let r = renewal(card, *b, used, sent, next, stamp);
        sent = r.sent;
        next = r.fresh;
    }
    over(sent, next)
}

// These entries fill the fresh bucket b. What writes takes bytes and head, here and in the crates above, and no type round the two: with
// bytes lent to be changed each contract would say besides that the head stays, and each loop and call of itself would lend the type anew.
fn write_new(card: &mut [u8], head: Head, b: usize, entries: &[Entry])
    requires fresh { Shape head card.old × (1 ≤ b) × (b ≤ head.n) × (raw head card.old b ≡ Some []) }
    requires fits { (length entries.now ≤ head.m) × AllSmall entries.now }
    ensures { card.new ≡ into head b entries.now card.old }
{
    level::write_run(card, first_sector(head, b), entries);
}

// The entries fill one fresh bucket, or two with the larger half first.
fn write_own(card: &mut [u8], head: Head, fresh: usize, entries: &[Entry], limit: usize)
    requires ready { Ready head card.old [] fresh × (fresh + need_of limit entries.now ≤ head.n + 1) }
    requires fits { AllSmall entries.now × (length entries.now ≤ head.m + 2) × (limit ≤ head.m) }
    ensures { card.new ≡ own_card head limit fresh entries.now card.old }
{
    let n = entries.len();
    if n < limit {
        write_new(card, head, fresh, entries);
        return;
    }
    let (first, second) = entries.split_at(hand::halved(n));
    write_new(card, head, fresh, first);
    write_new(card, head, fresh + 1, second);
}

// Bucket b, which holds `used` entries, is rewritten with what was sent to it into fresh buckets. The hand lives here and not in the function over the path, whose frame stays small.
#[inline(never)]
pub fn rewrite(
    card: &mut [u8],
    head: Head,
    b: u32,
    used: usize,
    p: &Sent,
    fresh: usize,
    stamp: u32,
) -> Renewed
    requires ready { Ready head card.old [] fresh × Read head card.old b × (used ≡ length (entries_on head card.old b)) × AllSmall (sent_list p.now) }
    requires p_bound { fresh + need_of (limit_on head card.old b) (kept_on head stamp card.old b (sent_list p.now)) ≤ head.n + 1 }
    ensures hands_on { HandsOn stamp (limit_on head card.old b) fresh (kept_on head stamp card.old b (sent_list p.now)) result }
    ensures card_after { card.new ≡ own_card head (limit_on head card.old b) fresh (kept_on head stamp card.old b (sent_list p.now)) card.old }
{
    let before = Card { bytes: card, head };
    let hand = kept_in(&before, b, used, *p, stamp);
    let limit = limit_in(&before, b, used);
    write_own(card, head, fresh, hand.as_slice(), limit);
    sent_up(hand.as_slice(), limit, fresh, stamp)
}

// What was sent goes into the first blanks of bucket b.
#[inline(never)]
pub fn write_in(card: &mut [u8], head: Head, b: u32, used: usize, p: &Sent)
    requires shape { Shape head card.old × Read head card.old b × (used ≡ length (entries_on head card.old b)) × AllSmall (sent_list p.now) }
    requires p_bound { used + length (sent_list p.now) ≤ head.m }
    ensures { card.new ≡ into head b (sent_list p.now) card.old }
{
    let at = first_sector(head, b as usize);
    level::write_sent(card, at + used, *p);
}

// A new root's entry, at the first blank of the log.
fn write_log(card: &mut [u8], head: Head, root: u32, stamp: u32)
    requires { Shape head card.old × ((es : List Entry) × (log head card.old ≡ Some es)) }
    ensures { card.new ≡ fill card.old (log_blanks head card.old) (root_entry stamp root ∷ []) }
{
    let n = head.n;
    let used = level::used(Card { bytes: card, head }.log(), n);
    let room = used < n;
    if room {
        writer::write_entry(card, 1 + used, Entry::root(stamp, root));
    }
}

// The root was rewritten: its one bucket is the new root, or a further one over its two.
#[inline(never)]
pub fn new_root(card: &mut [u8], head: Head, p: &Sent, fresh: usize, stamp: u32)
    requires ready { Ready head card.old [] fresh × AllSmall (sent_list p.now) }
    requires card_bound { (topped head stamp (risen (sent_list p.now) fresh card.old)).fresh ≤ head.n + 1 }
    ensures { card.new ≡ (topped head stamp (risen (sent_list p.now) fresh card.old)).card }
{
    if p.high.is_some() {
        level::write_sent(card, first_sector(head, fresh), *p);
        write_log(card, head, fresh as u32, stamp);
    } else {
        write_log(card, head, p.low.value, stamp);
    }
}
