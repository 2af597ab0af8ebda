// Post and strike: an entry is refused by name, or laid down as the rules say.
#![tactic(auto)]

ghost use Rattle.std.specs.Prelude.{◌≡◌, List, [], ◌∷◌, ◌+◌, ◌-◌, ◌≤◌, ltb, eqb, length, Some, Ok};
ghost use Rattle.rules.specs.declared.Entry.{Entry};
ghost use Rattle.rules.specs.Plain.{if, ◌&◌, ◌or◌};
ghost use Rattle.rules.specs.Layout.{head_of};
ghost use Rattle.rules.specs.Bucket.{log, log_blanks};
ghost use Rattle.rules.specs.Walk.{walk};
ghost use Rattle.rules.specs.Write.{plan_answer, plan_card, plan_at, plan, post, strike};
ghost use Rattle.laws.proofs.Entries.{Asks};
ghost use Rattle.level.specs.Level.{sent_list};
ghost use Rattle.write.specs.Plans.{admitted, barred_by, Begins, Judged, Did, Tried};
ghost use Rattle.write.specs.declared.Barred.TheVariants as Bars;

use bucket::Card;
use climb::Needs;
use level::Sent;
use rules::{Answer, Entry, Head, Refusal};
use trail::Astray;

// An entry to be laid down, and what is known of the card: the highest bucket with a nonzero byte, and the root.
#[derive(Clone, Copy)]
pub struct Task {
    pub entry: Entry,
    pub used: usize,
    pub root: u32,
}

// What the next write starts from: the highest bucket used afterwards, and the root.
#[derive(Clone, Copy)]
pub struct Entered {
    pub used: usize,
    pub root: u32,
}

// What is known of a write that nothing refuses, before its first byte: where its path starts, and what it will need.
#[derive(Clone, Copy)]
pub struct Verdict {
    pub start: usize,
    pub needs: Needs,
}

// Why a lent path comes to no verdict: the write is refused, or the walk has more buckets than the path has places.
#[derive(Clone, Copy, Debug, PartialEq, Eq)]
pub enum Barred {
    Refused(Refusal),
    Deep,
}

impl From<Astray> for Barred {
    ghost from_gives = { λ a b. b ≡ barred_by a };

    fn from(astray: Astray) -> Barred {
        match astray {
            Astray::Damaged => Barred::Refused(Refusal::Damage),
            Astray::Deep => Barred::Deep,
        }
    }
}

impl From<Refusal> for Barred {
    ghost from_gives = { λ r b. b ≡ Bars.Refused r };

    fn from(r: Refusal) -> Barred {
        Barred::Refused(r)
    }
}

// Whether the log has no blank sector.
fn log_full(card: &Card) -> bool
    requires { (es : List Entry) × (log card.now.head card.now.bytes.now ≡ Some es) }
    ensures { result ≡ eqb (length (log_blanks card.now.head card.now.bytes.now)) 0 }
{
    level::used(card.log(), card.head.n) == card.head.n
}

// Whether more fresh buckets are needed than remain, or a new root has no room in the log.
fn too_full(card: &Card, needs: Needs) -> bool
    requires { (es : List Entry) × (log card.now.head card.now.bytes.now ≡ Some es) }
    ensures { result ≡ (ltb (card.now.head.n + 1) needs.fresh or (needs.root & eqb (length (log_blanks card.now.head card.now.bytes.now)) 0)) }
{
    if card.head.n + 1 < needs.fresh {
        return true;
    }
    needs.root && log_full(card)
}

// The root after a write: a new one is the last bucket taken.
fn root_after(needs: Needs, root: u32) -> u32
    requires { (1 ≤ needs.fresh) × (needs.fresh ≤ 4097) }
    ensures { result ≡ if needs.root (needs.fresh - 1) root }
{
    if needs.root {
        (needs.fresh - 1) as u32
    } else {
        root
    }
}

// The entry alone, as it is sent to its data bucket.
fn sent_first(e: Entry) -> Sent
    ensures { sent_list result ≡ e ∷ [] }
{
    Sent { low: e, high: None }
}

// A strike needs a bib for which something stands: its last copy is there, and no strike.
#[tactic(auto, unfolding(crate::specs::Plans::admitted, crate::specs::Plans::stands))]
fn admit(e: Entry, copy: Option<Entry>) -> Result<(), Refusal>
    ensures { result ≡ admitted e copy }
{
    if e.is_post() || copy.is_some_and(Entry::is_post) {
        return Ok(());
    }
    Err(Refusal::NothingStands)
}

// All that can refuse is known here, before the first byte is written: the walk, its end, the buckets and the log's room.
fn judge(card: &Card, task: Task, path: &mut [u32]) -> Result<Verdict, Barred>
    requires { Begins card.now.head card.now.bytes.now task × (length path.old ≤ 4096) }
    ensures { Judged result (length path.old) card.now.head card.now.bytes.now task.entry path.new × (length path.new ≡ length path.old) }
{
    let e = task.entry;
    let trail = trail::walk_down(card, task.root, e.key, path)?;
    admit(e, trail.copy)?;
    let start = trail.start;
    let needs = climb::count(card, &path[start..], sent_first(e), task.used + 1, e.stamp);
    if too_full(card, needs) {
        return Err(Barred::Refused(Refusal::Full));
    }
    Ok(Verdict { start, needs })
}

// The entry goes in along the path that was judged.
fn lay(card: &mut [u8], head: Head, task: Task, path: &[u32], v: Verdict) -> Entered
    requires { Begins head card.old task × Judged (Ok v) (length path.now) head card.old task.entry path.now }
    ensures { Did (Ok result) head card.old card.new (plan_at head card.old task.entry (walk head card.old 4294967295 task.entry.key)) }
{
    let e = task.entry;
    let fresh = task.used + 1;
    rise::rise(card, &path[v.start..], &sent_first(e), fresh, head, e.stamp);
    Entered {
        used: v.needs.fresh - 1,
        root: root_after(v.needs, task.root),
    }
}

// The entry in its bucket, or what bars it on a path of so many places, which lies in this frame and in no other.
#[inline(never)]
fn on_path<const PLACES: usize>(card: &mut [u8], head: Head, task: Task) -> Result<Entered, Barred>
    requires { Begins head card.old task × (PLACES ≤ 4096) }
    ensures { Tried result PLACES head card.old card.new (plan_at head card.old task.entry (walk head card.old 4294967295 task.entry.key)) }
{
    let mut path = [0u32; PLACES];
    let v = judge(&Card { bytes: card, head }, task, &mut path)?;
    Ok(lay(card, head, task, &path, v))
}

// The entry in its bucket, or what refuses it from the walk on. A short path is tried first, since a card of ours is a few buckets deep;
// no walk has more than 4,096.
pub fn insert(card: &mut [u8], head: Head, task: Task) -> Result<Entered, Refusal>
    requires { Begins head card.old task }
    ensures { Did result head card.old card.new (plan_at head card.old task.entry (walk head card.old 4294967295 task.entry.key)) }
{
    match on_path::<16>(card, head, task) {
        Ok(entered) => Ok(entered),
        Err(Barred::Refused(r)) => Err(r),
        Err(Barred::Deep) => on_long_path(card, head, task),
    }
}

fn on_long_path(card: &mut [u8], head: Head, task: Task) -> Result<Entered, Refusal>
    requires { Begins head card.old task }
    ensures { Did result head card.old card.new (plan_at head card.old task.entry (walk head card.old 4294967295 task.entry.key)) }
{
    match on_path::<4096>(card, head, task) {
        Ok(entered) => Ok(entered),
        Err(Barred::Refused(r)) => Err(r),
        Err(Barred::Deep) => unreachable!(),
    }
}

// An entry on a card whose head was read. Of the card's stamps it is asked only whether the entry's own comes too late.
pub fn enter_on(card: &mut [u8], head: Head, e: Entry) -> Result<Entered, Refusal>
    requires { (head_of card.old ≡ Some head) × Asks e }
    ensures { Did result head card.old card.new (plan card.old e) }
{
    sector::check(e)?;
    let before = Card { bytes: card, head };
    let used = survey::survey_for(&before, e.stamp)?;
    let root = trail::root_of(&before);
    let task = Task {
        entry: e,
        used,
        root,
    };
    insert(card, head, task)
}

fn enter(card: &mut [u8], e: Entry) -> Answer
    requires { Asks e }
    ensures value { result ≡ plan_answer (plan card.old e) }
    ensures card_after { card.new ≡ plan_card card.old (plan card.old e) }
{
    let head = match walk::head::read(card) {
        Ok(before) => before.head,
        Err(r) => return Answer::from(r),
    };
    match enter_on(card, head, e) {
        Ok(_) => Answer::end(),
        Err(r) => Answer::from(r),
    }
}

// A new result or a correction: a time, or a status without one.
pub fn post(card: &mut [u8], bib: u32, at: u32, status: u32, time: u32) -> Answer
    ensures value { result ≡ plan_answer (post card.old bib at status time) }
    ensures card_after { card.new ≡ plan_card card.old (post card.old bib at status time) }
{
    enter(card, Entry::post(bib, at, status, time))
}

// The bib's result stands no more.
pub fn strike(card: &mut [u8], bib: u32, at: u32) -> Answer
    ensures value { result ≡ plan_answer (strike card.old bib at) }
    ensures card_after { card.new ≡ plan_card card.old (strike card.old bib at) }
{
    enter(card, Entry::strike(bib, at))
}
