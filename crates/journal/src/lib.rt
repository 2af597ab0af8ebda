// A plain journal: accepted entries in arrival order on a lent slice of sectors, read through for each question.
#![tactic(auto)]

ghost use Rattle.std.specs.Prelude.{◌≡◌, ◌*◌, ◌≤◌, length, true, None};
ghost use Rattle.rules.specs.Answers.{result_of};
ghost use Rattle.rules.specs.Journal.{journal, journal_plan, journal_post, journal_strike, journal_look, journal_next};
ghost use Rattle.rules.specs.Write.{plan_answer, plan_card};
ghost use Rattle.laws.proofs.Entries.{Asks};
ghost use Rattle.scan.specs.Scan.{sectors};
ghost use Rattle.scan.specs.Next.{above_at, weigh, runs, stand_in};
ghost use Rattle.rules.specs.Sector.{is_data};
ghost use Rattle.journal.specs.Passes.{read_scan, reading_of};

mod picks;

use rules::{Answer, Entry, Refusal, Sector};

// What one pass over a journal gives: its written sectors, the last stamp, and the last copy of the bib asked for.
#[derive(Clone, Copy)]
pub struct Pass {
    pub used: usize,
    pub last: u32,
    pub copy: Option<Entry>,
}

// The one pass of post, strike and look, and the judging one of next. Only the place of the copy is carried from turn to turn.
fn pass_over(slice: &[u8], count: usize, x: u32, t: u32) -> Result<Pass, Refusal>
    requires { length slice.now ≡ 16 * count }
    ensures { result ≡ read_scan x t (sectors 0 slice.now 0 count) 0 0 None }
{
    let mut used = 0;
    let mut last = 0;
    let mut place = 0;
    for i in 0..count {
        match sector::at(slice, 0, i) {
            Sector::Held(e) if picks::follows(last, e) => {
                let copy = bucket::picks::is_copy(x, t, e);
                used = i + 1;
                last = e.stamp;
                place = if copy { used } else { place };
            }
            Sector::Blank if bucket::blank_behind(slice, 0, count, i) => break,
            _ => return Err(Refusal::Layout),
        }
    }
    let copy = bucket::entry_at(slice, place);
    Ok(Pass { used, last, copy })
}

// What a slice says as a journal, of the bib x as of t.
fn read(slice: &[u8], x: u32, t: u32) -> Result<Pass, Refusal>
    ensures { result ≡ reading_of x t (journal slice.now) }
{
    let len = slice.len();
    if len % 16 != 0 {
        return Err(Refusal::Layout);
    }
    pass_over(slice, len / 16, x, t)
}

// An entry on a journal: refused, or written to the first blank. All that can refuse it is known before.
fn enter(slice: &mut [u8], e: Entry) -> Result<Answer, Refusal>
    requires { Asks e }
    ensures value { result_of result ≡ plan_answer (journal_plan slice.old e) }
    ensures slice_after { slice.new ≡ plan_card slice.old (journal_plan slice.old e) }
{
    let pass = read(slice, e.key, u32::MAX)?;
    picks::admit(e, pass, slice.len() / 16)?;
    writer::write_entry(slice, pass.used, e);
    Ok(Answer::end())
}

// A new result or a correction: a time, or a status without one.
#[tactic(auto, unfolding(rules::specs::Journal::journal_post))]
pub fn post(slice: &mut [u8], bib: u32, at: u32, status: u32, time: u32) -> Answer
    ensures value { result ≡ plan_answer (journal_post slice.old bib at status time) }
    ensures slice_after { slice.new ≡ plan_card slice.old (journal_post slice.old bib at status time) }
{
    Answer::of(enter(slice, Entry::post(bib, at, status, time)))
}

// The bib's result stands no more.
#[tactic(auto, unfolding(rules::specs::Journal::journal_strike))]
pub fn strike(slice: &mut [u8], bib: u32, at: u32) -> Answer
    ensures value { result ≡ plan_answer (journal_strike slice.old bib at) }
    ensures slice_after { slice.new ≡ plan_card slice.old (journal_strike slice.old bib at) }
{
    Answer::of(enter(slice, Entry::strike(bib, at)))
}

fn looked(slice: &[u8], bib: u32, at: u32) -> Result<Answer, Refusal>
    ensures { result_of result ≡ journal_look slice.now bib at }
{
    let pass = read(slice, bib, at)?;
    if bib == 0 {
        return Err(Refusal::NoBib);
    }
    Ok(walk::tell(bib, 0, Ok(pass.copy)))
}

// What stands for the bib as of `at`.
pub fn look(slice: &[u8], bib: u32, at: u32) -> Answer
    ensures { result ≡ journal_look slice.now bib at }
{
    Answer::of(looked(slice, bib, at))
}

// The least bib above x of the entries stamped t or earlier, its last copy. They were judged: keys and stamps are read alone.
fn least(slice: &[u8], used: usize, x: u32, t: u32) -> Option<Entry>
    requires { (16 * used ≤ length slice.now) × (runs is_data (sectors 0 slice.now 0 used) ≡ true) }
    ensures { result ≡ weigh (above_at x t) (sectors 0 slice.now 0 used) None }
{
    let mut best = 0;
    let mut low = u32::MAX;
    for i in 0..used {
        let e = sector::fields_at(slice, i);
        let lower = picks::lower(x, t, low, e);
        (best, low) = if lower { (i + 1, e.key) } else { (best, low) };
    }
    bucket::entry_at(slice, best)
}

// The smallest standing bib above k: the least bib above k if its last copy is a post, else that above it. As for a bucket in `next`, whose
// `least` keeps key and place in one number: a journal has more places than that has room for.
fn standing(slice: &[u8], used: usize, k: u32, t: u32) -> Option<Entry>
    requires { (16 * used ≤ length slice.now) × (runs is_data (sectors 0 slice.now 0 used) ≡ true) }
    ensures { result ≡ stand_in k t (sectors 0 slice.now 0 used) None }
{
    let mut x = k;
    while let Some(e) = least(slice, used, x, t) {
        let posted = e.is_post();
        if posted {
            return Some(e);
        }
        x = e.key;
    }
    None
}

fn following(slice: &[u8], bib: u32, at: u32) -> Result<Answer, Refusal>
    ensures { result_of result ≡ journal_next slice.now bib at }
{
    let pass = read(slice, bib, at)?;
    match standing(slice, pass.used, bib, at) {
        Some(e) => Ok(next::given(e)),
        None => Ok(Answer::end()),
    }
}

// The next standing bib above `bib` as of `at`, or the end.
pub fn next(slice: &[u8], bib: u32, at: u32) -> Answer
    ensures { result ≡ journal_next slice.now bib at }
{
    Answer::of(following(slice, bib, at))
}
