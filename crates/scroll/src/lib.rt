// The operator's scroll: the records above a bib as of a stamp, one at a time, or in a row into a lent buffer.
#![tactic(auto)]

ghost use Rattle.std.specs.Prelude.{◌≡◌, ◌/◌, length};
ghost use Rattle.rules.specs.Next.{next};
ghost use Rattle.scroll.specs.Scroll.{after};
ghost use Rattle.writer.specs.Rows.{puts};
ghost use Rattle.rules.specs.Records.{rolled};
ghost use Rattle.scroll.specs.Records.{given, records_of, tally_of, tally_from};

pub mod roll;

use rules::{Answer, Refusal};

// "it holds the card it reads and the bib last given". It is no iterator: at its end it answers the end again, and a refusal its number.
#[derive(Clone, Copy)]
pub struct Scroll<'a> {
    pub card: &'a [u8],
    pub at: u32,
    pub last: u32,
}

impl<'a> Scroll<'a> {
    // A scroll before its first record.
    pub fn new(card: &'a [u8], at: u32) -> Scroll<'a>
        ensures { (result.card ≡ card.entry) × (result.at ≡ at) × (result.last ≡ 0) }
    {
        Scroll { card, at, last: 0 }
    }

    // The next record. After the end it is the end again; a refusal too is given again. Neither gives a bib: to keep its 0 as the last
    // would start the scroll anew.
    #[tactic(auto, unfolding(crate::specs::Scroll::last_after))]
    pub fn step(&mut self) -> Answer
        ensures { (result ≡ next self.old.card.now self.old.last self.old.at) × (self.new ≡ after self.old result) }
    {
        let a = next::next(self.card, self.last, self.at);
        let given = a.bib != 0;
        if given {
            self.last = a.bib;
        }
        a
    }
}

// How many records were laid down, beside 0; or no record, beside the number of a refusal. C has the struct.
#[repr(C)]
#[derive(Clone, Copy)]
pub struct Tally {
    pub code: u32,
    pub count: usize,
}

impl Tally {
    // What C is told.
    pub fn of(done: Result<usize, Refusal>) -> Tally
        ensures { result ≡ tally_from done }
    {
        match done {
            Ok(count) => Tally { code: 0, count },
            Err(r) => Tally {
                code: r.number(),
                count: 0,
            },
        }
    }
}

// The records above a bib as of a stamp, laid down as post sectors, as many as fit. They are counted first: a refusal met on
// the way leaves the buffer as it was.
fn page(card: &[u8], bib: u32, at: u32, out: &mut [u8]) -> Result<usize, Refusal>
    ensures value { tally_from result ≡ tally_of (given (rolled card.now at (length out.old / 16) bib)) }
    ensures out_after { out.new ≡ puts out.old 0 (given (rolled card.now at (length out.old / 16) bib)).records }
{
    let places = out.len() / 16;
    let count = roll::counted(card, bib, at, places)?;
    roll::lay(card, bib, at, out, count);
    Ok(count)
}

// The same, but the head is asked first: a buffer without room for a record asks for none, and would not see that it is broken or
// begins later.
fn recorded(card: &[u8], bib: u32, at: u32, out: &mut [u8]) -> Result<usize, Refusal>
    ensures value { tally_from result ≡ tally_of (records_of card.now at (length out.old / 16) bib) }
    ensures out_after { out.new ≡ puts out.old 0 (records_of card.now at (length out.old / 16) bib).records }
{
    walk::head::read(card)?.as_of(at)?;
    page(card, bib, at, out)
}

// The records above a bib as of a stamp, laid down as post sectors, as many as fit.
pub fn records(card: &[u8], bib: u32, at: u32, out: &mut [u8]) -> Tally
    ensures value { result ≡ tally_of (records_of card.now at (length out.old / 16) bib) }
    ensures out_after { out.new ≡ puts out.old 0 (records_of card.now at (length out.old / 16) bib).records }
{
    Tally::of(recorded(card, bib, at, out))
}
