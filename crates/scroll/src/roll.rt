// The records of a scroll in a row: counted, and laid down.
ghost use Rattle.std.specs.Prelude.{◌≡◌, ◌*◌, ◌≤◌, length, MatchResult};
ghost use Rattle.std.specs.Iterator.{YieldsFirst, item_count};
ghost use Rattle.writer.specs.Rows.{puts};
ghost use Rattle.rules.specs.Records.{rolled};
ghost use Rattle.scroll.specs.Records.{tally_of, tally_met};
ghost use Rattle.scroll.specs.Left.{left};

use rules::{Entry, Refusal};

// The records above a bib as of a stamp, one after the other, so many at most. The end and a refusal both end them: `counted` tells
// which.
#[derive(Drop)]
pub struct Records<'a> {
    card: &'a [u8],
    at: u32,
    last: u32,
    places: usize,
}

impl<'a> Records<'a> {
    pub fn above(card: &'a [u8], bib: u32, at: u32, places: usize) -> Records<'a>
        ensures { left result ≡ (rolled card.now at places bib).records }
    {
        Records {
            card,
            at,
            last: bib,
            places,
        }
    }
}

impl<'a> Iterator for Records<'a> {
    type Item = Entry;

    ghost next_gives = { YieldsFirst left };

    ghost remaining = { item_count left };

    fn next(&mut self) -> Option<Entry> {
        self.places = self.places.checked_sub(1)?;
        let Ok(Some(e)) = next::following(self.card, self.last, self.at) else {
            return None;
        };
        self.last = e.key;
        Some(e)
    }
}

// The refusal that ends a row of records, and how many stood before it.
#[derive(Clone, Copy, Debug, PartialEq, Eq)]
pub struct Cut {
    pub refusal: Refusal,
    pub count: usize,
}

impl From<Cut> for Refusal {
    ghost from_gives = { λ cut r. r ≡ cut.refusal };

    fn from(cut: Cut) -> Refusal {
        cut.refusal
    }
}

// How many records come above a bib, up to so many places; and the refusal that ends them, if one does.
pub fn counted(card: &[u8], bib: u32, at: u32, places: usize) -> Result<usize, Cut>
    ensures value { tally_met result ≡ tally_of (rolled card.now at places bib) }
    ensures most { MatchResult result (λ count. count ≤ places) (λ cut. cut.count ≤ places) }
{
    let mut last = bib;
    for count in 0..places {
        match next::following(card, last, at) {
            Ok(Some(e)) => last = e.key,
            Ok(None) => return Ok(count),
            Err(refusal) => return Err(Cut { refusal, count }),
        }
    }
    Ok(places)
}

// The records above a bib, into the first sectors of the buffer.
pub fn lay(card: &[u8], bib: u32, at: u32, out: &mut [u8], places: usize)
    requires { 16 * places ≤ length out.old }
    ensures { out.new ≡ puts out.old 0 (rolled card.now at places bib).records }
{
    for (i, e) in Records::above(card, bib, at, places).enumerate() {
        writer::write_entry(out, i, e);
    }
}
