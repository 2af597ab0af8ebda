// Everything ever said of one bib: the pages of its entries are counted, and laid down alike where all of them have room.
#![tactic(auto)]

ghost use Rattle.std.specs.Prelude.{◌≡◌, ◌/◌, ◌≤◌, length};
ghost use Rattle.std.specs.Prelude.{Some};
ghost use Rattle.rules.specs.History.{history};
ghost use Rattle.writer.specs.Rows.{puts};
ghost use Rattle.scroll.specs.Records.{tally_of, tally_from};
ghost use Rattle.gather.specs.Pages.{said, firsts};
ghost use Rattle.history.specs.Told.{after, fit_after, row_of, HasRoom};

use bucket::Card;
use hand::Hand;
use rules::Refusal;
use scroll::Tally;

// Where the page after this one begins. A short page is the last, so that most histories take one pass.
#[tactic(auto, unfolding(crate::specs::Told::after))]
fn after(page: &Hand) -> Option<u64>
    ensures { result ≡ after page.now }
{
    let last = page.len() < 34;
    if last {
        return None;
    }
    Some(gather::next_from(page))
}

// Page after page, until the entries are counted or too many. No iterator of pages, here and below: it would read the first page twice.
fn counted(
    card: &Card<'_>,
    bib: u32,
    at: u32,
    places: usize,
    first: &Hand,
) -> Result<usize, Refusal>
    requires { (places ≤ 1152921504606846975) × (Some first.now ≡ firsts (said card.now.head card.now.bytes.now bib at 0)) }
    ensures { result ≡ fit_after places 0 (said card.now.head card.now.bytes.now bib at 0) }
{
    let mut total = first.len();
    let mut more = after(first);
    loop {
        if places < total {
            return Err(Refusal::NoRoom);
        }
        let Some(from) = more else {
            return Ok(total);
        };
        let page = gather::page_from(card, bib, at, from)?;
        total += page.len();
        more = after(&page);
    }
}

// Page after page, into the first sectors of the buffer. No page is damaged, since the first was not.
fn lay(card: &Card<'_>, bib: u32, at: u32, out: &mut [u8], first: Hand)
    requires { (Some first ≡ firsts (said card.now.head card.now.bytes.now bib at 0)) × HasRoom (length out.old) 0 (said card.now.head card.now.bytes.now bib at 0) }
    ensures { out.new ≡ row_of out.old 0 (said card.now.head card.now.bytes.now bib at 0) }
{
    let mut page = first;
    let mut k = 0;
    loop {
        level::write_run(out, k, page.as_slice());
        let Some(from) = after(&page) else {
            return;
        };
        k += 34;
        let Ok(next) = gather::page_from(card, bib, at, from) else {
            return;
        };
        page = next;
    }
}

// Each entry once, by rising stamp, as sectors of the buffer. They are counted first: a refusal leaves the buffer as it was.
fn told(card: &[u8], bib: u32, at: u32, out: &mut [u8]) -> Result<usize, Refusal>
    ensures value { tally_from result ≡ tally_of (history card.now bib at (length out.old / 16)) }
    ensures out_after { out.new ≡ puts out.old 0 (history card.now bib at (length out.old / 16)).records }
{
    let card = walk::head::read(card)?;
    if bib == 0 {
        return Err(Refusal::NoBib);
    }
    card.as_of(at)?;
    let first = gather::page_from(&card, bib, at, 0)?;
    let total = counted(&card, bib, at, out.len() / 16, &first)?;
    lay(&card, bib, at, out, first);
    Ok(total)
}

// Everything ever said of the bib as of a stamp, in a row in the buffer.
pub fn history(card: &[u8], bib: u32, at: u32, out: &mut [u8]) -> Tally
    ensures value { result ≡ tally_of (history card.now bib at (length out.old / 16)) }
    ensures out_after { out.new ≡ puts out.old 0 (history card.now bib at (length out.old / 16)).records }
{
    Tally::of(told(card, bib, at, out))
}
