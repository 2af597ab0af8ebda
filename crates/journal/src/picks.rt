// The decisions of a journal, on an entry at a time.
ghost use Rattle.std.specs.Prelude.{◌≡◌};
ghost use Rattle.journal.specs.Passes.{follows, admitted, lower};

use crate::Pass;
use rules::{Entry, Refusal};

// Whether the entry may come after this stamp: a post or strike, its own stamp above it.
#[tactic(auto, unfolding(crate::specs::Passes::follows))]
pub fn follows(last: u32, e: Entry) -> bool
    ensures { result ≡ follows last e }
{
    e.is_data() && last < e.stamp
}

// What a sound journal of so many sectors has against the entry, in the card's order.
#[tactic(auto, unfolding(crate::specs::Passes::admitted, crate::specs::Passes::first_of, crate::specs::Passes::stands))]
pub fn admit(e: Entry, pass: Pass, count: usize) -> Result<(), Refusal>
    ensures { result ≡ admitted e pass count }
{
    sector::check(e)?;
    if e.stamp <= pass.last {
        return Err(Refusal::Stamp);
    }
    if !e.is_post() && !pass.copy.is_some_and(Entry::is_post) {
        return Err(Refusal::NothingStands);
    }
    if pass.used == count {
        return Err(Refusal::Full);
    }
    Ok(())
}

// Whether the entry is stamped t or earlier, its bib above x and not above the lowest so far.
#[tactic(auto, unfolding(crate::specs::Passes::lower))]
pub fn lower(x: u32, t: u32, low: u32, e: Entry) -> bool
    ensures { result ≡ lower x t low e }
{
    e.stamp <= t && x < e.key && e.key <= low
}
