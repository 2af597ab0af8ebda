// Format: a blank card becomes one with no result.
#![tactic(auto)]

ghost use Rattle.std.specs.Prelude.{◌≡◌, true, ◌-◌, ◌/◌, length, MatchResult};
ghost use Rattle.rules.specs.Plain.{zeros};
ghost use Rattle.rules.specs.Layout.{limits, size_of};
ghost use Rattle.rules.specs.Refusals.{number};
ghost use Rattle.rules.specs.Write.{refuse, accept, plan_answer, plan_card};
ghost use Rattle.rules.specs.Format.{or_else, meant, formatted, format_for, format};

use rules::{Answer, Entry, Head, Refusal};

// A number, or what stands for it where it is 0.
#[tactic(auto, unfolding(rules::specs::Format::or_else))]
fn or_else(x: usize, other: usize) -> usize
    ensures { result ≡ or_else x other }
{
    match x {
        0 => other,
        _ => x,
    }
}

// The geometry that the numbers mean: 0 stands for the defaults.
#[tactic(auto, unfolding(rules::specs::Format::meant))]
pub fn meant(buckets: u32, sectors: u32, td: u32, ti: u32) -> Head
    ensures { result ≡ meant buckets sectors td ti }
{
    let m = sectors as usize;
    Head {
        m,
        td: or_else(td as usize, m / 2),
        ti: or_else(ti as usize, m - m / 8),
        n: buckets as usize,
    }
}

// The head, the root entry, and what buckets 1 and 2 begin with; all of it into blank sectors.
fn lay_out(card: &mut [u8], head: Head)
    requires { (limits head ≡ true) × (length card.old ≡ size_of head) × (zeros card.old ≡ true) }
    ensures { card.new ≡ formatted head card.old }
{
    let first = 1 + head.n;
    let second = first + head.m;
    writer::write_head(card, head, 0);
    writer::write_entry(card, 1, Entry::root(0, 1));
    writer::write_entry(card, first, Entry::index(0, 0, 2));
    writer::write_entry(card, second, Entry::strike(0, 0));
}

// The card laid out, or what refuses it: first the geometry, whether or not the card is blank.
#[tactic(auto, unfolding(rules::specs::Format::format_for, rules::specs::Write::refuse_if))]
fn format_for(card: &mut [u8], head: Head) -> Result<(), Refusal>
    ensures { MatchResult result (λ _. format_for card.old head ≡ accept card.new) (λ r. (format_for card.old head ≡ refuse (number r)) × (card.new ≡ card.old)) }
{
    if !walk::head::suits(head, card.len()) {
        return Err(Refusal::Shape);
    }
    if !sector::all_zero(card) {
        return Err(Refusal::NotBlank);
    }
    lay_out(card, head);
    Ok(())
}

// A card of the lent length with this geometry, empty of results.
#[tactic(auto, unfolding(rules::specs::Format::format, rules::specs::Write::plan_answer, rules::specs::Write::plan_card, rules::specs::Answers::refused, rules::specs::Answers::ended))]
pub fn format(card: &mut [u8], buckets: u32, sectors: u32, td: u32, ti: u32) -> Answer
    ensures value { result ≡ plan_answer (format card.old buckets sectors td ti) }
    ensures card_after { card.new ≡ plan_card card.old (format card.old buckets sectors td ti) }
{
    match format_for(card, meant(buckets, sectors, td, ti)) {
        Ok(()) => Answer::end(),
        Err(refusal) => Answer::from(refusal),
    }
}
