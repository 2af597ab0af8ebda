// The season card: what stands as of a stamp goes on to a blank second card.
#![tactic(auto)]

ghost use Rattle.std.specs.Prelude.{◌≡◌, true, ◌+◌, ◌-◌, ◌≤◌, length, MatchResult};
ghost use Rattle.rules.specs.Plain.{zeros};
ghost use Rattle.rules.specs.Sector.{put, encode, root_entry};
ghost use Rattle.rules.specs.Layout.{limits, size_of, head_of};
ghost use Rattle.rules.specs.Refusals.{number};
ghost use Rattle.rules.specs.Write.{refuse, accept, plan_answer, plan_card};
ghost use Rattle.rules.specs.Season.{standing_at, quota, built, season_to, season_for, season};
ghost use Rattle.season.specs.Storeys.{fresh};

pub mod storeys;

use rules::{Entry, Head, Refusal};
use storeys::Storey;

#[tactic(auto, unfolding(rules::specs::Season::quota))]
fn quota(head: Head) -> usize
    requires { head.m ≤ 32 }
    ensures { result ≡ quota head }
{
    3 * head.m / 4
}

// The head, the dummy and the count records, the index levels, and last of all the root entry.
fn build(card: &[u8], at: u32, target: &mut [u8], head: Head, count: usize, next: usize)
    requires head_value { (limits head ≡ true) × (length target.old ≡ size_of head) × (zeros target.old ≡ true) }
    requires count_value { (count ≡ length (standing_at card.now at).records) × (count ≤ 4294967296) × (next ≡ fresh (quota head) (count + 1)) × (next ≤ head.n + 1) }
    ensures { target.new ≡ put (built head at (standing_at card.now at).records target.old).card 1 (encode (root_entry at (next - 1))) }
{
    let q = quota(head);
    let first = 1 + head.n;
    writer::write_head(target, head, at);
    writer::write_entry(target, first, Entry::strike(0, 0));
    let data = Storey {
        m: head.m,
        q,
        first,
    };
    storeys::lay_records(card, at, target, data, count);
    let c = storeys::over(q, count + 1);
    storeys::tower(target, head, at, q, 1, c);
    let root = Entry::root(at, next as u32 - 1);
    writer::write_entry(target, 1, root);
}

// What stands as of `at`, onto a target that has been judged neither by length nor by its bytes.
fn season_to(card: &[u8], at: u32, target: &mut [u8], head: Head) -> Result<(), Refusal>
    ensures { MatchResult result (λ _. season_to head at target.old (standing_at card.now at) ≡ accept target.new) (λ r. (season_to head at target.old (standing_at card.now at) ≡ refuse (number r)) × (target.new ≡ target.old)) }
{
    if !walk::head::suits(head, target.len()) {
        return Err(Refusal::Shape);
    }
    if !sector::all_zero(target) {
        return Err(Refusal::NotBlank);
    }
    let Ok(count) = scroll::roll::counted(card, 0, at, 4294967296) else {
        return Err(Refusal::Damage);
    };
    let next = storeys::needed(quota(head), count + 1);
    if head.n + 1 < next {
        return Err(Refusal::Full);
    }
    build(card, at, target, head, count, next);
    Ok(())
}

// The source's head and beginning are asked ahead of all else.
fn season_of(card: &[u8], at: u32, target: &mut [u8], head: Head) -> Result<(), Refusal>
    ensures { MatchResult result (λ _. season_for card.now at target.old head (head_of card.now) ≡ accept target.new) (λ r. (season_for card.now at target.old head (head_of card.now) ≡ refuse (number r)) × (target.new ≡ target.old)) }
{
    walk::head::read(card)?.as_of(at)?;
    season_to(card, at, target, head)
}

// A season card of `card` as of `at`, with this geometry, on the lent target: 0, or the number of the refusal.
#[tactic(auto, unfolding(rules::specs::Season::season, rules::specs::Write::plan_answer, rules::specs::Write::plan_card, rules::specs::Answers::refused))]
pub fn season(
    card: &[u8],
    at: u32,
    target: &mut [u8],
    buckets: u32,
    sectors: u32,
    td: u32,
    ti: u32,
) -> u32
    ensures value { result ≡ (plan_answer (season card.now at target.old buckets sectors td ti)).code }
    ensures target_after { target.new ≡ plan_card target.old (season card.now at target.old buckets sectors td ti) }
{
    match season_of(card, at, target, format::meant(buckets, sectors, td, ti)) {
        Ok(()) => 0,
        Err(refusal) => refusal.number(),
    }
}
