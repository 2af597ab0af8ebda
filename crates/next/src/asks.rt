// What next asks of one bucket. A search has judged it, so that it is read by its fields alone.
ghost use Rattle.std.specs.Prelude.{◌≡◌, Bool, true, None, ◌*◌, ◌≤◌, length};
ghost use Rattle.rules.specs.declared.Entry.{Entry};
ghost use Rattle.rules.specs.Sector.{is_index, is_data};
ghost use Rattle.scan.specs.Scan.{sectors};
ghost use Rattle.scan.specs.Next.{above_at, pick_up, weigh, runs, stand_in};

use crate::picks;
use rules::Entry;

// The least key above x of the entries stamped t or earlier, its last copy. A blank sector has key 0, which is above nothing.
fn least(part: &[u8], n: usize, m: usize, x: u32, t: u32) -> Option<Entry>
    requires { (length part.now ≡ 16 * m) × (m ≤ 32) × ((ok : Entry → Bool) × (runs ok (sectors n part.now 0 m) ≡ true)) }
    ensures { result ≡ weigh (above_at x t) (sectors n part.now 0 m) None }
{
    let mut best = 0;
    for i in 0..m {
        let e = sector::fields_at(part, i);
        best = picks::rank_above(x, t, e, i + 1).max(best);
    }
    bucket::entry_at(part, bucket::picks::place_of(best))
}

// The least key above x of an index bucket's entries, or the best so far where that is less.
pub fn least_above(
    part: &[u8],
    n: usize,
    m: usize,
    x: u32,
    t: u32,
    up: Option<Entry>,
) -> Option<Entry>
    requires { (length part.now ≡ 16 * m) × (m ≤ 32) × (runs is_index (sectors n part.now 0 m) ≡ true) }
    ensures { result ≡ weigh (pick_up x t) (sectors n part.now 0 m) up }
{
    picks::nearer(up, least(part, n, m, x, t))
}

// The smallest standing bib above k of a data bucket: the least bib above k if its last copy is a post, else that above it.
pub fn standing(part: &[u8], n: usize, m: usize, k: u32, t: u32) -> Option<Entry>
    requires { (length part.now ≡ 16 * m) × (m ≤ 32) × (runs is_data (sectors n part.now 0 m) ≡ true) }
    ensures { result ≡ stand_in k t (sectors n part.now 0 m) None }
{
    let mut x = k;
    while let Some(e) = least(part, n, m, x, t) {
        let posted = e.is_post();
        if posted {
            return Some(e);
        }
        x = e.key;
    }
    None
}
