// Next's decisions, on an entry at a time.
ghost use Rattle.std.specs.Prelude.{◌≡◌, ◌≤◌, ◌<◌};
ghost use Rattle.scan.specs.Next.{nearer, lower};
ghost use Rattle.next.specs.Ranks.{rank_above};

use rules::Entry;
use scan::Found;

// The one with the lesser key of two that two scans found, of one key the second; damage in either is damage.
#[tactic(auto, unfolding(scan::specs::Next::lower))]
pub fn lower(up: Found, found: Found) -> Found
    ensures { result ≡ lower up found }
{
    Ok(nearer(up?, found?))
}

// The same of two entries that may be there.
#[tactic(auto, unfolding(scan::specs::Next::nearer, scan::specs::Next::under))]
pub fn nearer(up: Option<Entry>, found: Option<Entry>) -> Option<Entry>
    ensures { result ≡ nearer up found }
{
    match (up, found) {
        (Some(o), Some(e)) if o.key < e.key => up,
        (_, None) => up,
        _ => found,
    }
}

// The key and the place of an entry as one number, where it is stamped t or earlier and its key is above x; else 0.
// Of two such numbers the larger has the lesser key, and of one key the later place.
#[tactic(auto, unfolding(crate::specs::Ranks::rank_above))]
pub fn rank_above(x: u32, t: u32, e: Entry, place: usize) -> u64
    requires { place < 64 }
    ensures { (result ≡ rank_above x t e place) × (e.key ≤ 4294967295) }
{
    let in_time = e.stamp <= t;
    if in_time && x < e.key {
        64 * u64::from(u32::MAX - e.key) + place as u64
    } else {
        0
    }
}
