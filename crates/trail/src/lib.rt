// The walk of a write: as of the latest stamp, with the buckets it met written down, the lowest level first.
#![tactic(auto)]

ghost use Rattle.std.specs.Prelude.{◌≡◌, ◌≤◌, [], length};
ghost use Rattle.laws.proofs.Roots.{root_now};
ghost use Rattle.trail.specs.Trail.{Went, track_scan, track_from};
ghost use Rattle.trail.specs.declared.Astray.TheVariants as Ways;

use bucket::Card;
use rules::{Damage, Entry};
use scan::Way;

// Where the walk's buckets begin in the lent path, and the last copy of the key in the data bucket.
#[derive(Clone, Copy)]
pub struct Trail {
    pub start: usize,
    pub copy: Option<Entry>,
}

// Why a walk came to no data bucket: the card is damaged, or the path has fewer places than the walk has buckets.
#[derive(Clone, Copy, Debug, PartialEq, Eq)]
pub enum Astray {
    Damaged,
    Deep,
}

impl From<Damage> for Astray {
    ghost from_gives = { λ _ a. a ≡ Ways.Damaged };

    fn from(_: Damage) -> Astray {
        Astray::Damaged
    }
}

// From the root down. The path is filled from its end, so that the bucket met last comes first.
fn descend(card: &Card, root: u32, key: u32, path: &mut [u32]) -> Result<Trail, Astray>
    requires { (1 ≤ root) × (root ≤ card.now.head.n) }
    ensures { Went result (length path.old) card.now.head.n path.new (track_scan card.now.head card.now.bytes.now key card.now.head.n [] root 0) }
{
    let places = path.len();
    let mut b = root;
    let mut header = 0;
    for above in 0..card.head.n {
        if above == places {
            return Err(Astray::Deep);
        }
        let reads = above + 1;
        let start = places - reads;
        path[start] = b;
        match card.search(b, header, key, u32::MAX)? {
            Way::Down(e) => {
                b = e.value;
                header = e.key;
            }
            Way::End(copy) => return Ok(Trail { start, copy }),
        }
    }
    Err(Astray::Damaged)
}

// The bucket of the log's last root entry; 0, which is no bucket, where the log is damaged, which it judges as a whole. A number and no
// Option: it is carried from write to write, and a walk from bucket 0 is damage by the rule as any other that leads nowhere.
pub fn root_of(card: &Card) -> u32
    ensures { result ≡ root_now card.now.head card.now.bytes.now }
{
    match card.root_at(u32::MAX) {
        Ok(root) => root.value,
        Err(Damage) => 0,
    }
}

// The walk to a key. The root is given, so that who walks more than once has the log judged once.
pub fn walk_down(card: &Card, root: u32, key: u32, path: &mut [u32]) -> Result<Trail, Astray>
    requires { root ≡ root_now card.now.head card.now.bytes.now }
    ensures { Went result (length path.old) card.now.head.n path.new (track_from card.now.head card.now.bytes.now key root) }
{
    if root == 0 {
        return Err(Astray::Damaged);
    }
    descend(card, root, key, path)
}
