// The decisions of the scans, on an entry at a time. Each gives a yes or no or a number, and what is kept is chosen by it.
ghost use Rattle.std.specs.Prelude.{◌≡◌, ◌<◌, ◌%◌};
ghost use Rattle.bucket.specs.Places.{data_fits, index_fits, is_copy, rank};

use rules::Entry;

// Whether the entry may stand in a data bucket with this header.
#[tactic(auto, unfolding(crate::specs::Places::data_fits))]
pub fn data_fits(header: u32, e: Entry) -> bool
    ensures { result ≡ data_fits header e }
{
    e.is_data() && header <= e.key
}

// Whether the entry may stand in an index bucket with this header.
#[tactic(auto, unfolding(crate::specs::Places::index_fits))]
pub fn index_fits(header: u32, e: Entry) -> bool
    ensures { result ≡ index_fits header e }
{
    e.is_index() && header <= e.key
}

// Whether the entry is a copy of x stamped t or earlier.
#[tactic(auto, unfolding(crate::specs::Places::is_copy))]
pub fn is_copy(x: u32, t: u32, e: Entry) -> bool
    ensures { result ≡ is_copy x t e }
{
    e.stamp <= t && e.key == x
}

// The key and the place of an entry as one number, where it is stamped t or earlier and its key is not above x; else 0.
// Of two such numbers the larger has the larger key, and of one key the later place.
#[tactic(auto, unfolding(crate::specs::Places::rank))]
pub fn rank(x: u32, t: u32, e: Entry, place: usize) -> u64
    requires { place < 64 }
    ensures { result ≡ rank x t e place }
{
    if e.stamp <= t && e.key <= x {
        64 * u64::from(e.key) + place as u64
    } else {
        0
    }
}

// The place in such a number.
pub fn place_of(rank: u64) -> usize
    ensures { result ≡ rank % 64 }
{
    (rank % 64) as usize
}
