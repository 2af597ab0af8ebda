// The levels of a season card: their entries laid down one after the other, the pairs of a level read back from the headers of the one below.
ghost use Rattle.std.specs.Prelude.{◌≡◌, ◌+◌, ◌-◌, ◌*◌, ◌/◌, ◌≤◌, ◌<◌};
ghost use Rattle.rules.specs.Records.{rolled};
ghost use Rattle.bucket.specs.Shapes.{Shape};
ghost use Rattle.season.specs.Storeys.{spot, over, laid, pair_on, raised, tiers, heap, fresh, Room};

use rules::{Entry, Head};
use scroll::roll::Records;

// A level of the card: its buckets of m sectors begin at sector `first` and take q entries each.
#[derive(Clone, Copy)]
pub struct Storey {
    pub m: usize,
    pub q: usize,
    pub first: usize,
}

impl Storey {
    // The sector of entry j.
    #[tactic(auto, unfolding(crate::specs::Storeys::spot))]
    fn spot(self, j: usize) -> usize
        requires { (1 ≤ self.q) × (spot self.m self.q self.first j ≤ 1000000) }
        ensures { result ≡ spot self.m self.q self.first j }
    {
        self.first + self.m * (j / self.q) + j % self.q
    }
}

// The buckets that c entries fill.
pub fn over(q: usize, c: usize) -> usize
    requires { (1 ≤ q) × (q ≤ 32) × (c ≤ 10000000000) }
    ensures { result ≡ over q c }
{
    c.div_ceil(q)
}

// The next fresh bucket when a card of so many entries, the dummy with them, is built. The loop counts no index: it ends with the root.
pub fn needed(q: usize, entries: usize) -> usize
    requires { (3 ≤ q) × (q ≤ 32) × (1 ≤ entries) × (entries ≤ 4294967297) }
    ensures { result ≡ fresh q entries }
{
    let mut c = over(q, entries);
    let mut next = 1 + c;
    loop {
        let up = over(q, c);
        next += up;
        if up <= 1 {
            return next;
        }
        c = up;
    }
}

// The standing records, each at its sector of the data level; the dummy is entry 0.
pub fn lay_records(card: &[u8], at: u32, target: &mut [u8], storey: Storey, count: usize)
    requires { Room storey.m storey.q storey.first (count + 1) target.old × (count ≤ 4294967296) }
    ensures { target.new ≡ laid storey.m storey.q storey.first 1 target.old (rolled card.now at count 0).records }
{
    for (j, e) in Records::above(card, 0, at, count).enumerate() {
        let sector = storey.spot(j + 1);
        writer::write_entry(target, sector, e);
    }
}

// The pair of bucket b, its key read from the bucket's header.
fn pair_on(card: &[u8], head: Head, stamp: u32, b: usize) -> Entry
    requires { Shape head card.now × (1 ≤ b) × (b ≤ head.n) }
    ensures { result ≡ pair_on head stamp card.now b }
{
    let first = climb::first_sector(head, b);
    let key = sector::read_word(sector::bytes(card, first), 4);
    Entry::index(key, stamp, b as u32)
}

// The level over the count buckets from bucket b on, its own buckets from sector i on.
fn raise(target: &mut [u8], head: Head, stamp: u32, q: usize, b: usize, i: usize, count: usize)
    requires { Shape head target.old × Room head.m q i count target.old × (1 ≤ b) × (b + count ≤ head.n + 1) }
    ensures { target.new ≡ raised head stamp q b i 0 count target.old }
{
    let storey = Storey {
        m: head.m,
        q,
        first: i,
    };
    for j in 0..count {
        let e = pair_on(target, head, stamp, b + j);
        let sector = storey.spot(j);
        writer::write_entry(target, sector, e);
    }
}

// The levels over the count buckets from bucket `first` on, until one bucket is left.
pub fn tower(target: &mut [u8], head: Head, stamp: u32, q: usize, first: usize, count: usize)
    requires { Shape head target.old × (3 ≤ q) × (q ≤ head.m) × (1 ≤ first) × (1 ≤ count) × (heap q count (first + count) count ≤ head.n + 1) }
    ensures { target.new ≡ tiers head stamp q count first count target.old }
{
    let mut b = first;
    let mut c = count;
    loop {
        let fresh = b + c;
        let i = climb::first_sector(head, fresh);
        raise(target, head, stamp, q, b, i, c);
        let up = over(q, c);
        let top = up < 2;
        if top {
            return;
        }
        b = fresh;
        c = up;
    }
}
