// The buckets and the log of a card, as parts of it, and the search of one of them.
#![tactic(auto)]

ghost use Rattle.std.specs.Prelude.{◌≡◌, ◌+◌, ◌-◌, ◌*◌, ◌≤◌, ◌<◌, length, drop, true, false, None, MatchResult};
ghost use Rattle.rules.specs.Layout.{base, beginning};
ghost use Rattle.rules.specs.Sector.{is_root, decode, sector_at};
ghost use Rattle.scan.specs.Scan.{sectors, all_blank, scan_in, pick, pick_root, search, root_in, search_log};
ghost use Rattle.scan.specs.Back.{last_first, written, holds, sound};
ghost use Rattle.scan.specs.Look.{part_of, log_of, search_at};
ghost use Rattle.bucket.specs.Places.{found_at, data_fits, index_fits};
ghost use Rattle.bucket.specs.Shapes.{Shape};

pub mod picks;

use rules::{Damage, Entry, Head, Refusal, Sector};
use scan::{Found, Way};

// A card whose head was read: it has the length that its head asks for.
#[derive(Clone, Copy)]
pub struct Card<'a> {
    pub bytes: &'a [u8],
    pub head: Head,
    ghost shape: { Shape head bytes.now },
}

impl<'a> Card<'a> {
    // The stamp that the card begins with.
    pub fn beginning(&self) -> u32
        ensures { result ≡ beginning self.now.bytes.now }
    {
        sector::read_word(sector::bytes(self.bytes, 0), 8)
    }

    // A question as of an earlier stamp is refused.
    pub fn as_of(&self, at: u32) -> Result<(), Refusal>
        ensures { MatchResult result (λ _. beginning self.now.bytes.now ≤ at) (λ r. (r ≡ Refusal.TooEarly) × (at < beginning self.now.bytes.now)) }
    {
        if at < self.beginning() {
            return Err(Refusal::TooEarly);
        }
        Ok(())
    }

    // The bytes from bucket b to the card's end.
    pub fn from_bucket(&self, b: u32) -> &'a [u8]
        requires { (1 ≤ b) × (b ≤ self.now.head.n) }
        ensures { (result.now ≡ drop (16 * base self.now.head b) self.now.bytes.now) × (16 * self.now.head.m ≤ length result.now) }
    {
        let head = self.head;
        let a = 16 * (1 + head.n + head.m * (b as usize - 1));
        &self.bytes[a..]
    }

    // The m x 16 bytes of bucket b.
    pub fn bucket(&self, b: u32) -> &'a [u8]
        requires { (1 ≤ b) × (b ≤ self.now.head.n) }
        ensures { (result.now ≡ part_of self.now.head self.now.bytes.now b) × (length result.now ≡ 16 * self.now.head.m) }
    {
        &self.from_bucket(b)[..16 * self.head.m]
    }

    // The n x 16 bytes of the root log.
    pub fn log(&self) -> &'a [u8]
        ensures { (result.now ≡ log_of self.now.head self.now.bytes.now) × (length result.now ≡ 16 * self.now.head.n) }
    {
        &self.bytes[16..16 + 16 * self.head.n]
    }

    // The search of bucket b.
    pub fn search(&self, b: u32, header: u32, key: u32, stamp: u32) -> Result<Way, Damage>
        requires { (1 ≤ b) × (b ≤ self.now.head.n) }
        ensures { result ≡ search_at self.now.head self.now.bytes.now key stamp b header }
    {
        search_part(self.bucket(b), self.head.n, self.head.m, header, key, stamp)
    }

    // The last root entry of the log stamped `stamp` or earlier, none where no entry is.
    pub fn find_root(&self, stamp: u32) -> Found
        ensures { result ≡ search_log stamp (sectors self.now.head.n self.now.bytes.now 1 self.now.head.n) }
    {
        scan_log(self.log(), self.head.n, self.head.n, stamp)
    }

    // The root entry that a walk as of `stamp` starts from: a log without one is damage to it.
    pub fn root_at(&self, stamp: u32) -> Result<Entry, Damage>
        ensures { result ≡ root_in (search_log stamp (sectors self.now.head.n self.now.bytes.now 1 self.now.head.n)) }
    {
        self.find_root(stamp)?.ok_or(Damage)
    }
}

// The entry before sector `place` of a part; none where `place` is 0.
pub fn entry_at(part: &[u8], place: usize) -> Option<Entry>
    requires { 16 * place ≤ length part.now }
    ensures { result ≡ found_at part.now place }
{
    let i = place.checked_sub(1)?;
    Some(sector::fields_at(part, i))
}

// Whether all sectors behind sector i of a part are blank: they are not decoded, their bytes are asked at one go.
pub fn blank_behind(part: &[u8], n: usize, count: usize, i: usize) -> bool
    requires { (length part.now ≡ 16 * count) × (i < count) }
    ensures { result ≡ all_blank (sectors n part.now (i + 1) (count - (i + 1))) }
{
    sector::all_zero(&part[16 * i + 16..])
}

// How many sectors are left once the blanks at the end are passed over, from the last sector down.
fn run_end(part: &[u8], n: usize, count: usize) -> usize
    requires { 16 * count ≤ length part.now }
    ensures { (result ≤ count) × (last_first n part.now result ≡ written (last_first n part.now count)) }
{
    for i in (0..count).rev() {
        if !sector::blank_at(part, i) {
            return i + 1;
        }
    }
    0
}

// Whether sector i holds a post or strike, its key not below the header. A blank before a written sector is damage, so it is a no.
fn fits_at(part: &[u8], n: usize, header: u32, i: usize) -> bool
    requires { 16 * i + 16 ≤ length part.now }
    ensures { result ≡ holds (data_fits header) (decode n (sector_at part.now i)) }
{
    match sector::at(part, n, i) {
        Sector::Held(e) => picks::data_fits(header, e),
        _ => false,
    }
}

// Whether all sectors before the i-th do. The record is known by then: they are judged, and not compared with the key sought.
fn sound_before(part: &[u8], n: usize, header: u32, i: usize) -> bool
    requires { 16 * i ≤ length part.now }
    ensures { result ≡ sound (data_fits header) (last_first n part.now i) }
{
    for j in (0..i).rev() {
        if !fits_at(part, n, header, j) {
            return false;
        }
    }
    true
}

// The sectors of a data bucket, from the last down: blanks, and then a run of posts and strikes, no key below the header.
// The first copy of x met so is its last, and decides; damage before it counts all the same.
fn scan_data(part: &[u8], n: usize, count: usize, header: u32, x: u32, t: u32) -> Found
    requires { 16 * count ≤ length part.now }
    ensures { result ≡ scan_in (data_fits header) (pick false x t) (sectors n part.now 0 count) None }
{
    let end = run_end(part, n, count);
    for i in (0..end).rev() {
        let Sector::Held(e) = sector::at(part, n, i) else {
            return Err(Damage);
        };
        if !picks::data_fits(header, e) {
            return Err(Damage);
        }
        if picks::is_copy(x, t, e) {
            if sound_before(part, n, header, i) {
                return Ok(Some(e));
            }
            return Err(Damage);
        }
    }
    Ok(None)
}

// The sectors of an index bucket, from the first on: a run of index entries, no key below the header, and then blanks.
// The largest key not above x and the place of its last copy are kept as one number, and no entry is carried from turn to turn.
fn scan_index(part: &[u8], n: usize, count: usize, header: u32, x: u32, t: u32) -> Found
    requires { (length part.now ≡ 16 * count) × (count ≤ 32) }
    ensures { result ≡ scan_in (index_fits header) (pick true x t) (sectors n part.now 0 count) None }
{
    let mut best = 0;
    for i in 0..count {
        match sector::at(part, n, i) {
            Sector::Held(e) if picks::index_fits(header, e) => {
                best = picks::rank(x, t, e, i + 1).max(best);
            }
            Sector::Blank if blank_behind(part, n, count, i) => break,
            _ => return Err(Damage),
        }
    }
    Ok(entry_at(part, picks::place_of(best)))
}

// The sectors of the log likewise: the place of the last root entry.
fn scan_log(part: &[u8], n: usize, count: usize, t: u32) -> Found
    requires { (length part.now ≡ 16 * count) × (count ≤ 4096) }
    ensures { result ≡ scan_in is_root (pick_root t) (sectors n part.now 0 count) None }
{
    let mut place = 0;
    for i in 0..count {
        match sector::at(part, n, i) {
            Sector::Held(e) if e.is_root() => {
                let early = e.stamp <= t;
                place = if early { i + 1 } else { place };
            }
            Sector::Blank if blank_behind(part, n, count, i) => break,
            _ => return Err(Damage),
        }
    }
    Ok(entry_at(part, place))
}

// One pass over a bucket of m sectors, which `header` was followed to: its damage, its header, and the entry on the way to the key.
fn search_part(
    part: &[u8],
    n: usize,
    m: usize,
    header: u32,
    key: u32,
    stamp: u32,
) -> Result<Way, Damage>
    requires part_len { length part.now ≡ 16 * m }
    requires le_m { (4 ≤ m) × (m ≤ 32) }
    ensures { result ≡ search header key stamp (sectors n part.now 0 m) }
{
    let Sector::Held(top) = sector::at(part, n, 0) else {
        return Err(Damage);
    };
    let astray = top.key != header;
    if astray {
        return Err(Damage);
    }
    if top.is_index() {
        let down = scan_index(part, n, m, header, key, stamp)?.ok_or(Damage)?;
        return Ok(Way::Down(down));
    }
    let copy = scan_data(part, n, m, header, key, stamp)?;
    Ok(Way::End(copy))
}
