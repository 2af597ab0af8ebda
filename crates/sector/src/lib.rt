// Sixteen bytes of a card, read and judged.
#![tactic(auto)]

ghost use Rattle.std.specs.Prelude.{◌≡◌, ◌+◌, ◌*◌, ◌≤◌, length, leb, eqb};
ghost use Rattle.rules.specs.Plain.{◌&◌, zeros};
ghost use Rattle.rules.specs.Sector.{word, decode, fields, status_fits, other_row, legal, sector_at};
ghost use Rattle.scan.specs.Words.{judged};
ghost use Rattle.sector.specs.Flaws.{checked};

use rules::{Entry, Kind, Refusal, Sector};

// The number of 32 bits in the four bytes from `at`, low first.
#[tactic(auto, unfolding(rules::specs::Sector::word))]
pub fn read_word(s: &[u8], at: usize) -> u32
    requires { at + 4 ≤ length s.now }
    ensures { result ≡ word s.now at }
{
    u32::from_le_bytes([s[at], s[at + 1], s[at + 2], s[at + 3]])
}

// Whether a status may stand beside a time: 0 beside any, 1 to 3 beside 0.
#[tactic(auto, unfolding(rules::specs::Sector::status_fits))]
pub fn status_fits(status: u32, time: u32) -> bool
    ensures { result ≡ status_fits status time }
{
    match status {
        0 => true,
        1..=3 => time == 0,
        _ => false,
    }
}

// Whether an entry may be written, whatever it is to be written to: it has a bib, and its status may stand beside its time.
#[tactic(auto, unfolding(crate::specs::Flaws::checked))]
pub fn check(e: Entry) -> Result<(), Refusal>
    ensures { result ≡ checked e }
{
    if e.key == 0 {
        return Err(Refusal::NoBib);
    }
    if !status_fits(e.status, e.value) {
        return Err(Refusal::NoStatus);
    }
    Ok(())
}

// Whether a value names one of n buckets.
fn names_bucket(n: usize, value: u32) -> bool
    ensures { result ≡ (leb 1 value & leb value n) }
{
    1 <= value && value as usize <= n
}

// Whether the fields keep their row of the table, on a card of n buckets. A status stands beside a post alone; it is asked last, which takes
// fewer instructions.
#[tactic(auto, unfolding(rules::specs::Sector::legal, rules::specs::Sector::other_row, rules::specs::Sector::is_post, rules::specs::Sector::is_strike, rules::specs::Sector::is_index, rules::specs::Sector::is_root, rules::specs::Kinds::kind_of))]
fn keeps_row(n: usize, e: Entry) -> bool
    ensures { result ≡ legal n e }
{
    match e.known_kind() {
        Some(Kind::Post) => 1 <= e.key && 1 <= e.stamp && status_fits(e.status, e.value),
        Some(Kind::Strike) => e.value == 0 && (1 <= e.key || e.stamp == 0) && e.status == 0,
        Some(Kind::Index) => names_bucket(n, e.value) && e.status == 0,
        Some(Kind::Root) => e.key == 0 && names_bucket(n, e.value) && e.status == 0,
        None => false,
    }
}

// Whether four words are all zero.
fn no_word(a: u32, b: u32, c: u32, d: u32) -> bool
    ensures { result ≡ (eqb a 0 & eqb b 0 & eqb c 0 & eqb d 0) }
{
    a == 0 && b == 0 && c == 0 && d == 0
}

// What four words of a sector are.
#[tactic(auto, unfolding(scan::specs::Words::judged))]
fn judge(n: usize, head: u32, key: u32, stamp: u32, value: u32) -> Sector
    ensures { result ≡ judged n head key stamp value }
{
    let e = Entry {
        kind: head % 256,
        status: head / 256,
        key,
        stamp,
        value,
    };
    if keeps_row(n, e) {
        Sector::Held(e)
    } else if no_word(head, key, stamp, value) {
        Sector::Blank
    } else {
        Sector::Damaged
    }
}

// What a sector is, on a card of n buckets. Bytes 0..3 are read as one word: what is above its kind is a status of the table only where
// bytes 2..3 are zero.
fn decode(s: &[u8; 16], n: usize) -> Sector
    ensures { result ≡ decode n s.now }
{
    judge(
        n,
        read_word(s, 0),
        read_word(s, 4),
        read_word(s, 8),
        read_word(s, 12),
    )
}

// The sixteen bytes of sector i, as a part of what was lent.
#[tactic(auto, unfolding(rules::specs::Sector::sector_at))]
pub fn bytes(part: &[u8], i: usize) -> &[u8; 16]
    requires { 16 * i + 16 ≤ length part.now }
    ensures { result.now ≡ sector_at part.now i }
{
    let at = 16 * i;
    part[at..at + 16].as_array().unwrap()
}

// What sector i of a part is. This and the two below take what their callers hold, a part and a number: a type round the sixteen bytes
// would be made at each call for one question, and was no plainer.
pub fn at(part: &[u8], n: usize, i: usize) -> Sector
    requires { 16 * i + 16 ≤ length part.now }
    ensures { result ≡ decode n (sector_at part.now i) }
{
    decode(bytes(part, i), n)
}

// Whether sector i of a part is blank. It is not judged: its words are only asked for zeros.
pub fn blank_at(part: &[u8], i: usize) -> bool
    requires { 16 * i + 16 ≤ length part.now }
    ensures { result ≡ zeros (sector_at part.now i) }
{
    let s = bytes(part, i);
    no_word(
        read_word(s, 0),
        read_word(s, 4),
        read_word(s, 8),
        read_word(s, 12),
    )
}

// The five fields of sector i of a part, which is not judged.
#[tactic(auto, unfolding(rules::specs::Sector::fields))]
pub fn fields_at(part: &[u8], i: usize) -> Entry
    requires { 16 * i + 16 ≤ length part.now }
    ensures { result ≡ fields (sector_at part.now i) }
{
    let s = bytes(part, i);
    Entry {
        kind: s[0].into(),
        status: s[1].into(),
        key: read_word(s, 4),
        stamp: read_word(s, 8),
        value: read_word(s, 12),
    }
}

// The bits of four parts of one length, put together: zero only where every byte is. The loop has no way out before the end, so that many
// bytes are asked at once. Four parts to a turn, since one `fold` over the whole was tried and takes a fifth longer at 64 KiB.
fn together(a: &[u8], b: &[u8], c: &[u8], d: &[u8]) -> u8
    requires { (length b.now ≡ length a.now) × (length c.now ≡ length a.now) × (length d.now ≡ length a.now) }
    ensures { eqb result 0 ≡ ((zeros a.now & zeros b.now) & (zeros c.now & zeros d.now)) }
{
    let mut bits: u8 = 0;
    for i in 0..a.len() {
        bits |= (a[i] | b[i]) | (c[i] | d[i]);
    }
    bits
}

// Whether every byte is zero: the four quarters side by side, and the few bytes that are left, by themselves.
pub fn all_zero(s: &[u8]) -> bool
    ensures { result ≡ zeros s.now }
{
    let q = s.len() / 4;
    let (front, rest) = s.split_at(4 * q);
    let (ab, cd) = front.split_at(2 * q);
    let (a, b) = ab.split_at(q);
    let (c, d) = cd.split_at(q);
    together(a, b, c, d) == 0 && rest.iter().all(|b| *b == 0)
}
