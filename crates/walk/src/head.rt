// The card's head, read and judged.
ghost use Rattle.std.specs.Prelude.{◌≡◌, ◌≤◌, eqb, length};
ghost use Rattle.rules.specs.Plain.{◌&◌, within};
ghost use Rattle.rules.specs.Layout.{limits, size_of, head_fields, head_in, head_of, beginning};
ghost use Rattle.walk.specs.Heads.{Reads};

use bucket::Card;
use rules::{Head, Refusal};

#[tactic(auto, unfolding(rules::specs::Layout::head_fields))]
fn head_fields(s: &[u8]) -> Head
    requires { length s.now ≡ 16 }
    ensures { result ≡ head_fields s.now }
{
    Head {
        m: usize::from(s[1]),
        td: usize::from(s[2]),
        ti: usize::from(s[3]),
        n: sector::read_word(s, 4) as usize,
    }
}

#[tactic(auto, unfolding(rules::specs::Plain::within))]
fn in_range(lo: usize, x: usize, hi: usize) -> bool
    ensures { result ≡ within lo x hi }
{
    lo <= x && x <= hi
}

#[tactic(auto, unfolding(rules::specs::Layout::limits))]
fn in_limits(h: Head) -> bool
    ensures { result ≡ limits h }
{
    in_range(4, h.m, 32)
        && in_range(2, h.n, 4096)
        && in_range(2, h.td, h.m)
        && in_range(4, h.ti, h.m)
}

// The product is computed only for a head within the limits: it cannot wrap.
fn has_size(h: Head, len: usize) -> bool
    requires { (h.m ≤ 32) × (h.n ≤ 4096) }
    ensures { result ≡ eqb len (size_of h) }
{
    len == 16 * (1 + h.n * (h.m + 1))
}

// Whether a card of this length can have the geometry.
pub fn suits(h: Head, len: usize) -> bool
    ensures { result ≡ (limits h & eqb len (size_of h)) }
{
    in_limits(h) && has_size(h, len)
}

// The geometry that sector 0 gives a card of so many bytes, unless it or the length breaks the layout.
#[tactic(auto, unfolding(rules::specs::Layout::head_in))]
fn head_in(s: &[u8], len: usize) -> Option<Head>
    requires { length s.now ≡ 16 }
    ensures { result ≡ head_in s.now len }
{
    let h = head_fields(s);
    let end = sector::read_word(s, 12);
    if s[0] == 6 && end == 0 && suits(h, len) {
        return Some(h);
    }
    None
}

// The stamp that a card of these bytes begins with, whether or not its head is sound.
pub fn beginning(bytes: &[u8]) -> u32
    requires { 16 ≤ length bytes.now }
    ensures { result ≡ beginning bytes.now }
{
    sector::read_word(sector::bytes(bytes, 0), 8)
}

// The card of these bytes.
pub fn read(bytes: &[u8]) -> Result<Card<'_>, Refusal>
    ensures { Reads bytes.now result }
{
    if bytes.len() < 16 {
        return Err(Refusal::Layout);
    }
    let head = head_in(&bytes[..16], bytes.len()).ok_or(Refusal::Layout)?;
    Ok(Card { bytes, head })
}
