// The one writer of a card: sixteen bytes of it are lent to `write_sector`, and no other function stores a byte of a card.
#![tactic(auto)]

ghost use Rattle.std.specs.Prelude.{◌≡◌, ◌+◌, ◌*◌, ◌≤◌, ◌<◌, length};
ghost use Rattle.rules.specs.Sector.{le4, encode, put};
ghost use Rattle.rules.specs.Layout.{head_bytes};
ghost use Rattle.writer.specs.Words.{Narrow, four_words};

use rules::{Entry, Head};

// The four bytes of a word are stored one after the other, the first of them first: include/card.h says so of all sixteen of a sector.
fn write_word(part: &mut [u8], bytes: [u8; 4])
    requires { length part.old ≡ 4 }
    ensures { part.new ≡ bytes }
{
    part[0] = bytes[0];
    part[1] = bytes[1];
    part[2] = bytes[2];
    part[3] = bytes[3];
}

// The sixteen bytes of a sector: four bytes, and three numbers, lowest byte first.
fn write_sector(sector: &mut [u8], first: [u8; 4], key: u32, stamp: u32, value: u32)
    requires { length sector.old ≡ 16 }
    ensures { sector.new ≡ four_words first key stamp value }
{
    write_word(&mut sector[0..4], first);
    write_word(&mut sector[4..8], key.to_le_bytes());
    write_word(&mut sector[8..12], stamp.to_le_bytes());
    write_word(&mut sector[12..16], value.to_le_bytes());
}

// Sector i of the card is lent to the writer.
#[tactic(auto, unfolding(rules::specs::Sector::put))]
fn lend(card: &mut [u8], i: usize, first: [u8; 4], key: u32, stamp: u32, value: u32)
    requires { 16 * i + 16 ≤ length card.old }
    ensures { card.new ≡ put card.old i (four_words first key stamp value) }
{
    let at = 16 * i;
    write_sector(&mut card[at..at + 16], first, key, stamp, value);
}

pub fn write_entry(card: &mut [u8], i: usize, e: Entry)
    requires { (16 * i + 16 ≤ length card.old) × Narrow e }
    ensures { card.new ≡ put card.old i (encode e) }
{
    let first = [e.kind as u8, e.status as u8, 0, 0];
    lend(card, i, first, e.key, e.stamp, e.value);
}

// The head of a card with its beginning, in sector 0.
#[tactic(auto, unfolding(rules::specs::Layout::head_bytes, rules::specs::Sector::le4, crate::specs::Words::four_words))]
pub fn write_head(card: &mut [u8], h: Head, begin: u32)
    requires { (16 ≤ length card.old) × (h.m < 256) × (h.td < 256) × (h.ti < 256) × (h.n < 4294967296) }
    ensures { card.new ≡ put card.old 0 (head_bytes h begin) }
{
    let first = [6, h.m as u8, h.td as u8, h.ti as u8];
    lend(card, 0, first, h.n as u32, begin, 0);
}
