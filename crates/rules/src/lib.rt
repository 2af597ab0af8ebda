// The values that the rules speak of, and that the card's functions hand on.
#![tactic(auto)]

ghost use Rattle.std.specs.Prelude.{◌≡◌, eqb};
ghost use Rattle.rules.specs.Answers.{ended, result_of};
ghost use Rattle.rules.specs.Sector.{post_entry, strike_entry, index_entry, root_entry, is_post, is_strike, is_data, is_index, is_root};
ghost use Rattle.rules.specs.Kinds.{kind_of};

mod refusal;

pub use refusal::{Damage, Refusal};

// The kinds of an entry, with their numbers in byte 0 of a sector.
#[derive(Clone, Copy, Debug, PartialEq, Eq)]
pub enum Kind {
    Post = 1,
    Strike = 2,
    Index = 3,
    Root = 4,
}

// A written sector's five fields, each the number that stands there: an entry may be read before it is judged, and then its kind is
// any byte. So `kind` is a number, as document 01 has it, and `known_kind` says which kind it is.
#[derive(Clone, Copy)]
pub struct Entry {
    pub kind: u32,
    pub status: u32,
    pub key: u32,
    pub stamp: u32,
    pub value: u32,
}

#[tactic(auto, unfolding(crate::specs::Sector::is_post, crate::specs::Sector::is_strike, crate::specs::Sector::is_data, crate::specs::Sector::is_index, crate::specs::Sector::is_root, crate::specs::Kinds::kind_of))]
impl Entry {
    pub fn post(bib: u32, at: u32, status: u32, time: u32) -> Entry
        ensures { result ≡ post_entry bib at status time }
    {
        Entry {
            kind: Kind::Post as u32,
            status,
            key: bib,
            stamp: at,
            value: time,
        }
    }

    pub fn strike(bib: u32, at: u32) -> Entry
        ensures { result ≡ strike_entry bib at }
    {
        Entry {
            kind: Kind::Strike as u32,
            status: 0,
            key: bib,
            stamp: at,
            value: 0,
        }
    }

    // What leads to a bucket, whose header is `key`.
    pub fn index(key: u32, at: u32, bucket: u32) -> Entry
        ensures { result ≡ index_entry key at bucket }
    {
        Entry {
            kind: Kind::Index as u32,
            status: 0,
            key,
            stamp: at,
            value: bucket,
        }
    }

    pub fn root(at: u32, bucket: u32) -> Entry
        ensures { result ≡ root_entry at bucket }
    {
        Entry {
            kind: Kind::Root as u32,
            status: 0,
            key: 0,
            stamp: at,
            value: bucket,
        }
    }

    pub fn known_kind(self) -> Option<Kind>
        ensures { result ≡ kind_of self }
    {
        match self.kind {
            1 => Some(Kind::Post),
            2 => Some(Kind::Strike),
            3 => Some(Kind::Index),
            4 => Some(Kind::Root),
            _ => None,
        }
    }

    pub fn is_post(self) -> bool
        ensures { result ≡ is_post self }
    {
        self.kind == Kind::Post as u32
    }

    pub fn is_strike(self) -> bool
        ensures { result ≡ is_strike self }
    {
        self.kind == Kind::Strike as u32
    }

    // A post or a strike, as they stand in data buckets.
    pub fn is_data(self) -> bool
        ensures { result ≡ is_data self }
    {
        self.is_post() || self.is_strike()
    }

    pub fn is_index(self) -> bool
        ensures { result ≡ is_index self }
    {
        self.kind == Kind::Index as u32
    }

    pub fn is_root(self) -> bool
        ensures { result ≡ is_root self }
    {
        self.kind == Kind::Root as u32
    }
}

// What sixteen bytes of a card are: one of three, so that no Option or Result says it.
#[derive(Clone, Copy)]
pub enum Sector {
    Blank,
    Held(Entry),
    Damaged,
}

// The card's geometry: sectors in a bucket, the two limits of a rewrite, buckets.
#[derive(Clone, Copy)]
pub struct Head {
    pub m: usize,
    pub td: usize,
    pub ti: usize,
    pub n: usize,
}

// What a call answers. The numbers stay numbers in this struct and the two below: include/card.h has the same for C.
#[repr(C)]
#[derive(Clone, Copy, Default)]
pub struct Answer {
    pub code: u32,
    pub bib: u32,
    pub at: u32,
    pub status: u32,
    pub time: u32,
    pub reads: u32,
}

impl Answer {
    // The end of a list of records, and what an accepted write answers: zeros.
    #[tactic(auto, unfolding(crate::specs::Answers::ended))]
    pub fn end() -> Answer
        ensures { result ≡ ended }
    {
        Answer::default()
    }

    // What C is told: the answer, or the refusal's number with zeros beside it.
    #[tactic(auto, unfolding(crate::specs::Answers::result_of))]
    pub fn of(done: Result<Answer, Refusal>) -> Answer
        ensures { result ≡ result_of done }
    {
        done.unwrap_or_else(Answer::from)
    }
}

// What the panel shows.
#[repr(C)]
#[derive(Clone, Copy)]
pub struct Digits {
    pub code: u32,
    pub places: [u8; 6],
}

// What a card says of itself: its geometry, its beginning, the largest stamp of its buckets and the highest bucket used.
#[repr(C)]
#[derive(Clone, Copy)]
pub struct State {
    pub code: u32,
    pub buckets: u32,
    pub sectors: u32,
    pub td: u32,
    pub ti: u32,
    pub begin: u32,
    pub last: u32,
    pub used: u32,
}
