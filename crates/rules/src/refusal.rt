// Why a call is refused. The numbers are document 01's and 02's; C sees them, and the functions hand on the words.
ghost use Rattle.std.specs.Prelude.{◌≡◌};
ghost use Rattle.rules.specs.Refusals.{number};
ghost use Rattle.rules.specs.Answers.{refused};
ghost use Rattle.rules.specs.declared.refusal.Refusal.TheVariants as Refusals;

use crate::Answer;

#[derive(Clone, Copy, Debug, PartialEq, Eq)]
pub enum Refusal {
    // The card's head or length breaks the layout.
    Layout = 1,
    NoBib = 2,
    // The stamp is not above the largest on the card.
    Stamp = 3,
    Damage = 4,
    NothingStands = 5,
    Full = 6,
    // The time does not fit the panel's field.
    Panel = 7,
    // The shape breaks a limit, or is not of the card's length.
    Shape = 8,
    NotBlank = 9,
    // The line of the bench program is not of its grammar.
    NoLine = 10,
    NoRequest = 11,
    // The requests are not whole, or not as many as the answers.
    Unpaired = 12,
    // The stamp asked about is before the card's beginning.
    TooEarly = 13,
    NoStatus = 14,
    // The buffer is too short.
    NoRoom = 15,
}

impl Refusal {
    pub fn number(self) -> u32
        ensures { result ≡ number self }
    {
        self as u32
    }
}

impl From<Refusal> for Answer {
    ghost from_gives = { λ r a. a ≡ refused (number r) };

    #[tactic(auto, unfolding(crate::specs::Answers::refused, crate::specs::Answers::ended))]
    fn from(r: Refusal) -> Answer {
        Answer {
            code: r.number(),
            ..Answer::end()
        }
    }
}

// Bytes that break the format, met by a scan or a walk: all that either can fail by.
#[derive(Clone, Copy, Debug, PartialEq, Eq)]
pub struct Damage;

impl From<Damage> for Refusal {
    ghost from_gives = { λ _ r. r ≡ Refusals.Damage };

    fn from(_: Damage) -> Refusal {
        Refusal::Damage
    }
}
