// A time as the panel's digits, or the refusal that keeps a wrong one dark.
#![tactic(auto)]

ghost use Rattle.std.specs.Prelude.{◌≡◌, ◌<◌, ◌/◌, ◌%◌, true, false, [], MatchResult};
ghost use Rattle.rules.specs.Panel.{hundredths, panel, panel_of, shown};

use rules::{Digits, Refusal};

fn digit(h: u32, worth: u32) -> u8
    requires { 0 < worth }
    ensures { result ≡ h / worth % 10 }
{
    (h / worth % 10) as u8
}

// The places of a time in hundredths, highest digit first: four are seconds and hundredths, up to 59.99, five add a minute, up to 9:59.99,
// six another, up to 99:59.99; those past the field are 0. The one refusal is for a field the panel lacks and for a time that does not fit.
#[tactic(auto, unfolding(rules::specs::Panel::panel_of, rules::specs::Panel::shown, rules::specs::Panel::seconds, rules::specs::Panel::minute, rules::specs::Panel::ten_minutes))]
fn places(h: u32, field: u32) -> Result<[u8; 6], Refusal>
    ensures { MatchResult result (λ places. panel_of h field ≡ shown true places) (λ r. (r ≡ Refusal.Panel) × (panel_of h field ≡ shown false [])) }
{
    let ten_minutes = digit(h, 60000);
    let minute = digit(h, 6000);
    let ten_seconds = digit(h % 6000, 1000);
    let second = digit(h, 100);
    let tenth = digit(h, 10);
    let hundredth = digit(h, 1);
    match field {
        4 if h <= 5999 => Ok([ten_seconds, second, tenth, hundredth, 0, 0]),
        5 if h <= 59999 => Ok([minute, ten_seconds, second, tenth, hundredth, 0]),
        6 if h <= 599999 => Ok([ten_minutes, minute, ten_seconds, second, tenth, hundredth]),
        _ => Err(Refusal::Panel),
    }
}

// The hundredths that a time in thousandths is shown as: the next longer unless it is whole.
#[tactic(auto, unfolding(rules::specs::Panel::hundredths))]
fn hundredths(time: u32) -> u32
    ensures { result ≡ hundredths time }
{
    time.div_ceil(10)
}

// A time in thousandths as the digits of a field: the number and six places, highest digit first. A field's limit is
// judged after the rounding.
#[tactic(auto, unfolding(rules::specs::Panel::panel, rules::specs::Panel::shown))]
pub fn digits(time: u32, field: u32) -> Digits
    ensures { result ≡ panel time field }
{
    match places(hundredths(time), field) {
        Ok(places) => Digits { code: 0, places },
        Err(refusal) => Digits {
            code: refusal.number(),
            places: [0; 6],
        },
    }
}
