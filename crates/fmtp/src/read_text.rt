// The steps of the reader. Each takes what a text starts with, and answers it with the text behind it.
ghost use Rattle.std.specs.Prelude.{◌≡◌, map, option_copied};
ghost use Rattle.std.specs.Char.{to_ascii_lowercase};
ghost use Rattle.fmtp.specs.Meaning.{one_item, two_items};
ghost use Rattle.fmtp.specs.Steps.{item_of, taken, taken_item, behind_word, take_rate, take_further, take_rates, take_number, take_item, settings_in};

use super::validity::are_rates;
use super::{MISSING, Settings};

// What an item says: one to three rates, unused places 0 as in `Settings`, or a tcmax.
#[derive(Clone, Copy, Debug, PartialEq, Eq)]
enum Item {
    Bitrate(u16, u16, u16),
    Tcmax(u16),
}

// The text behind the word that it starts with, in any letter case. std's `eq_ignore_ascii_case` folds both sides, which
// makes reading a third slower.
fn strip_word<'a>(text: &'a [u8], word: &[u8]) -> Option<&'a [u8]>
    requires { map to_ascii_lowercase word.now ≡ word.now }
    ensures { option_copied result ≡ behind_word word.now text.now }
{
    let (start, rest) = text.split_at_checked(word.len())?;
    start
        .iter()
        .zip(word)
        .all(|(x, w)| x == w || *x == w.to_ascii_uppercase())
        .then_some(rest)
}

#[tactic(auto, unfolding(crate::specs::Steps::take_rate))]
fn take_rate(text: &[u8]) -> Option<(u16, &[u8])>
    ensures { taken result ≡ take_rate text.now }
{
    if let Some(rest) = strip_word(text, b"2400") {
        return Some((2400, rest));
    }
    if let Some(rest) = strip_word(text, b"1200") {
        return Some((1200, rest));
    }
    Some((600, strip_word(text, b"600")?))
}

// A rate behind a comma. Where no comma stands, the place is unused, and nothing is taken.
fn take_further(text: &[u8]) -> Option<(u16, &[u8])>
    ensures { taken result ≡ take_further text.now }
{
    match text {
        [b',', rest @ ..] => take_rate(rest),
        _ => Some((0, text)),
    }
}

#[tactic(auto, unfolding(crate::specs::Steps::take_rates, crate::specs::Meaning::bitrate_item))]
fn take_rates(text: &[u8]) -> Option<(Item, &[u8])>
    ensures { taken_item result ≡ take_rates text.now }
{
    let (first, rest) = take_rate(text)?;
    let (second, rest) = take_further(rest)?;
    let (third, rest) = take_further(rest)?;
    are_rates(first, second, third).then_some((Item::Bitrate(first, second, third), rest))
}

// A number of 1 to 255 without leading zeros.
#[tactic(auto, unfolding(crate::specs::Steps::take_number))]
fn take_number(text: &[u8]) -> Option<(u16, &[u8])>
    ensures { taken result ≡ take_number text.now }
{
    let mut number: u16 = 0;
    let mut rest = text;
    while let [digit @ b'0'..=b'9', behind @ ..] = rest {
        number = number * 10 + u16::from(digit - b'0');
        if !(1..=255).contains(&number) {
            return None;
        }
        rest = behind;
    }
    (number != 0).then_some((number, rest))
}

#[tactic(auto, unfolding(crate::specs::Steps::take_item, crate::specs::Steps::take_tcmax))]
fn take_item(text: &[u8]) -> Option<(Item, &[u8])>
    ensures { taken_item result ≡ take_item text.now }
{
    if let Some(value) = strip_word(text, b"bitrate=") {
        return take_rates(value);
    }
    let (number, rest) = take_number(strip_word(text, b"tcmax=")?)?;
    Some((Item::Tcmax(number), rest))
}

impl Item {
    ghost use Rattle.fmtp.specs.Steps.{item_of};

    // What a text of this item alone means.
    fn alone(self) -> Settings
        ensures { result ≡ one_item (item_of self) }
    {
        match self {
            Item::Bitrate(first, second, third) => Settings {
                first,
                second,
                third,
                ..MISSING
            },
            Item::Tcmax(tcmax) => Settings { tcmax, ..MISSING },
        }
    }

    // What a text of both items means.
    fn with(self, other: Item) -> Option<Settings>
        ensures { result ≡ two_items (item_of self) (item_of other) }
    {
        match (self, other) {
            (Item::Bitrate(first, second, third), Item::Tcmax(tcmax))
            | (Item::Tcmax(tcmax), Item::Bitrate(first, second, third)) => Some(Settings {
                first,
                second,
                third,
                tcmax,
            }),
            _ => None,
        }
    }
}

// What the whole text means.
#[tactic(auto, unfolding(crate::specs::Steps::settings_in))]
pub(crate) fn settings_in(text: &[u8]) -> Option<Settings>
    ensures { result ≡ settings_in text.now }
{
    if text.is_empty() {
        return Some(MISSING);
    }
    let (item, rest) = take_item(text)?;
    match rest {
        [] => Some(item.alone()),
        [b';', rest @ ..] => {
            let (other, []) = take_item(rest)? else {
                return None;
            };
            item.with(other)
        }
        _ => None,
    }
}
