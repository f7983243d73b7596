// The steps of the writer.
ghost use Rattle.std.specs.Prelude.{◌≡◌, true, ◌++◌, ◌+◌, ◌%◌, ◌≤◌, ◌<◌, length, drop, decimal};
ghost use Rattle.fmtp.specs.Settings.{is_rate};
ghost use Rattle.fmtp.specs.Text.{further_text};

use super::Settings;

// Puts octets into a lent buffer, one behind another: the next one at `end`.
#[derive(Drop)]
struct Cursor<'a> {
    out: &'a mut [u8],
    end: usize,
}

impl Cursor<'_> {
    ghost use Rattle.fmtp.specs.Steps.{Puts};

    // Octet by octet: std's `copy_from_slice` also tests whether the two overlap, which makes writing slower than C's.
    fn put(&mut self, word: &[u8])
        requires { self.old.end + length word.now ≤ length self.old.out.now }
        ensures { Puts self.old word.now self.new }
    {
        for octet in word {
            self.out[self.end] = *octet;
            self.end += 1;
        }
    }

    fn put_rate(&mut self, rate: u16)
        requires room { self.old.end + length (decimal rate) ≤ length self.old.out.now }
        requires rate { is_rate rate ≡ true }
        ensures { Puts self.old (decimal rate) self.new }
    {
        match rate {
            2400 => self.put(b"2400"),
            1200 => self.put(b"1200"),
            _ => self.put(b"600"),
        }
    }

    // A further rate, behind a comma; nothing for an unused place.
    fn put_further(&mut self, rate: u16)
        requires room { self.old.end + length (further_text rate) ≤ length self.old.out.now }
        requires rate { (rate ≡ 0 → ⊥) → is_rate rate ≡ true }
        ensures { Puts self.old (further_text rate) self.new }
    {
        if rate != 0 {
            self.put(b",");
            self.put_rate(rate);
        }
    }

    #[tactic(auto, using(crate::proofs::Decimals::lengths))]
    fn put_number(&mut self, n: u16)
        requires room { self.old.end + length (decimal n) ≤ length self.old.out.now }
        requires small { n < 1000 }
        ensures { Puts self.old (decimal n) self.new }
    {
        match n {
            0..=9 => self.put(&[digit(n)]),
            10..=99 => self.put(&[digit(n / 10), digit(n)]),
            _ => self.put(&[digit(n / 100), digit(n / 10), digit(n)]),
        }
    }
}

// The last digit of a number.
fn digit(n: u16) -> u8
    ensures { result ≡ 48 + n % 10 }
{
    b'0' + (n % 10) as u8
}

// The octets of a number's text. (Told by its size: a logarithm of 0 is none, and std's `write!` never says when it succeeds.)
#[tactic(auto, using(crate::proofs::Decimals::lengths))]
fn number_len(n: u16) -> usize
    ensures length { result ≡ length (decimal n) }
    ensures most { result ≤ 5 }
{
    match n {
        0..=9 => 1,
        10..=99 => 2,
        100..=999 => 3,
        1000..=9999 => 4,
        _ => 5,
    }
}

// The octets of a further rate's text, its comma included; none of an unused place.
#[tactic(auto, unfolding(crate::specs::Text::further_text))]
fn further_len(rate: u16) -> usize
    ensures length { result ≡ length (further_text rate) }
    ensures most { result ≤ 6 }
{
    if rate == 0 { 0 } else { 1 + number_len(rate) }
}

impl Settings {
    ghost use Rattle.fmtp.specs.Settings.{IsSettings};
    ghost use Rattle.fmtp.specs.Text.{text_of};

    // The octets of the settings' text. Its first rate stands behind `=` as the others behind a comma.
    pub(crate) fn text_len(self) -> usize
        requires { IsSettings self }
        ensures { result ≡ length (text_of self) }
    {
        let rates = further_len(self.first) + further_len(self.second) + further_len(self.third);
        14 + rates + number_len(self.tcmax)
    }

    // Puts the settings' text at the start of the buffer.
    pub(crate) fn put_text(self, out: &mut [u8])
        requires room { length (text_of self) ≤ length out.old }
        requires settings { IsSettings self }
        ensures { out.new ≡ text_of self ++ drop (length (text_of self)) out.old }
    {
        let mut text = Cursor { out, end: 0 };
        text.put(b"bitrate=");
        text.put_rate(self.first);
        text.put_further(self.second);
        text.put_further(self.third);
        text.put(b";tcmax=");
        text.put_number(self.tcmax);
    }
}
