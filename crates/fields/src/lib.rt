// The fields of a 600 bps frame's body, modes 1 to 3: one table of widths, one unpacker, one packer (docs/FORMAT.md, "Fields").
#![tactic(auto)]

ghost use Rattle.std.specs.Prelude.{◌≡◌, [], ◌∷◌, reverse, ℕ, ◌+◌, ◌<◌, length, get_or, MatchResult};
ghost use Rattle.fields.specs.Bits.{digits, spelled, bits_of, octets_of};
ghost use Rattle.fields.specs.Table.{fields_of, field_bits, consecutive};
ghost use Rattle.fields.specs.Answers.{Unpacks, Packs};
ghost use Rattle.fields.specs.RoundTrip.{Fitting};
ghost use Rattle.fields.specs.Widths.{IsWidths, HasWidths, IsNoMode, FindsLarge};

use refusal::{Reason, Refusal};

// The octets of a body.
const BODY_OCTETS: usize = 7;

// What is left of 64 bits behind the 54 of a body's fields.
const FREE_BITS: u32 = 10;

// The most that the last octet of a body may be.
const BODY_END: u8 = 63;

// The widths of each mode's fields in bits, from B_01 on.
const WIDTHS: [&[u8]; 3] = [
    // Voicing; LSF1,4; LSF1,3; LSF1,2; LSF1,1; LSF2,4; LSF2,3; LSF2,2; LSF2,1; GAIN2; GAIN1
    &[5, 4, 4, 4, 6, 4, 4, 4, 6, 6, 7],
    // Voicing; Pitch; LSF1,3; LSF1,2; LSF1,1; LSF2,3; LSF2,2; LSF2,1; GAIN2; GAIN1
    &[5, 6, 4, 4, 6, 4, 5, 7, 6, 7],
    // Voicing; Pitch; LSF1,3; LSF1,2; LSF1,1; LSF2,3; LSF2,2; LSF2,1; GAIN2; GAIN1
    &[5, 8, 4, 5, 6, 4, 5, 6, 5, 6],
];

// A mode is the widths of its fields.
#[derive(Clone, Copy, Debug, PartialEq, Eq)]
struct Mode {
    widths: &'static [u8],
    ghost ruled: { IsWidths widths.now },
}

impl TryFrom<u8> for Mode {
    type Error = Reason;

    ghost try_from_gives = { λ number r. MatchResult r (λ mode. HasWidths number mode.widths.now) (IsNoMode number) };

    fn try_from(number: u8) -> Result<Mode, Reason> {
        match number {
            1..=3 => Ok(Mode {
                widths: WIDTHS[usize::from(number) - 1],
            }),
            _ => Err(Reason::WrongMode),
        }
    }
}

impl Mode {
    // Takes the fields out of a body, each out of the octet where it begins and the one behind: the bits in front of it and behind it are
    // shifted away. The widths go by index, since no proof knows what is written through a `zip`.
    fn take_fields(self, body: &[u8; BODY_OCTETS], fields: &mut [u16])
        requires { length fields.old ≡ length self.widths.now }
        ensures { fields.new ≡ fields_of (consecutive 0 self.widths.now) body.now }
    {
        let pairs = neighbours(body);
        let mut at = 0;
        for (i, field) in fields.iter_mut().enumerate() {
            let width = self.widths[i];
            *field = (pairs[at / 8] << (at % 8)) >> (16 - width);
            at += usize::from(width);
        }
    }

    // The index of the first field that is too large for its width.
    fn first_large(self, fields: &[u16]) -> Option<usize>
        requires { length fields.now ≡ length self.widths.now }
        ensures { FindsLarge self.widths.now fields.now result }
    {
        fields
            .iter()
            .zip(self.widths)
            .position(|(field, width)| *field >> *width != 0)
    }

    // The bits of fields that fit, one field behind another, as one number, the first bit the highest.
    fn word_of(self, fields: &[u16]) -> u64
        requires { Fitting (consecutive 0 self.widths.now) fields.now }
        ensures { result ≡ spelled (field_bits (consecutive 0 self.widths.now) fields.now) }
    {
        let mut word = 0;
        for (field, width) in fields.iter().zip(self.widths) {
            word = (word << *width) + u64::from(*field);
        }
        word
    }
}

// An octet with its bits in reverse order: B_01 is the lowest bit of an octet and the highest of a field.
fn reversed(octet: u8) -> u8
    ensures { result ≡ spelled (reverse (digits 8 octet)) }
{
    octet.reverse_bits()
}

// Each octet of a body with the one behind it as one number of 16 bits, the first bit the highest. Behind the last octet the bits are 0.
fn neighbours(body: &[u8; BODY_OCTETS]) -> [u16; BODY_OCTETS]
    ensures { (i : ℕ) → i < 7 → get_or result i 0 ≡ spelled (bits_of (get_or body.now i 0 ∷ get_or body.now (i + 1) 0 ∷ [])) }
{
    let mut pairs = [0; BODY_OCTETS];
    let mut behind = 0;
    for i in (0..BODY_OCTETS).rev() {
        let octet = u16::from(reversed(body[i]));
        pairs[i] = octet * 256 + behind;
        behind = octet;
    }
    pairs
}

// Puts the octets that the first bits of a word make, B_01 the highest. Here, too, octets go by index for the proof.
fn put_octets(word: u64, out: &mut [u8; BODY_OCTETS])
    ensures { out.new ≡ octets_of 7 (digits 64 word) }
{
    let octets = word.to_be_bytes();
    for (i, octet) in out.iter_mut().enumerate() {
        *octet = reversed(octets[i]);
    }
}

// Unpacks the fields of a body of seven octets, in the order of the mode's widths.
pub fn unpack(mode: u8, body: &[u8], fields: &mut [u16]) -> Result<usize, Refusal>
    ensures { Unpacks mode body.now fields.old fields.new result }
{
    let mode = Mode::try_from(mode).map_err(|reason| reason.at(0))?;
    let body: &[u8; BODY_OCTETS] = body.as_array().ok_or(Reason::WrongLength.at(BODY_OCTETS))?;
    if BODY_END < body[6] {
        return Err(Reason::ReservedBits.at(6));
    }
    let count = mode.widths.len();
    if fields.len() < count {
        return Err(Reason::NumbersTooShort.at(count));
    }
    mode.take_fields(body, &mut fields[..count]);
    Ok(count)
}

// Packs a mode's fields, in the order of its widths, into a body of seven octets: their 54 bits, and two that are 0.
pub fn pack(mode: u8, fields: &[u16], out: &mut [u8]) -> Result<usize, Refusal>
    ensures { Packs mode fields.now out.old out.new result }
{
    let mode = Mode::try_from(mode).map_err(|reason| reason.at(0))?;
    let count = mode.widths.len();
    if fields.len() != count {
        return Err(Reason::WrongLength.at(count));
    }
    if let Some(field) = mode.first_large(fields) {
        return Err(Reason::FieldTooLarge.at(field));
    }
    let Some(out) = out.first_chunk_mut() else {
        return Err(Reason::OctetsTooShort.at(BODY_OCTETS));
    };
    put_octets(mode.word_of(fields) << FREE_BITS, out);
    Ok(BODY_OCTETS)
}
