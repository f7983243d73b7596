// The setting text: the parameters of an SDP fmtp attribute, read and written (docs/FORMAT.md, "Setting text").
#![tactic(auto)]

mod read_text; // read_text.rt: the steps of the reader
mod validity; // validity.rt: which values are settings
mod write_text; // write_text.rt: the steps of the writer

ghost use Rattle.fmtp.specs.Answers.{Reads, Writes};

use read_text::settings_in;
use refusal::{Reason, Refusal};

// One to three different rates, the preferred one first, unused places 0; and the most augmentation octets that are wanted of a
// frame. A value of this type need not be settings: the C interface hands over any four numbers, and the writer tells which are.
#[derive(Clone, Copy, Debug, PartialEq, Eq, Hash)]
pub struct Settings {
    pub first: u16,
    pub second: u16,
    pub third: u16,
    pub tcmax: u16,
}

// What a missing bitrate and a missing tcmax mean.
const MISSING: Settings = Settings {
    first: 2400,
    second: 0,
    third: 0,
    tcmax: 35,
};

// Reads a setting text in one pass. Nothing is copied.
pub fn read(text: &[u8]) -> Result<Settings, Refusal>
    ensures { Reads text.now result }
{
    settings_in(text).ok_or(Reason::WrongSettings.at(0))
}

// Writes the settings' text at the start of a lent buffer, and answers the octets written. A refusal changes nothing of the buffer.
#[tactic(auto, using(crate::proofs::WriteLaws::writable), unfolding(crate::specs::Answers::written, refusal::specs::Report::filled))]
pub fn write(settings: Settings, out: &mut [u8]) -> Result<usize, Refusal>
    ensures { Writes settings out.old out.new result }
{
    if !settings.may_be_written() {
        return Err(Reason::WrongSettings.at(0));
    }
    let needed = settings.text_len();
    if out.len() < needed {
        return Err(Reason::OctetsTooShort.at(needed));
    }
    settings.put_text(out);
    Ok(needed)
}
