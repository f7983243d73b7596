// The journal: a run of entries, each of ticks, source number, payload length and payload (docs/FORMAT.md, "Journal").
#![tactic(auto)]

ghost use Rattle.std.specs.Prelude.{◌≡◌};
ghost use Rattle.journal.specs.Answers.{Writes, entry_number, Stands, entry_at, payload_of};

use leb128::{Found, Limits, NumberError};
use refusal::{Reason, Refusal};

// What each number may be.
const NUMBERS: Limits = Limits {
    groups: 5,
    bound: 4294967295,
};

// What a payload's length is at most: wire has the number too, but a journal knows nothing of frames and stands beside wire.
const MOST_OCTETS: usize = 1400;

// Writes an entry to the front of out and answers how many octets it has. Any payload is journalled, whatever its octets.
pub fn write_entry(
    ticks: u64,
    source: u64,
    payload: &[u8],
    out: &mut [u8],
) -> Result<usize, Refusal>
    ensures { Writes (record { ticks = ticks; source = source; payload = payload.now }) out.old out.new result }
{
    if NUMBERS.bound < ticks || NUMBERS.bound < source {
        return Err(Reason::BadNumber.at(0));
    }
    if MOST_OCTETS < payload.len() {
        return Err(Reason::TooLong.at(MOST_OCTETS));
    }
    let numbers = leb128::size_of(ticks)
        + leb128::size_of(source)
        + leb128::size_of(payload.len() as u64);
    let size = numbers + payload.len();
    if out.len() < size {
        return Err(Reason::OctetsTooShort.at(size));
    }
    let behind_ticks = leb128::put_number(ticks, out, 0);
    let behind_source = leb128::put_number(source, out, behind_ticks);
    let start = leb128::put_number(payload.len() as u64, out, behind_source);
    octets::copy(payload, &mut out[start..size]);
    Ok(size)
}

// An entry of a journal: its numbers, and the place of its payload, behind which the next entry begins.
#[derive(Clone, Copy, Debug, PartialEq, Eq, Hash)]
pub struct Entry {
    pub ticks: u64,
    pub source: u64,
    pub start: usize,
    pub next: usize,
}

// The number at an index, of the entry that begins at another.
fn number(journal: &[u8], from: usize, at: usize) -> Result<Found, Refusal>
    ensures { result ≡ entry_number journal.now from at }
{
    leb128::number_at(journal, from, NUMBERS).map_err(|error| match error {
        NumberError::Short => Reason::EntryCut.at(at),
        NumberError::Bad => Reason::BadNumber.at(at),
    })
}

// The entry that begins at an index of a journal; None at the journal's end.
pub fn entry_at(journal: &[u8], at: usize) -> Result<Option<Entry>, Refusal>
    ensures { Stands journal.now at result }
{
    if journal.len() <= at {
        return Ok(None);
    }
    let ticks = number(journal, at, at)?;
    let source = number(journal, ticks.next, at)?;
    let length = number(journal, source.next, at)?;
    if length.number > MOST_OCTETS as u64 {
        return Err(Reason::TooLong.at(at));
    }
    let octets = length.number as usize;
    if journal.len() - length.next < octets {
        return Err(Reason::EntryCut.at(at));
    }
    Ok(Some(Entry {
        ticks: ticks.number,
        source: source.number,
        start: length.next,
        next: length.next + octets,
    }))
}

// The payload of the entry that begins at an index, as a part of the journal; the empty part at its start where there is none.
pub fn payload_at(journal: &[u8], at: usize) -> &[u8]
    ensures { record { block = result.ref_ptr.0; start = result.ref_ptr.1; octets = result.now } ≡ payload_of (entry_at journal.now at) (record { block = journal.entry.ref_ptr.0; start = journal.entry.ref_ptr.1; octets = journal.now }) }
{
    match entry_at(journal, at) {
        Ok(Some(entry)) => &journal[entry.start..entry.next],
        _ => &journal[..0],
    }
}
