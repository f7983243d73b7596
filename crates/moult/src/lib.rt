// The library as a C host calls it. A slice is a pointer and a length; include/moult.h declares each function. moult_c makes the
// static library of them.
#![tactic(auto)]

ghost use Rattle.std.specs.Prelude.{◌≡◌, [], length};
ghost use Rattle.refusal.specs.Numbers.{number_of};
ghost use Rattle.refusal.specs.Report.{report_of};
ghost use Rattle.wire.specs.Frame.{kind_of, sum_of, ticks, wire_octets};
ghost use Rattle.wire.specs.Answers.{nothing};
ghost use Rattle.wire.specs.declared.Session.TheVariants.{NotAgreed};
ghost use Rattle.clock.specs.Time.{ticks_in, millis_in};
ghost use Rattle.fmtp.specs.Answers.{no_settings};
ghost use Rattle.journal.specs.Answers.{standing_report};
ghost use Rattle.record.specs.Afresh.{record_of};
ghost use Rattle.record.specs.Operations.{to_push, to_pop, to_replace};
ghost use Rattle.record.specs.Promise.{Asked, row_numbers, change};
ghost use Rattle.moult.specs.Structs.{session_of, settings_of, reading_of, writing_of, ticks_of, millis_of, parsed_of, entry_of, change_of, row_of, start_of, part_of, body_octets_of, version};
ghost use Rattle.moult.specs.Promises.{Counted, HostReads, HostWrites, HostTimes, HostPtime, HostAugments, HostShows, HostParses, HostWritesSettings, HostUnpacks, HostPacks, HostEntry, HostWritesEntry, HostChanges, HostRow, HostStart};

use clock::{Millis, Ticks};
use fmtp::Settings;
use journal::Entry;
use record::{Record, RowNumbers};
use refusal::Refusal;
use views::Span;
use wire::{Framing, Kind, Row, Session, Summary};

// Version 0.1.0, as 10,000 times the first number, 100 times the second, and the third.
const VERSION: u32 = 100;

// A reading: the refusal's number (0 where accepted) and place; rows, body octets, the rate of the coder frames, and ticks.
#[repr(C)]
#[derive(Clone, Copy, Debug, PartialEq, Eq)]
pub struct MoultReading {
    pub number: u32,
    pub rate: u32,
    pub place: usize,
    pub rows: usize,
    pub octets: usize,
    pub ticks: usize,
}

// A packet's time: number and place, and ticks of 1/8000 second.
#[repr(C)]
#[derive(Clone, Copy, Debug, PartialEq, Eq)]
pub struct MoultTicks {
    pub number: u32,
    pub place: usize,
    pub ticks: usize,
}

// A ptime: number and place, and milliseconds.
#[repr(C)]
#[derive(Clone, Copy, Debug, PartialEq, Eq)]
pub struct MoultMillis {
    pub number: u32,
    pub place: usize,
    pub millis: usize,
}

// A part: of the payload, or (where `stand_in` is 1) of the stand-in.
#[repr(C)]
#[derive(Clone, Copy, Debug, PartialEq, Eq)]
pub struct MoultPart {
    pub stand_in: u32,
    pub start: usize,
    pub length: usize,
}

// A writing: number and place, and the octets (or, of unpacking, the fields) written.
#[repr(C)]
#[derive(Clone, Copy, Debug, PartialEq, Eq)]
pub struct MoultWriting {
    pub number: u32,
    pub place: usize,
    pub octets: usize,
}

// Settings: one to three rates, the preferred one first, unused places 0; and tcmax.
#[repr(C)]
#[derive(Clone, Copy, Debug, PartialEq, Eq)]
pub struct MoultSettings {
    pub first: u16,
    pub second: u16,
    pub third: u16,
    pub tcmax: u16,
}

// A setting text that was read: number and place, and its settings.
#[repr(C)]
#[derive(Clone, Copy, Debug, PartialEq, Eq)]
pub struct MoultParsed {
    pub number: u32,
    pub place: usize,
    pub settings: MoultSettings,
}

// What stands at an index of a journal: number and place; how many entries, 1 or 0; of this entry its ticks and source, where its payload
// starts, and where the next entry begins.
#[repr(C)]
#[derive(Clone, Copy, Debug, PartialEq, Eq)]
pub struct MoultEntry {
    pub number: u32,
    pub entries: u32,
    pub place: usize,
    pub ticks: u64,
    pub source: u64,
    pub start: usize,
    pub next: usize,
}

// What an operation on a packet record came to: number and place, and the record, unchanged where refused.
#[repr(C)]
#[derive(Clone, Copy, Debug, PartialEq, Eq)]
pub struct MoultChange {
    pub number: u32,
    pub place: usize,
    pub after: Record,
}

// A row of a packet record: number and place, kind and TC.
#[repr(C)]
#[derive(Clone, Copy, Debug, PartialEq, Eq)]
pub struct MoultRow {
    pub number: u32,
    pub kind: u16,
    pub tc: u16,
    pub place: usize,
}

// Where a row of a packet record starts on the wire: number and place, and the index.
#[repr(C)]
#[derive(Clone, Copy, Debug, PartialEq, Eq)]
pub struct MoultStart {
    pub number: u32,
    pub place: usize,
    pub start: usize,
}

// ---- the library's answers in these structs: all values 0 where refused

// A refusal's number.
fn number_of(refusal: Refusal) -> u32
    ensures { result ≡ number_of refusal.reason }
{
    u32::from(u8::from(refusal.reason))
}

impl From<Result<Summary, Refusal>> for MoultReading {
    ghost from_gives = { λ answer reading. reading ≡ reading_of (report_of nothing answer) };

    fn from(answer: Result<Summary, Refusal>) -> MoultReading {
        match answer {
            Ok(summary) => MoultReading {
                number: 0,
                rate: summary.rate,
                place: 0,
                rows: summary.frames,
                octets: summary.octets,
                ticks: summary.ticks as usize,
            },
            Err(refusal) => MoultReading {
                number: number_of(refusal),
                rate: 0,
                place: refusal.place,
                rows: 0,
                octets: 0,
                ticks: 0,
            },
        }
    }
}

impl From<Result<usize, Refusal>> for MoultWriting {
    ghost from_gives = { λ answer writing. writing ≡ writing_of (report_of 0 answer) };

    fn from(answer: Result<usize, Refusal>) -> MoultWriting {
        match answer {
            Ok(octets) => MoultWriting {
                number: 0,
                place: 0,
                octets,
            },
            Err(refusal) => MoultWriting {
                number: number_of(refusal),
                place: refusal.place,
                octets: 0,
            },
        }
    }
}

impl From<Result<Ticks, Refusal>> for MoultTicks {
    ghost from_gives = { λ answer time. time ≡ ticks_of (report_of (ticks_in 0) answer) };

    fn from(answer: Result<Ticks, Refusal>) -> MoultTicks {
        match answer {
            Ok(ticks) => MoultTicks {
                number: 0,
                place: 0,
                ticks: ticks.0,
            },
            Err(refusal) => MoultTicks {
                number: number_of(refusal),
                place: refusal.place,
                ticks: 0,
            },
        }
    }
}

impl From<Result<Millis, Refusal>> for MoultMillis {
    ghost from_gives = { λ answer time. time ≡ millis_of (report_of (millis_in 0) answer) };

    fn from(answer: Result<Millis, Refusal>) -> MoultMillis {
        match answer {
            Ok(millis) => MoultMillis {
                number: 0,
                place: 0,
                millis: millis.0,
            },
            Err(refusal) => MoultMillis {
                number: number_of(refusal),
                place: refusal.place,
                millis: 0,
            },
        }
    }
}

impl From<Settings> for MoultSettings {
    ghost from_gives = { λ settings given. given ≡ settings_of settings };

    fn from(settings: Settings) -> MoultSettings {
        MoultSettings {
            first: settings.first,
            second: settings.second,
            third: settings.third,
            tcmax: settings.tcmax,
        }
    }
}

impl From<Result<Settings, Refusal>> for MoultParsed {
    ghost from_gives = { λ answer parsed. parsed ≡ parsed_of (report_of no_settings answer) };

    fn from(answer: Result<Settings, Refusal>) -> MoultParsed {
        match answer {
            Ok(settings) => MoultParsed {
                number: 0,
                place: 0,
                settings: settings.into(),
            },
            Err(refusal) => MoultParsed {
                number: number_of(refusal),
                place: refusal.place,
                settings: MoultSettings {
                    first: 0,
                    second: 0,
                    third: 0,
                    tcmax: 0,
                },
            },
        }
    }
}

// No entry: the journal's end where number and place are 0, else a refusal.
fn no_entry(number: u32, place: usize) -> MoultEntry
    ensures { result ≡ record { number = number; entries = 0; place = place; ticks = 0; source = 0; start = 0; next = 0 } }
{
    MoultEntry {
        number,
        entries: 0,
        place,
        ticks: 0,
        source: 0,
        start: 0,
        next: 0,
    }
}

impl From<Result<Option<Entry>, Refusal>> for MoultEntry {
    ghost from_gives = { λ answer entry. entry ≡ entry_of (standing_report answer) };

    fn from(answer: Result<Option<Entry>, Refusal>) -> MoultEntry {
        match answer {
            Ok(Some(entry)) => MoultEntry {
                number: 0,
                entries: 1,
                place: 0,
                ticks: entry.ticks,
                source: entry.source,
                start: entry.start,
                next: entry.next,
            },
            Ok(None) => no_entry(0, 0),
            Err(refusal) => no_entry(number_of(refusal), refusal.place),
        }
    }
}

impl From<Result<RowNumbers, Refusal>> for MoultRow {
    ghost from_gives = { λ answer row. row ≡ row_of (report_of (row_numbers 0 0) answer) };

    fn from(answer: Result<RowNumbers, Refusal>) -> MoultRow {
        match answer {
            Ok(numbers) => MoultRow {
                number: 0,
                kind: numbers.kind,
                tc: numbers.tc,
                place: 0,
            },
            Err(refusal) => MoultRow {
                number: number_of(refusal),
                kind: 0,
                tc: 0,
                place: refusal.place,
            },
        }
    }
}

impl From<Result<usize, Refusal>> for MoultStart {
    ghost from_gives = { λ answer start. start ≡ start_of (report_of 0 answer) };

    fn from(answer: Result<usize, Refusal>) -> MoultStart {
        match answer {
            Ok(start) => MoultStart {
                number: 0,
                place: 0,
                start,
            },
            Err(refusal) => MoultStart {
                number: number_of(refusal),
                place: refusal.place,
                start: 0,
            },
        }
    }
}

// A span of the payload.
impl From<Span> for MoultPart {
    ghost from_gives = { λ span part. part ≡ record { stand_in = 0; start = span.start; length = span.length } };

    fn from(span: Span) -> MoultPart {
        MoultPart {
            stand_in: 0,
            start: span.start,
            length: span.length,
        }
    }
}

// What an operation on a packet record answered, and the record behind it.
fn changed(answer: Result<(), Refusal>, after: Record) -> MoultChange
    ensures { result ≡ change_of (change answer after) }
{
    let (number, place) = match answer {
        Ok(()) => (0, 0),
        Err(refusal) => (number_of(refusal), refusal.place),
    };
    MoultChange {
        number,
        place,
        after,
    }
}

// ---- what a C host calls. (That there is each function with and without a session, and a struct for each answer, is the C interface.)

// The library's version.
#[unsafe(no_mangle)]
pub extern "C" fn moult_version() -> u32
    ensures { result ≡ version }
{
    VERSION
}

// The session that a host's two numbers say; the rate is not looked at where framing is not agreed.
#[tactic(auto, unfolding(crate::specs::Structs::session_of))]
fn session_of(agreed: u32, rate: u32) -> Session
    ensures { result ≡ session_of agreed rate }
{
    if agreed == 0 {
        Session::NotAgreed
    } else {
        Session::Agreed(rate)
    }
}

// The octets of the body of a row: 0 where no frame has such a row, since no body has 0 octets.
#[unsafe(no_mangle)]
pub extern "C" fn moult_body_octets(kind: u16, tc: u16) -> usize
    ensures { result ≡ body_octets_of (kind_of kind) tc }
{
    let Ok(kind) = Kind::try_from(kind) else {
        return 0;
    };
    let shape = wire::shape_of(Framing::Unframed, Row { kind, tc });
    if shape.tc < shape.entry.least || shape.entry.most < shape.tc {
        return 0;
    }
    shape.body
}

// The host's count: the number of frames, or minus the number of the refusal. Only an empty payload is 0.
#[unsafe(no_mangle)]
pub extern "C" fn moult_count(payload: &[u8]) -> i32
    ensures { Counted payload.now result }
{
    match wire::walk(Framing::Unframed, payload) {
        Ok(summary) => summary.frames as i32,
        Err(refusal) => 0 - i32::from(u8::from(refusal.reason)),
    }
}

// Reads a payload into rows and bodies.
#[unsafe(no_mangle)]
pub extern "C" fn moult_read(payload: &[u8], rows: &mut [u16], bodies: &mut [u8]) -> MoultReading
    ensures { HostReads NotAgreed payload.now rows.old bodies.old result rows.new bodies.new }
{
    MoultReading::from(reader::read(Session::NotAgreed, payload, rows, bodies))
}

// The same in a session.
#[unsafe(no_mangle)]
pub extern "C" fn moult_read_session(
    agreed: u32,
    rate: u32,
    payload: &[u8],
    rows: &mut [u16],
    bodies: &mut [u8],
) -> MoultReading
    ensures { HostReads (session_of agreed rate) payload.now rows.old bodies.old result rows.new bodies.new }
{
    MoultReading::from(reader::read(session_of(agreed, rate), payload, rows, bodies))
}

// Writes rows and bodies as a payload.
#[unsafe(no_mangle)]
pub extern "C" fn moult_write(rows: &[u16], bodies: &[u8], out: &mut [u8]) -> MoultWriting
    ensures { HostWrites NotAgreed rows.now bodies.now out.old result out.new }
{
    MoultWriting::from(writer::write(Session::NotAgreed, rows, bodies, out))
}

// The same in a session.
#[unsafe(no_mangle)]
pub extern "C" fn moult_write_session(
    agreed: u32,
    rate: u32,
    rows: &[u16],
    bodies: &[u8],
    out: &mut [u8],
) -> MoultWriting
    ensures { HostWrites (session_of agreed rate) rows.now bodies.now out.old result out.new }
{
    MoultWriting::from(writer::write(session_of(agreed, rate), rows, bodies, out))
}

// The ticks of a payload's frames.
#[unsafe(no_mangle)]
pub extern "C" fn moult_packet_ticks(payload: &[u8]) -> MoultTicks
    ensures { HostTimes NotAgreed payload.now result }
{
    MoultTicks::from(clock::packet_ticks(Session::NotAgreed, payload))
}

// The same in a session.
#[unsafe(no_mangle)]
pub extern "C" fn moult_packet_ticks_session(agreed: u32, rate: u32, payload: &[u8]) -> MoultTicks
    ensures { HostTimes (session_of agreed rate) payload.now result }
{
    MoultTicks::from(clock::packet_ticks(session_of(agreed, rate), payload))
}

// The ptime of a number of frames at a rate, in milliseconds.
#[unsafe(no_mangle)]
pub extern "C" fn moult_ptime(rate: u32, frames: usize) -> MoultMillis
    ensures { HostPtime rate frames result }
{
    MoultMillis::from(clock::ptime(rate, frames))
}

// Where a row's augmentation stands in the payload, in a session; start 0 and length 0 where there is none.
fn augmentation_in(session: Session, payload: &[u8], row: usize) -> MoultPart
    ensures { HostAugments session payload.now row result }
{
    match views::locate(session, payload, row) {
        Some(location) => location.augmentation.into(),
        None => MoultPart {
            stand_in: 0,
            start: 0,
            length: 0,
        },
    }
}

// Where a row's augmentation stands in the payload.
#[unsafe(no_mangle)]
pub extern "C" fn moult_augmentation(payload: &[u8], row: usize) -> MoultPart
    ensures { HostAugments NotAgreed payload.now row result }
{
    augmentation_in(Session::NotAgreed, payload, row)
}

// The same in a session.
#[unsafe(no_mangle)]
pub extern "C" fn moult_augmentation_session(
    agreed: u32,
    rate: u32,
    payload: &[u8],
    row: usize,
) -> MoultPart
    ensures { HostAugments (session_of agreed rate) payload.now row result }
{
    augmentation_in(session_of(agreed, rate), payload, row)
}

// Where a row's own octets stand in the payload, in a session, or the whole stand-in, whose octets are never looked at.
fn frame_or_in(session: Session, payload: &[u8], row: usize, stand_in: &[u8]) -> MoultPart
    ensures { HostShows session payload.now row stand_in.now result }
{
    match views::locate(session, payload, row) {
        Some(location) => location.frame.into(),
        None => MoultPart {
            stand_in: 1,
            start: 0,
            length: stand_in.len(),
        },
    }
}

// Where a row's own octets stand in the payload, or the whole stand-in.
#[unsafe(no_mangle)]
pub extern "C" fn moult_frame_or(payload: &[u8], row: usize, stand_in: &[u8]) -> MoultPart
    ensures { HostShows NotAgreed payload.now row stand_in.now result }
{
    frame_or_in(Session::NotAgreed, payload, row, stand_in)
}

// The same in a session.
#[unsafe(no_mangle)]
pub extern "C" fn moult_frame_or_session(
    agreed: u32,
    rate: u32,
    payload: &[u8],
    row: usize,
    stand_in: &[u8],
) -> MoultPart
    ensures { HostShows (session_of agreed rate) payload.now row stand_in.now result }
{
    frame_or_in(session_of(agreed, rate), payload, row, stand_in)
}

// Reads a setting text.
#[unsafe(no_mangle)]
pub extern "C" fn moult_settings_read(text: &[u8]) -> MoultParsed
    ensures { HostParses text.now result }
{
    MoultParsed::from(fmtp::read(text))
}

// Writes settings as a setting text.
#[unsafe(no_mangle)]
pub extern "C" fn moult_settings_write(
    first: u16,
    second: u16,
    third: u16,
    tcmax: u16,
    out: &mut [u8],
) -> MoultWriting
    ensures { HostWritesSettings (record { first = first; second = second; third = third; tcmax = tcmax }) out.old result out.new }
{
    let settings = Settings {
        first,
        second,
        third,
        tcmax,
    };
    MoultWriting::from(fmtp::write(settings, out))
}

// Unpacks the fields of a 600 bps body; `octets` of the answer is the number of fields.
#[unsafe(no_mangle)]
pub extern "C" fn moult_unpack(mode: u8, body: &[u8], fields: &mut [u16]) -> MoultWriting
    ensures { HostUnpacks mode body.now fields.old result fields.new }
{
    MoultWriting::from(fields::unpack(mode, body, fields))
}

// Packs fields into a 600 bps body.
#[unsafe(no_mangle)]
pub extern "C" fn moult_pack(mode: u8, fields: &[u16], out: &mut [u8]) -> MoultWriting
    ensures { HostPacks mode fields.now out.old result out.new }
{
    MoultWriting::from(fields::pack(mode, fields, out))
}

// The entry that begins at an index of a journal.
#[unsafe(no_mangle)]
pub extern "C" fn moult_journal_entry_at(octets: &[u8], at: usize) -> MoultEntry
    ensures { HostEntry octets.now at result }
{
    MoultEntry::from(journal::entry_at(octets, at))
}

// Writes an entry of a journal.
#[unsafe(no_mangle)]
pub extern "C" fn moult_journal_write_entry(
    ticks: u64,
    source: u64,
    payload: &[u8],
    out: &mut [u8],
) -> MoultWriting
    ensures { HostWritesEntry (record { ticks = ticks; source = source; payload = payload.now }) out.old result out.new }
{
    MoultWriting::from(journal::write_entry(ticks, source, payload, out))
}

// The packet record of no rows.
#[unsafe(no_mangle)]
pub extern "C" fn moult_record_empty() -> Record
    ensures { result ≡ record_of [] }
{
    Record::empty()
}

// Takes a row at the end of a packet record.
#[unsafe(no_mangle)]
pub extern "C" fn moult_record_push(packet: Record, kind: u16, tc: u16) -> MoultChange
    ensures { HostChanges (to_push kind tc) packet result }
{
    let mut after = packet;
    let answer = after.push(kind, tc);
    changed(answer, after)
}

// Drops the last row of a packet record.
#[unsafe(no_mangle)]
pub extern "C" fn moult_record_pop(packet: Record) -> MoultChange
    ensures { HostChanges to_pop packet result }
{
    let mut after = packet;
    let answer = after.pop();
    changed(answer, after)
}

// Replaces a row of a packet record.
#[unsafe(no_mangle)]
pub extern "C" fn moult_record_replace(
    packet: Record,
    row: usize,
    kind: u16,
    tc: u16,
) -> MoultChange
    ensures { HostChanges (to_replace row kind tc) packet result }
{
    let mut after = packet;
    let answer = after.replace(row, kind, tc);
    changed(answer, after)
}

// How many rows a packet record has.
#[unsafe(no_mangle)]
pub extern "C" fn moult_record_rows(packet: Record) -> usize
    ensures { Asked (λ (p : Record). p.rows) length packet result }
{
    packet.rows()
}

// The octets of its rows on the wire.
#[unsafe(no_mangle)]
pub extern "C" fn moult_record_octets(packet: Record) -> usize
    ensures { Asked (λ (p : Record). p.octets) (sum_of wire_octets) packet result }
{
    packet.octets()
}

// The ticks of its rows.
#[unsafe(no_mangle)]
pub extern "C" fn moult_record_ticks(packet: Record) -> u32
    ensures { Asked (λ (p : Record). p.ticks) (sum_of ticks) packet result }
{
    packet.ticks
}

// A row of a packet record.
#[unsafe(no_mangle)]
pub extern "C" fn moult_record_row(packet: Record, row: usize) -> MoultRow
    ensures { HostRow row packet result }
{
    MoultRow::from(packet.row(row))
}

// Where a row of a packet record starts on the wire.
#[unsafe(no_mangle)]
pub extern "C" fn moult_record_start(packet: Record, row: usize) -> MoultStart
    ensures { HostStart row packet result }
{
    MoultStart::from(packet.start(row))
}
