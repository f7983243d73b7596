// The static library for C: each function of moult that a C host calls, under its own name. include/moult.h declares them.
#![tactic(auto)]

ghost use Rattle.std.specs.Prelude.{◌≡◌, [], length};
ghost use Rattle.wire.specs.Frame.{kind_of, sum_of, ticks, wire_octets};
ghost use Rattle.wire.specs.declared.Session.TheVariants.{NotAgreed};
ghost use Rattle.record.specs.Afresh.{record_of};
ghost use Rattle.record.specs.Operations.{to_push, to_pop, to_replace};
ghost use Rattle.record.specs.Promise.{Asked};
ghost use Rattle.moult.specs.Structs.{session_of, body_octets_of, version};
ghost use Rattle.moult.specs.Promises.{Counted, HostReads, HostWrites, HostTimes, HostPtime, HostAugments, HostShows, HostParses, HostWritesSettings, HostUnpacks, HostPacks, HostEntry, HostWritesEntry, HostChanges, HostRow, HostStart};

use moult::{
    MoultChange, MoultEntry, MoultMillis, MoultParsed, MoultPart, MoultReading, MoultRow,
    MoultStart, MoultTicks, MoultWriting,
};
use record::Record;

// The library's version.
#[unsafe(no_mangle)]
pub extern "C" fn moult_version() -> u32
    ensures { result ≡ version }
{
    moult::moult_version()
}

// The octets of the body of a row: 0 where no frame has such a row, since no body has 0 octets.
#[unsafe(no_mangle)]
pub extern "C" fn moult_body_octets(kind: u16, tc: u16) -> usize
    ensures { result ≡ body_octets_of (kind_of kind) tc }
{
    moult::moult_body_octets(kind, tc)
}

// The host's count: the number of frames, or minus the number of the refusal. Only an empty payload is 0.
#[unsafe(no_mangle)]
pub extern "C" fn moult_count(payload: &[u8]) -> i32
    ensures { Counted payload.now result }
{
    moult::moult_count(payload)
}

// Reads a payload into rows and bodies.
#[unsafe(no_mangle)]
pub extern "C" fn moult_read(payload: &[u8], rows: &mut [u16], bodies: &mut [u8]) -> MoultReading
    ensures { HostReads NotAgreed payload.now rows.old bodies.old result rows.new bodies.new }
{
    moult::moult_read(payload, rows, bodies)
}

// The same in a session.
#[unsafe(no_mangle)]
pub extern "C" fn moult_read_session(
    agreed: u32,
    rate: u32,
    payload: &[u8],
    rows: &mut [u16],
    bodies: &mut [u8],
) -> MoultReading
    ensures { HostReads (session_of agreed rate) payload.now rows.old bodies.old result rows.new bodies.new }
{
    moult::moult_read_session(agreed, rate, payload, rows, bodies)
}

// Writes rows and bodies as a payload.
#[unsafe(no_mangle)]
pub extern "C" fn moult_write(rows: &[u16], bodies: &[u8], out: &mut [u8]) -> MoultWriting
    ensures { HostWrites NotAgreed rows.now bodies.now out.old result out.new }
{
    moult::moult_write(rows, bodies, out)
}

// The same in a session.
#[unsafe(no_mangle)]
pub extern "C" fn moult_write_session(
    agreed: u32,
    rate: u32,
    rows: &[u16],
    bodies: &[u8],
    out: &mut [u8],
) -> MoultWriting
    ensures { HostWrites (session_of agreed rate) rows.now bodies.now out.old result out.new }
{
    moult::moult_write_session(agreed, rate, rows, bodies, out)
}

// The ticks of a payload's frames.
#[unsafe(no_mangle)]
pub extern "C" fn moult_packet_ticks(payload: &[u8]) -> MoultTicks
    ensures { HostTimes NotAgreed payload.now result }
{
    moult::moult_packet_ticks(payload)
}

// The same in a session.
#[unsafe(no_mangle)]
pub extern "C" fn moult_packet_ticks_session(agreed: u32, rate: u32, payload: &[u8]) -> MoultTicks
    ensures { HostTimes (session_of agreed rate) payload.now result }
{
    moult::moult_packet_ticks_session(agreed, rate, payload)
}

// The ptime of a number of frames at a rate, in milliseconds.
#[unsafe(no_mangle)]
pub extern "C" fn moult_ptime(rate: u32, frames: usize) -> MoultMillis
    ensures { HostPtime rate frames result }
{
    moult::moult_ptime(rate, frames)
}

// Where a row's augmentation stands in the payload.
#[unsafe(no_mangle)]
pub extern "C" fn moult_augmentation(payload: &[u8], row: usize) -> MoultPart
    ensures { HostAugments NotAgreed payload.now row result }
{
    moult::moult_augmentation(payload, row)
}

// The same in a session.
#[unsafe(no_mangle)]
pub extern "C" fn moult_augmentation_session(
    agreed: u32,
    rate: u32,
    payload: &[u8],
    row: usize,
) -> MoultPart
    ensures { HostAugments (session_of agreed rate) payload.now row result }
{
    moult::moult_augmentation_session(agreed, rate, payload, row)
}

// Where a row's own octets stand in the payload, or the whole stand-in.
#[unsafe(no_mangle)]
pub extern "C" fn moult_frame_or(payload: &[u8], row: usize, stand_in: &[u8]) -> MoultPart
    ensures { HostShows NotAgreed payload.now row stand_in.now result }
{
    moult::moult_frame_or(payload, row, stand_in)
}

// The same in a session.
#[unsafe(no_mangle)]
pub extern "C" fn moult_frame_or_session(
    agreed: u32,
    rate: u32,
    payload: &[u8],
    row: usize,
    stand_in: &[u8],
) -> MoultPart
    ensures { HostShows (session_of agreed rate) payload.now row stand_in.now result }
{
    moult::moult_frame_or_session(agreed, rate, payload, row, stand_in)
}

// Reads a setting text.
#[unsafe(no_mangle)]
pub extern "C" fn moult_settings_read(text: &[u8]) -> MoultParsed
    ensures { HostParses text.now result }
{
    moult::moult_settings_read(text)
}

// Writes settings as a setting text.
#[unsafe(no_mangle)]
pub extern "C" fn moult_settings_write(
    first: u16,
    second: u16,
    third: u16,
    tcmax: u16,
    out: &mut [u8],
) -> MoultWriting
    ensures { HostWritesSettings (record { first = first; second = second; third = third; tcmax = tcmax }) out.old result out.new }
{
    moult::moult_settings_write(first, second, third, tcmax, out)
}

// Unpacks the fields of a 600 bps body; `octets` of the answer is the number of fields.
#[unsafe(no_mangle)]
pub extern "C" fn moult_unpack(mode: u8, body: &[u8], fields: &mut [u16]) -> MoultWriting
    ensures { HostUnpacks mode body.now fields.old result fields.new }
{
    moult::moult_unpack(mode, body, fields)
}

// Packs fields into a 600 bps body.
#[unsafe(no_mangle)]
pub extern "C" fn moult_pack(mode: u8, fields: &[u16], out: &mut [u8]) -> MoultWriting
    ensures { HostPacks mode fields.now out.old result out.new }
{
    moult::moult_pack(mode, fields, out)
}

// The entry that begins at an index of a journal.
#[unsafe(no_mangle)]
pub extern "C" fn moult_journal_entry_at(octets: &[u8], at: usize) -> MoultEntry
    ensures { HostEntry octets.now at result }
{
    moult::moult_journal_entry_at(octets, at)
}

// Writes an entry of a journal.
#[unsafe(no_mangle)]
pub extern "C" fn moult_journal_write_entry(
    ticks: u64,
    source: u64,
    payload: &[u8],
    out: &mut [u8],
) -> MoultWriting
    ensures { HostWritesEntry (record { ticks = ticks; source = source; payload = payload.now }) out.old result out.new }
{
    moult::moult_journal_write_entry(ticks, source, payload, out)
}

// The packet record of no rows.
#[unsafe(no_mangle)]
pub extern "C" fn moult_record_empty() -> Record
    ensures { result ≡ record_of [] }
{
    moult::moult_record_empty()
}

// Takes a row at the end of a packet record.
#[unsafe(no_mangle)]
pub extern "C" fn moult_record_push(packet: Record, kind: u16, tc: u16) -> MoultChange
    ensures { HostChanges (to_push kind tc) packet result }
{
    moult::moult_record_push(packet, kind, tc)
}

// Drops the last row of a packet record.
#[unsafe(no_mangle)]
pub extern "C" fn moult_record_pop(packet: Record) -> MoultChange
    ensures { HostChanges to_pop packet result }
{
    moult::moult_record_pop(packet)
}

// Replaces a row of a packet record.
#[unsafe(no_mangle)]
pub extern "C" fn moult_record_replace(
    packet: Record,
    row: usize,
    kind: u16,
    tc: u16,
) -> MoultChange
    ensures { HostChanges (to_replace row kind tc) packet result }
{
    moult::moult_record_replace(packet, row, kind, tc)
}

// How many rows a packet record has.
#[unsafe(no_mangle)]
pub extern "C" fn moult_record_rows(packet: Record) -> usize
    ensures { Asked (λ (p : Record). p.rows) length packet result }
{
    moult::moult_record_rows(packet)
}

// The octets of its rows on the wire.
#[unsafe(no_mangle)]
pub extern "C" fn moult_record_octets(packet: Record) -> usize
    ensures { Asked (λ (p : Record). p.octets) (sum_of wire_octets) packet result }
{
    moult::moult_record_octets(packet)
}

// The ticks of its rows.
#[unsafe(no_mangle)]
pub extern "C" fn moult_record_ticks(packet: Record) -> u32
    ensures { Asked (λ (p : Record). p.ticks) (sum_of ticks) packet result }
{
    moult::moult_record_ticks(packet)
}

// A row of a packet record.
#[unsafe(no_mangle)]
pub extern "C" fn moult_record_row(packet: Record, row: usize) -> MoultRow
    ensures { HostRow row packet result }
{
    moult::moult_record_row(packet, row)
}

// Where a row of a packet record starts on the wire.
#[unsafe(no_mangle)]
pub extern "C" fn moult_record_start(packet: Record, row: usize) -> MoultStart
    ensures { HostStart row packet result }
{
    moult::moult_record_start(packet, row)
}
