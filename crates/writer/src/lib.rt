// The payload writer, and its checks of rows alone, which a record of rows uses too. What a kind is made of stands in wire's table:
// no kind is named here.
#![tactic(auto)]

ghost use Rattle.std.specs.Prelude.{◌≡◌, List, [], ◌+◌, ◌/◌, ◌%◌, ◌≤◌, ◌<◌, length, get_or, Some};
ghost use Rattle.wire.specs.Frame.{kind_of, wire_octets, sum_of, octets_of};
ghost use Rattle.writer.specs.Rows.{passed, row_of, row_by_row, and_then, total, check_of};
ghost use Rattle.writer.specs.Write.{frames_of, bad_end, out_of};
ghost use Rattle.writer.specs.Answers.{row_check_of};
ghost use Rattle.writer.specs.Promise.{Checks, Writes};
ghost use Rattle.writer.specs.Stages.{shape_checked, OneRate, named_row, count_by, CountFits, FrameFits, frame_by, InOrder, Ready};

use refusal::{Reason, Refusal};
use wire::{Framing, Kind, MOST_FRAMES, MOST_OCTETS, Row, Session, Shape};

// Rows that are in order: how many, the octets of their bodies, and their octets on the wire.
#[derive(Clone, Copy, Debug, Default, PartialEq, Eq)]
pub struct Totals {
    pub rows: usize,
    pub bodies: usize,
    pub wire: usize,
}

// ---- the checks of rows alone

// The row of two numbers, or 12.
fn named_row(pair: &[u16; 2]) -> Result<Row, Reason>
    ensures { result ≡ named_row (kind_of (get_or pair.now 0 0)) (get_or pair.now 1 0) }
{
    let [number, tc] = *pair;
    let kind = Kind::try_from(number)?;
    Ok(Row { kind, tc })
}

// The shape of a row, behind rows of the rate `rate` (where there are none, the rate agreed, or 0) and before `later` numbers; or 13, 6, 8.
fn admit(framing: Framing, row: Row, later: usize, rate: u32) -> Result<Shape, Reason>
    ensures { (earlier : List Row) → OneRate framing rate earlier
        → result ≡ shape_checked framing (row_of framing earlier later (Some row.kind) row.tc) }
{
    let shape = wire::shape_of(framing, row);
    let entry = shape.entry;
    if shape.tc < entry.least || entry.most < shape.tc {
        return Err(Reason::WrongTc);
    }
    if entry.rate == 0 {
        if 0 < later {
            return Err(Reason::ComfortNoiseNotLast);
        }
    } else if rate != 0 && entry.rate != rate {
        return Err(Reason::RatesMixed);
    }
    Ok(shape)
}

// The shape of the row of two numbers, behind rows of the rate `rate` and before `later` numbers; or 12, 13, 6, 8.
fn next_row(framing: Framing, pair: &[u16; 2], later: usize, rate: u32) -> Result<Shape, Reason>
    ensures { (earlier : List Row) → OneRate framing rate earlier
        → result ≡ shape_checked framing (row_of framing earlier later (kind_of (get_or pair.now 0 0)) (get_or pair.now 1 0)) }
{
    let row = named_row(pair)?;
    admit(framing, row, later, rate)
}

// The checks "row by row" of rows that are not too many; then 1 for the total.
fn row_by_row(framing: Framing, rows: &[u16]) -> Result<Totals, Refusal>
    requires even { length rows.now % 2 ≡ 0 }
    requires few { length rows.now / 2 ≤ 200 }
    ensures { result ≡ row_check_of (and_then (row_by_row framing [] rows.now) total) }
{
    let (pairs, _) = rows.as_chunks::<2>();
    let mut totals = Totals::default();
    let mut rate = wire::agreed_rate(framing);
    for pair in pairs {
        let later = rows.len() - 2 * totals.rows - 2;
        let checked = next_row(framing, pair, later, rate);
        let shape = checked.map_err(|reason| reason.at(totals.rows))?;
        totals.rows += 1;
        totals.bodies += shape.body;
        totals.wire += shape.wire;
        rate = shape.entry.rate;
    }
    if MOST_OCTETS < totals.wire {
        return Err(Reason::TooLong.at(MOST_OCTETS));
    }
    Ok(totals)
}

// The checks that concern rows alone, in a session of this framing.
fn check_rows_framed(framing: Framing, rows: &[u16]) -> Result<Totals, Refusal>
    ensures { result ≡ row_check_of (check_of framing rows.now) }
{
    if rows.len() % 2 == 1 {
        return Err(Reason::OddRows.at(rows.len()));
    }
    if MOST_FRAMES < rows.len() / 2 {
        return Err(Reason::TooLong.at(MOST_OCTETS));
    }
    row_by_row(framing, rows)
}

// The checks that concern rows alone, where framing is not agreed.
pub fn check_rows(rows: &[u16]) -> Result<Totals, Refusal>
    ensures { Checks rows.now result }
{
    check_rows_framed(Framing::Unframed, rows)
}

// ---- body ends

// The first bad end among the bodies of rows that are in order, so that each is of a known kind.
fn bad_end(framing: Framing, rows: &[u16], bodies: &[u8]) -> Option<usize>
    requires { (xs : List Row) × InOrder framing rows.now (length bodies.now) xs }
    ensures { (xs : List Row) → check_of framing rows.now ≡ passed xs → result ≡ bad_end framing 0 (frames_of xs bodies.now) }
{
    let (pairs, _) = rows.as_chunks::<2>();
    let mut from = 0;
    for pair in pairs {
        let row = named_row(pair).unwrap();
        let shape = wire::shape_of(framing, row);
        let end = from + (shape.entry.octets - 1);
        if shape.entry.top < bodies[end] {
            return Some(end);
        }
        from += shape.body;
    }
    None
}

// ---- the octets

// Writes a count that takes all of `out`: no octet, one that is `tc` and 177, or `tc` and 255.
fn put_count(out: &mut [u8], tc: usize)
    requires { CountFits tc (length out.old) }
    ensures { out.new ≡ count_by (length out.old) tc }
{
    match out.len() {
        0 => {}
        1 => out[0] = (tc + 177) as u8,
        _ => {
            out[0] = tc as u8;
            out[1] = 255;
        }
    }
}

// Writes the frame of this shape and body, which takes all of `out`.
fn put_frame(shape: Shape, body: &[u8], out: &mut [u8])
    requires { FrameFits shape body.now (length out.old) }
    ensures { out.new ≡ frame_by shape body.now }
{
    let end = shape.entry.octets - 1;
    let (start, count) = out.split_at_mut(shape.body);
    octets::copy(body, start);
    start[end] = body[end] + shape.entry.code;
    put_count(count, shape.tc);
}

// Writes the frames of rows that are in order, so that each is of a known kind.
fn put(framing: Framing, rows: &[u16], bodies: &[u8], out: &mut [u8])
    requires { (xs : List Row) × Ready framing rows.now bodies.now xs × (sum_of wire_octets xs ≤ length out.old) }
    ensures { (xs : List Row) → check_of framing rows.now ≡ passed xs
        → out.new ≡ out_of (passed (octets_of framing (frames_of xs bodies.now))) out.old }
{
    let (pairs, _) = rows.as_chunks::<2>();
    let mut from = 0;
    let mut to = 0;
    for pair in pairs {
        let row = named_row(pair).unwrap();
        let shape = wire::shape_of(framing, row);
        let body = &bodies[from..from + shape.body];
        put_frame(shape, body, &mut out[to..to + shape.wire]);
        from += shape.body;
        to += shape.wire;
    }
}

// ---- the writer

// Writes the payload that rows and bodies describe in a session into the first places of `out`, or refuses and changes nothing.
pub fn write(
    session: Session,
    rows: &[u16],
    bodies: &[u8],
    out: &mut [u8],
) -> Result<usize, Refusal>
    ensures { Writes session rows.now bodies.now out.old result out.new }
{
    let framing = Framing::try_from(session)?;
    let totals = check_rows_framed(framing, rows)?;
    if bodies.len() != totals.bodies {
        return Err(Reason::WrongLength.at(totals.bodies));
    }
    if let Some(end) = bad_end(framing, rows, bodies) {
        return Err(Reason::ReservedBits.at(end));
    }
    if out.len() < totals.wire {
        return Err(Reason::OctetsTooShort.at(totals.wire));
    }
    put(framing, rows, bodies, out);
    Ok(totals.wire)
}
