// The frames of a payload on the wire: the table of kinds, the frame that octets end in, and the walk from a payload's end to its
// front, which says what the payload holds or why it is refused.
#![tactic(auto)]

ghost use Rattle.std.specs.Prelude.{◌≡◌, length, ◌+◌, ◌≤◌, ◌<◌};
ghost use Rattle.wire.specs.Frame.{plain_entry, augmented_entry, table, agreed_rate, entry_in, count_in, ticks_of_rate};
ghost use Rattle.wire.specs.Walk.{low_kind, named, counted, whole, beside, last_frame, read_of};
ghost use Rattle.wire.specs.Answers.{KindKnown, FramingKnown, Identified, shape_of, step_of, walked_of, Walks};
ghost use Rattle.wire.specs.declared.Framing.TheVariants.{Unframed};

use refusal::{Reason, Refusal};

// The most octets of a payload.
pub const MOST_OCTETS: usize = 1400;

// The most frames that so many octets can hold.
pub const MOST_FRAMES: usize = 200;

// What a session says of the end-to-end framing bit: not agreed, or agreed with a rate, where any number may stand.
#[derive(Clone, Copy, Debug, PartialEq, Eq, Hash)]
pub enum Session {
    NotAgreed,
    Agreed(u32),
}

// The legal sessions: without a framing bit, or with one in frames of 2400 or 600 bps.
#[derive(Clone, Copy, Debug, PartialEq, Eq, Hash)]
pub enum Framing {
    Unframed,
    Framed2400,
    Framed600,
}

// The kinds of frames.
#[derive(Clone, Copy, Debug, PartialEq, Eq, Hash)]
pub enum Kind {
    Bps2400,
    Bps1200,
    Bps600,
    ComfortNoise,
    Tsvcis,
    TsvcisLong,
}

// How a frame's TC is counted behind its body: not at all; in one octet where that is long enough, else in two; always in two.
#[derive(Clone, Copy, Debug, PartialEq, Eq)]
pub enum Counting {
    Uncounted,
    ShortOrLong,
    Long,
}

// A kind's numbers: its number in a row; the octets of its base, the rate code bits in their last one and the most that the body has
// there; its rate (0 of comfort noise); the least and the most TC; how that is counted. A rate is a number, 0 for none, here and below, since the
// legal sequences (`OfRate`, `Stands` of specs/Frame) compare rates as numbers, and callers may hand in any number as one.
#[derive(Clone, Copy, Debug, PartialEq, Eq)]
pub struct Entry {
    pub number: u16,
    pub octets: usize,
    pub code: u8,
    pub top: u8,
    pub rate: u32,
    pub least: usize,
    pub most: usize,
    pub counting: Counting,
}

// A frame's kind and TC.
#[derive(Clone, Copy, Debug, PartialEq, Eq)]
pub struct Row {
    pub kind: Kind,
    pub tc: u16,
}

// A frame's numbers: its kind's, its TC, and the octets of its count, its body, and all that stands on the wire.
#[derive(Clone, Copy, Debug, PartialEq, Eq)]
pub struct Shape {
    pub entry: Entry,
    pub tc: usize,
    pub count: usize,
    pub body: usize,
    pub wire: usize,
}

// What a payload holds: frames, octets of their bodies, the rate of its coder frames (0 where there are none), ticks.
#[derive(Clone, Copy, Debug, PartialEq, Eq)]
pub struct Summary {
    pub frames: usize,
    pub octets: usize,
    pub rate: u32,
    pub ticks: u32,
}

// ---- the table

// A kind without augmentation.
fn plain(number: u16, octets: usize, code: u8, top: u8, rate: u32) -> Entry
    ensures { result ≡ plain_entry number octets code top rate }
{
    Entry {
        number,
        octets,
        code,
        top,
        rate,
        least: 0,
        most: 0,
        counting: Counting::Uncounted,
    }
}

// A kind with augmentation behind a 2400 bps frame.
fn augmented(number: u16, least: usize, most: usize, counting: Counting) -> Entry
    ensures { result ≡ augmented_entry number least most counting }
{
    Entry {
        number,
        octets: 7,
        code: 0,
        top: 63,
        rate: 2400,
        least,
        most,
        counting,
    }
}

// The table of kinds.
pub fn entry_of(kind: Kind) -> Entry
    ensures { result ≡ table kind }
{
    match kind {
        Kind::Bps2400 => plain(1, 7, 0, 63, 2400),
        Kind::Bps1200 => plain(2, 11, 128, 1, 1200),
        Kind::Bps600 => plain(3, 7, 64, 63, 600),
        Kind::ComfortNoise => plain(4, 2, 160, 31, 0),
        Kind::Tsvcis => augmented(5, 1, 255, Counting::ShortOrLong),
        Kind::TsvcisLong => augmented(6, 15, 77, Counting::Long),
    }
}

// The kind of a number in a row; 12 where it is none.
impl TryFrom<u16> for Kind {
    type Error = Reason;

    ghost try_from_gives = { KindKnown };

    fn try_from(number: u16) -> Result<Kind, Reason> {
        match number {
            1 => Ok(Kind::Bps2400),
            2 => Ok(Kind::Bps1200),
            3 => Ok(Kind::Bps600),
            4 => Ok(Kind::ComfortNoise),
            5 => Ok(Kind::Tsvcis),
            6 => Ok(Kind::TsvcisLong),
            _ => Err(Reason::Unknown),
        }
    }
}

// ---- sessions

// The framing of a session, if it is a legal one; else 12 at 0.
impl TryFrom<Session> for Framing {
    type Error = Refusal;

    ghost try_from_gives = { FramingKnown };

    fn try_from(session: Session) -> Result<Framing, Refusal> {
        match session {
            Session::NotAgreed => Ok(Framing::Unframed),
            Session::Agreed(2400) => Ok(Framing::Framed2400),
            Session::Agreed(600) => Ok(Framing::Framed600),
            Session::Agreed(_) => Err(Reason::Unknown.at(0)),
        }
    }
}

// The rate agreed; 0 where framing is not.
pub fn agreed_rate(framing: Framing) -> u32
    ensures { result ≡ agreed_rate framing }
{
    match framing {
        Framing::Unframed => 0,
        Framing::Framed2400 => 2400,
        Framing::Framed600 => 600,
    }
}

// A kind's entry in a session: where framing is agreed, bit 55 is in the body and is no rate code bit.
fn entry_in(framing: Framing, entry: Entry) -> Entry
    requires { entry.code + entry.top < 255 }
    ensures { result ≡ entry_in framing entry }
{
    if agreed_rate(framing) == 0 {
        return entry;
    }
    if entry.code + entry.top < 128 {
        return Entry {
            code: 0,
            top: 127,
            ..entry
        };
    }
    entry
}

// ---- a frame's numbers

// The octets of a count of `tc`: one that is short for 15 to 77, else two.
#[tactic(auto, unfolding(crate::specs::Frame::count_in))]
fn count_octets(counting: Counting, tc: usize) -> usize
    ensures { result ≡ length (count_in counting tc) }
{
    match (counting, tc) {
        (Counting::Uncounted, _) => 0,
        (Counting::ShortOrLong, 15..=77) => 1,
        _ => 2,
    }
}

// The numbers of a frame of this row.
pub fn shape_of(framing: Framing, row: Row) -> Shape
    ensures { result ≡ shape_of framing row }
{
    let kind = row.kind;
    let tc = usize::from(row.tc);
    let entry = entry_in(framing, entry_of(kind));
    let counting = entry.counting;
    let count = count_octets(counting, tc);
    let body = entry.octets + tc;
    Shape {
        entry,
        tc,
        count,
        body,
        wire: body + count,
    }
}

// The ticks of a coder frame at a rate; 0 at any other number.
#[tactic(auto, unfolding(crate::specs::Frame::ticks_of_rate))]
pub fn ticks_of_rate(rate: u32) -> u32
    ensures { result ≡ ticks_of_rate rate }
{
    match rate {
        2400 => 180,
        1200 => 540,
        600 => 720,
        _ => 0,
    }
}

// ---- the frame that octets end in

// The kind that a last octet below 128 names.
fn low_kind(framing: Framing, x: u8) -> Kind
    ensures { result ≡ low_kind framing x }
{
    match framing {
        Framing::Unframed => unframed_kind(x),
        Framing::Framed2400 => Kind::Bps2400,
        Framing::Framed600 => Kind::Bps600,
    }
}

// The same without a framing bit: bit 6 says the rate.
fn unframed_kind(x: u8) -> Kind
    ensures { result ≡ low_kind Unframed x }
{
    if x < 64 { Kind::Bps2400 } else { Kind::Bps600 }
}

// What a last octet below 255 names.
#[tactic(auto, unfolding(crate::specs::Walk::named))]
fn last_octet(framing: Framing, x: u8) -> Result<Row, Reason>
    requires { x < 255 }
    ensures { result ≡ named framing x }
{
    let (kind, tc) = match x {
        0..=127 => (low_kind(framing, x), 0),
        128..=129 => (Kind::Bps1200, 0),
        130..=159 => return Err(Reason::ReservedBits),
        160..=191 => (Kind::ComfortNoise, 0),
        192.. => (Kind::Tsvcis, u16::from(x) - 177),
    };
    Ok(Row { kind, tc })
}

// What a long count of `tc` names.
#[tactic(auto, unfolding(crate::specs::Walk::counted))]
fn long_count(tc: u8) -> Result<Row, Reason>
    ensures { result ≡ counted tc }
{
    let kind = match tc {
        0 => return Err(Reason::LongCountZero),
        15..=77 => Kind::TsvcisLong,
        _ => Kind::Tsvcis,
    };
    Ok(Row {
        kind,
        tc: u16::from(tc),
    })
}

// The frame that unread octets name by their end, whole or not.
pub fn identify(framing: Framing, unread: &[u8]) -> Result<Row, Reason>
    ensures { Identified framing unread.now result }
{
    match unread {
        [] => Err(Reason::FrameCut),
        [.., x] if *x < 255 => last_octet(framing, *x),
        [.., tc, _] => long_count(*tc),
        [_] => Err(Reason::FrameCut),
    }
}

// ---- the walk

// The step over the frame of this row at the end of the unread octets: if it is whole, if its base ends as one of its kind does, and if
// it may stand before the frames already read, of which there are so many, in a sequence of this rate (0: of any).
fn admit(
    framing: Framing,
    unread: &[u8],
    row: Row,
    frames: usize,
    rate: u32,
) -> Result<Shape, Reason>
    ensures { result ≡ step_of framing (beside frames rate (whole framing unread.now (length unread.now) (Ok row))) }
{
    let shape = shape_of(framing, row);
    let entry = shape.entry;
    let n = unread.len();
    if n < shape.wire {
        return Err(Reason::FrameCut);
    }
    let end = n - shape.wire + (entry.octets - 1);
    if entry.code + entry.top < unread[end] {
        return Err(Reason::AugmentationNot2400);
    }
    if entry.rate == 0 && 0 < frames {
        return Err(Reason::ComfortNoiseNotLast);
    }
    if entry.rate != 0 && entry.rate != rate && rate != 0 {
        return Err(Reason::RatesMixed);
    }
    Ok(shape)
}

// The step over the frame that the unread octets end in. The commonest ends, which one octet names, go ahead by themselves: without
// these arms the walk takes more than twice as long.
#[tactic(auto, using(crate::proofs::StepCases::step_short))]
fn next_frame(framing: Framing, unread: &[u8], frames: usize, rate: u32) -> Result<Shape, Reason>
    ensures { result ≡ step_of framing (beside frames rate (last_frame framing unread.now (length unread.now))) }
{
    match *unread {
        [.., x @ 0..=127] => {
            let kind = low_kind(framing, x);
            admit(framing, unread, Row { kind, tc: 0 }, frames, rate)
        }
        [.., 160..=191] => {
            let kind = Kind::ComfortNoise;
            admit(framing, unread, Row { kind, tc: 0 }, frames, rate)
        }
        [.., x @ 192..=254] => {
            let kind = Kind::Tsvcis;
            let tc = u16::from(x) - 177;
            admit(framing, unread, Row { kind, tc }, frames, rate)
        }
        _ => {
            let row = identify(framing, unread)?;
            admit(framing, unread, row, frames, rate)
        }
    }
}

// The walk over a payload that is not too long, from its end to its front. Wanted of a coder frame is the rate of those already read, or
// else the rate agreed.
fn walk_back(framing: Framing, payload: &[u8]) -> Result<Summary, Refusal>
    requires { length payload.now ≤ 1400 }
    ensures { result ≡ walked_of (read_of framing payload.now) }
{
    let mut unread = payload.len();
    let mut frames: usize = 0;
    let mut coders: u32 = 0;
    let mut octets: usize = 0;
    let mut rate: u32 = 0;
    let mut wanted = agreed_rate(framing);
    while 0 < unread {
        let shape = match next_frame(framing, &payload[..unread], frames, wanted) {
            Ok(shape) => shape,
            Err(reason) => return Err(reason.at(unread)),
        };
        unread -= shape.wire;
        frames += 1;
        octets += shape.body;
        if shape.entry.rate != 0 {
            coders += 1;
            rate = shape.entry.rate;
            wanted = rate;
        }
    }
    Ok(Summary {
        frames,
        octets,
        rate,
        ticks: coders * ticks_of_rate(rate),
    })
}

// The walk: what a payload holds, or its refusal. An empty payload is whole and holds no frames.
pub fn walk(framing: Framing, payload: &[u8]) -> Result<Summary, Refusal>
    ensures { Walks framing payload.now result }
{
    if MOST_OCTETS < payload.len() {
        return Err(Reason::TooLong.at(MOST_OCTETS));
    }
    walk_back(framing, payload)
}
