// Frames shown in place: where a row's frame stands in a payload, and parts of the lent payload itself, never copies.
#![tactic(auto)]

ghost use Rattle.std.specs.Prelude.{◌≡◌, ◌+◌, ◌≤◌, ◌<◌, length, Ok, Some, IsOk};
ghost use Rattle.wire.specs.Walk.{ending, read_of};
ghost use Rattle.wire.specs.Answers.{step_of};
ghost use Rattle.octets.specs.Part.{part};
ghost use Rattle.views.specs.View.{span, augmentation_at, location_of, Locates, part_at, AugmentationShown, FrameShown};
ghost use Rattle.views.specs.StepBack.{Holds};

use wire::{Framing, Session, Shape};

// A part of the payload: the index of its first octet, and its octets.
#[derive(Clone, Copy, Debug, PartialEq, Eq, Hash)]
pub struct Span {
    pub start: usize,
    pub length: usize,
}

// Where a row's frame stands in the payload, and its augmentation, which is empty at the payload's start where its kind has none: so document 01 says
// (`augmentation_at`), and no Option.
#[derive(Clone, Copy, Debug, PartialEq, Eq, Hash)]
pub struct Location {
    pub frame: Span,
    pub augmentation: Span,
}

// The location of a frame of this shape that starts at an index.
fn location_at(start: usize, shape: Shape) -> Location
    requires { start + shape.entry.octets ≤ 1400 }
    ensures { result ≡ record { frame = span start shape.wire; augmentation = augmentation_at start shape.entry shape.tc } }
{
    let frame = Span {
        start,
        length: shape.wire,
    };
    let augmentation = if shape.entry.most == 0 {
        Span {
            start: 0,
            length: 0,
        }
    } else {
        Span {
            start: start + shape.entry.octets,
            length: shape.tc,
        }
    };
    Location {
        frame,
        augmentation,
    }
}

// The shape of the frame that unread octets end in. It is called from two places, so the compiler would not inline it; the loop below
// then takes four times as long.
#[inline(always)]
fn last_shape(framing: Framing, unread: &[u8]) -> Shape
    requires { IsOk (ending framing unread.now (length unread.now)) }
    ensures { Ok result ≡ step_of framing (ending framing unread.now (length unread.now)) }
{
    let row = wire::identify(framing, unread).unwrap();
    wire::shape_of(framing, row)
}

// The location of a row in a payload that is known to hold so many frames: back from its end, frame by frame.
fn step_back(framing: Framing, payload: &[u8], row: usize, frames: usize) -> Location
    requires { Holds framing payload.now frames × (row < frames) }
    ensures { Some result ≡ location_of (read_of framing payload.now) row }
{
    let mut unread = payload.len();
    for _ in row + 1..frames {
        unread -= last_shape(framing, &payload[..unread]).wire;
    }
    let shape = last_shape(framing, &payload[..unread]);
    location_at(unread - shape.wire, shape)
}

// Where the frame of a row stands in the payload: the numbers behind both views. None where the agreed rate is unknown, the payload is
// refused or has no such row.
pub fn locate(session: Session, payload: &[u8], row: usize) -> Option<Location>
    ensures { Locates session payload.now row result }
{
    let framing = Framing::try_from(session).ok()?;
    let summary = wire::walk(framing, payload).ok()?;
    if summary.frames <= row {
        return None;
    }
    Some(step_back(framing, payload, row, summary.frames))
}

// A span of the payload, in place.
fn part_of(payload: &[u8], span: Span) -> &[u8]
    requires { span.start + span.length ≤ length payload.now }
    ensures { part result.ref_ptr.0 result.ref_ptr.1 result.now ≡ part_at span (part payload.entry.ref_ptr.0 payload.entry.ref_ptr.1 payload.now) }
{
    &payload[span.start..span.start + span.length]
}

// The row's augmentation as a part of the payload; the empty part at its start where there is none.
pub fn augmentation(session: Session, payload: &[u8], row: usize) -> &[u8]
    ensures { AugmentationShown session row payload.entry.ref_ptr.0 payload.entry.ref_ptr.1 payload.now result.ref_ptr.0 result.ref_ptr.1 result.now }
{
    match locate(session, payload, row) {
        Some(location) => part_of(payload, location.augmentation),
        None => &payload[..0],
    }
}

// The row's own octets on the wire as a part of the payload; the whole stand-in where the agreed rate is unknown, the payload
// is refused or the row is missing.
pub fn frame_or<'a>(session: Session, payload: &'a [u8], row: usize, stand_in: &'a [u8]) -> &'a [u8]
    ensures { FrameShown session row payload.entry.ref_ptr.0 payload.entry.ref_ptr.1 payload.now stand_in.entry.ref_ptr.0 stand_in.entry.ref_ptr.1 stand_in.now result.ref_ptr.0 result.ref_ptr.1 result.now }
{
    match locate(session, payload, row) {
        Some(location) => part_of(payload, location.frame),
        None => stand_in,
    }
}
