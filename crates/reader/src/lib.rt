// Reads payloads: the rows and bodies of a payload's frames go into lent lists, or the payload is refused and the lists stay as they were.
#![tactic(auto)]

ghost use Rattle.std.specs.Prelude.{◌≡◌, [], ◌∷◌, ◌+◌, ◌*◌, ◌≤◌, length};
ghost use Rattle.octets.specs.Put.{put};
ghost use Rattle.reader.specs.Filling.{body_of, BodyFits, Fillable};
ghost use Rattle.reader.specs.Reading.{read_into};
ghost use Rattle.reader.specs.Promise.{Reads};

use refusal::{Reason, Refusal};
use wire::{Entry, Framing, Session, Summary};

// The row of the frame with this index.
fn put_row(rows: &mut [u16], index: usize, number: u16, tc: u16)
    requires { 2 * index + 2 ≤ length rows.old }
    ensures { rows.new ≡ put rows.old (2 * index) (number ∷ tc ∷ []) }
{
    rows[2 * index] = number;
    rows[2 * index + 1] = tc;
}

// The body of a frame of this entry from its octets on the wire without the count: the rate code bits are cleared.
fn put_body(octets: &[u8], entry: Entry, body: &mut [u8])
    requires { BodyFits octets.now entry (length body.old) }
    ensures { body.new ≡ body_of octets.now entry }
{
    let last = entry.octets - 1;
    octets::copy(octets, body);
    body[last] = octets[last] - entry.code;
}

// The rows and bodies of a payload that holds so much, from its last frame to its first.
fn fill(framing: Framing, payload: &[u8], summary: Summary, rows: &mut [u16], bodies: &mut [u8])
    requires { Fillable framing payload.now summary (length rows.old) (length bodies.old) }
    ensures rows { rows.new ≡ (read_into framing payload.now rows.old bodies.old).rows }
    ensures bodies { bodies.new ≡ (read_into framing payload.now rows.old bodies.old).bodies }
{
    let mut unread = payload.len();
    let mut at = summary.octets;
    for index in (0..summary.frames).rev() {
        // The walk has gone over this frame, so there is always one.
        let row = wire::identify(framing, &payload[..unread]).unwrap();
        let shape = wire::shape_of(framing, row);
        unread -= shape.wire;
        at -= shape.body;
        put_row(rows, index, shape.entry.number, row.tc);
        put_body(
            &payload[unread..unread + shape.body],
            shape.entry,
            &mut bodies[at..at + shape.body],
        );
    }
}

// Reads a payload in a session. A rate that no session has is refused before all else, and nothing is written before the walk has
// accepted the payload and both lists are known to have room.
pub fn read(
    session: Session,
    payload: &[u8],
    rows: &mut [u16],
    bodies: &mut [u8],
) -> Result<Summary, Refusal>
    ensures { Reads session payload.now rows.old bodies.old result rows.new bodies.new }
{
    let framing = Framing::try_from(session)?;
    let summary = wire::walk(framing, payload)?;
    if rows.len() / 2 < summary.frames {
        return Err(Reason::NumbersTooShort.at(summary.frames));
    }
    if bodies.len() < summary.octets {
        return Err(Reason::OctetsTooShort.at(summary.octets));
    }
    fill(framing, payload, summary, rows, bodies);
    Ok(summary)
}
