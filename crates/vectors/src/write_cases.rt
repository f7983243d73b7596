// Payloads that are written.
use crate::lists::{BEHIND, MOST_PAYLOAD, MOST_ROOM};
use crate::malformed::Malformed;
use crate::text::Form;
use crate::{lists, print, text};
use std::io::Stdout;
use wire::Session;

// The most numbers of rows that are lent.
const MOST_NUMBERS: usize = 750;

pub(crate) fn write(
    stdout: Stdout,
    session: Session,
    head: &[usize],
    data: &[u8],
) -> Result<(), Malformed> {
    let [room, rows @ ..] = head else {
        return Err(Malformed);
    };
    let room = *room;
    if MOST_ROOM < room {
        return Err(Malformed);
    }
    let mut numbers = [0; MOST_NUMBERS];
    let numbers = lists::converted(&mut numbers, rows)?;
    let mut bodies = [0; MOST_PAYLOAD];
    let bodies = text::values(&mut bodies, data, Form::Octets)?;
    let mut out = [0xee; MOST_ROOM + BEHIND];
    let answer = writer::write(session, numbers, bodies, &mut out[..room]);
    print::number_or_refused(stdout, answer);
    print::say(stdout, b";");
    print::octets(stdout, &out[..room + BEHIND]);
    Ok(())
}
