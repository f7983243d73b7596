// Payloads that are read.
use crate::lists::{MOST_PAYLOAD, MOST_ROOM};
use crate::malformed::Malformed;
use crate::text::Form;
use crate::{print, text};
use std::io::Stdout;
use wire::Session;

// The most numbers of rows that are lent.
const MOST_NUMBERS: usize = 410;

pub(crate) fn read(
    stdout: Stdout,
    session: Session,
    head: &[usize],
    data: &[u8],
) -> Result<(), Malformed> {
    let [numbers, octets, ..] = *head else {
        return Err(Malformed);
    };
    let mut payload = [0; MOST_PAYLOAD];
    let payload = text::values(&mut payload, data, Form::Octets)?;
    let mut rows = [99; MOST_NUMBERS];
    let rows = rows.get_mut(..numbers).ok_or(Malformed)?;
    let mut bodies = [0xee; MOST_ROOM];
    let bodies = bodies.get_mut(..octets).ok_or(Malformed)?;
    match reader::read(session, payload, rows, bodies) {
        Ok(summary) => {
            print::number(stdout, summary.frames);
            print::number(stdout, summary.octets);
            print::number(stdout, summary.rate);
            print::number(stdout, summary.ticks);
        }
        Err(refusal) => print::refused(stdout, refusal),
    }
    print::say(stdout, b";");
    print::numbers(stdout, rows);
    print::say(stdout, b";");
    print::octets(stdout, bodies);
    print::say(stdout, b"; lasts");
    let lasts = clock::packet_ticks(session, payload).map(|ticks| ticks.0);
    print::number_or_refused(stdout, lasts);
    Ok(())
}
