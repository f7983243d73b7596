// Views of a payload's rows.
use crate::lists::MOST_PAYLOAD;
use crate::malformed::Malformed;
use crate::text::Form;
use crate::{print, text};
use std::io::Stdout;
use wire::Session;

// The most octets of a stand-in.
const MOST_OCTETS: usize = 10;

pub(crate) fn view(
    stdout: Stdout,
    session: Session,
    head: &[usize],
    data: &[u8],
) -> Result<(), Malformed> {
    let [row, octets, ..] = *head else {
        return Err(Malformed);
    };
    let mut payload = [0; MOST_PAYLOAD];
    let payload = text::values(&mut payload, data, Form::Octets)?;
    let stand_in = [0x5a; MOST_OCTETS];
    let stand_in = stand_in.get(..octets).ok_or(Malformed)?;
    print::say(stdout, b" augmentation");
    print::octets(stdout, views::augmentation(session, payload, row));
    print::say(stdout, b"; frame");
    print::octets(stdout, views::frame_or(session, payload, row, stand_in));
    Ok(())
}
