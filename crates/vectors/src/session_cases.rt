// Cases in a session: two numbers stand in front of those of the case, 1 where framing is agreed or 0 where it is not, and the rate.
use crate::malformed::Malformed;
use crate::{read_cases, view_cases, write_cases};
use std::io::Stdout;
use wire::Session;

// The session that the first numbers give, and the numbers behind it.
fn session_in_front(head: &[usize]) -> Result<(Session, &[usize]), Malformed> {
    let [agreed, rate, behind @ ..] = head else {
        return Err(Malformed);
    };
    let rate = u32::try_from(*rate)?;
    let session = match agreed {
        0 => Session::NotAgreed,
        1 => Session::Agreed(rate),
        _ => return Err(Malformed),
    };
    Ok((session, behind))
}

// Each hands on what is behind the session: a function over the three would take a closure over a borrowed list, which is no plainer.
pub(crate) fn read(stdout: Stdout, head: &[usize], data: &[u8]) -> Result<(), Malformed> {
    let (session, behind) = session_in_front(head)?;
    read_cases::read(stdout, session, behind, data)
}

pub(crate) fn write(stdout: Stdout, head: &[usize], data: &[u8]) -> Result<(), Malformed> {
    let (session, behind) = session_in_front(head)?;
    write_cases::write(stdout, session, behind, data)
}

pub(crate) fn view(stdout: Stdout, head: &[usize], data: &[u8]) -> Result<(), Malformed> {
    let (session, behind) = session_in_front(head)?;
    view_cases::view(stdout, session, behind, data)
}
