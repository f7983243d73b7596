// 600 bps bodies whose fields are unpacked, and fields that are packed.
use crate::malformed::Malformed;
use crate::text::Form;
use crate::{print, text};
use std::io::Stdout;

// The most octets and the most fields, given or lent.
const MOST_OCTETS: usize = 8;

const MOST_FIELDS: usize = 12;

pub(crate) fn unpack(stdout: Stdout, head: &[usize], data: &[u8]) -> Result<(), Malformed> {
    let [mode, room, ..] = *head else {
        return Err(Malformed);
    };
    let mode = u8::try_from(mode)?;
    let mut body = [0; MOST_OCTETS];
    let body = text::values(&mut body, data, Form::Octets)?;
    let mut numbers = [999; MOST_FIELDS];
    let numbers = numbers.get_mut(..room).ok_or(Malformed)?;
    print::number_or_refused(stdout, fields::unpack(mode, body, numbers));
    print::say(stdout, b";");
    print::numbers(stdout, numbers);
    Ok(())
}

pub(crate) fn pack(stdout: Stdout, head: &[usize], data: &[u8]) -> Result<(), Malformed> {
    let [mode, room, ..] = *head else {
        return Err(Malformed);
    };
    let mode = u8::try_from(mode)?;
    let mut numbers = [0; MOST_FIELDS];
    let numbers = text::values(&mut numbers, data, Form::Numbers)?;
    let mut body = [0xee; MOST_OCTETS];
    let body = body.get_mut(..room).ok_or(Malformed)?;
    print::number_or_refused(stdout, fields::pack(mode, numbers, body));
    print::say(stdout, b";");
    print::octets(stdout, body);
    Ok(())
}
