// Setting texts that are read and written.
use crate::lists::BEHIND;
use crate::malformed::Malformed;
use crate::text::Form;
use crate::{print, text};
use fmtp::Settings;
use std::io::Stdout;

// The most characters of a text, and the most room that is lent.
const MOST_CHARACTERS: usize = 100;

const MOST_OCTETS: usize = 40;

pub(crate) fn read(stdout: Stdout, data: &[u8]) -> Result<(), Malformed> {
    let mut characters = [0; MOST_CHARACTERS];
    match fmtp::read(text::characters(&mut characters, data)?) {
        Ok(settings) => {
            print::number(stdout, settings.first);
            print::number(stdout, settings.second);
            print::number(stdout, settings.third);
            print::number(stdout, settings.tcmax);
        }
        Err(refusal) => print::refused(stdout, refusal),
    }
    Ok(())
}

pub(crate) fn write(stdout: Stdout, head: &[usize], data: &[u8]) -> Result<(), Malformed> {
    let [room, ..] = *head else {
        return Err(Malformed);
    };
    if MOST_OCTETS < room {
        return Err(Malformed);
    }
    let mut numbers = [0; 4];
    let [first, second, third, tcmax] = *text::values(&mut numbers, data, Form::Numbers)? else {
        return Err(Malformed);
    };
    let settings = Settings {
        first,
        second,
        third,
        tcmax,
    };
    let mut out = [b'.'; MOST_OCTETS + BEHIND];
    print::number_or_refused(stdout, fmtp::write(settings, &mut out[..room]));
    print::say(stdout, b"; ");
    print::say(stdout, &out[..room + BEHIND]);
    Ok(())
}
