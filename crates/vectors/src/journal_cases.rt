// Entries of a journal that are read and written.
use crate::lists::{BEHIND, MOST_PAYLOAD, MOST_ROOM};
use crate::malformed::Malformed;
use crate::text::{Form, MOST_VALUES};
use crate::{print, text};
use std::io::Stdout;

pub(crate) fn entry(stdout: Stdout, head: &[usize], data: &[u8]) -> Result<(), Malformed> {
    let [at] = *head else {
        return Err(Malformed);
    };
    let mut journal = [0; MOST_VALUES];
    let journal = text::values(&mut journal, data, Form::Octets)?;
    match journal::entry_at(journal, at) {
        Ok(Some(entry)) => {
            print::number(stdout, entry.ticks);
            print::number(stdout, entry.source);
            print::number(stdout, entry.start);
            print::number(stdout, entry.next);
        }
        Ok(None) => print::say(stdout, b" end"),
        Err(refusal) => print::refused(stdout, refusal),
    }
    Ok(())
}

pub(crate) fn write(stdout: Stdout, head: &[usize], data: &[u8]) -> Result<(), Malformed> {
    let [room, ticks, source] = *head else {
        return Err(Malformed);
    };
    if MOST_ROOM < room {
        return Err(Malformed);
    }
    let mut payload = [0; MOST_PAYLOAD];
    let payload = text::values(&mut payload, data, Form::Octets)?;
    let mut out = [0xee; MOST_ROOM + BEHIND];
    let answer = journal::write_entry(ticks as u64, source as u64, payload, &mut out[..room]);
    print::number_or_refused(stdout, answer);
    print::say(stdout, b";");
    print::octets(stdout, &out[..room + BEHIND]);
    Ok(())
}
