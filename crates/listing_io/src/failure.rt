// What is said of a failure.
use std::io::{Cursor, Error, Stderr, Write};

// Room for an error's text.
const MOST_OCTETS: usize = 128;

// The system's text for an error. The library writes the error's number behind it: `No such file or directory (os error 2)`.
fn reason(text: &[u8]) -> &[u8] {
    str::from_utf8(text)
        .ok()
        .and_then(|words| words.rsplit_once(" (os error "))
        .map_or(text, |(front, _)| front.as_bytes())
}

// Writes a line to standard error: what failed, as the caller names it, a colon and the system's text for the error.
pub fn fail(stderr: Stderr, what: &[u8], error: &Error) {
    let mut text = Cursor::new([0u8; MOST_OCTETS]);
    let _ = write!(text, "{error}");
    let end = MOST_OCTETS.min(text.position() as usize);
    let octets = text.into_inner();
    let _ = stderr.write_all(what);
    let _ = stderr.write_all(b": ");
    let _ = stderr.write_all(reason(&octets[..end]));
    let _ = stderr.write_all(b"\n");
}
