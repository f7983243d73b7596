// What is written of an answer, each part with a space in front of it.
use refusal::Refusal;
use std::fmt;
use std::io::Stdout;

// What the output doesn't take is left out.
pub(crate) fn say(stdout: Stdout, text: &[u8]) {
    let _ = stdout.write_all(text);
}

pub(crate) fn number(stdout: Stdout, n: impl fmt::Display + Drop) {
    let _ = print!(stdout; " {n}");
}

pub(crate) fn refused(stdout: Stdout, refusal: Refusal) {
    say(stdout, b" refused");
    number(stdout, u8::from(refusal.reason));
    number(stdout, refusal.place);
}

pub(crate) fn number_or_refused(stdout: Stdout, answer: Result<usize, Refusal>) {
    match answer {
        Ok(n) => number(stdout, n),
        Err(refusal) => refused(stdout, refusal),
    }
}

pub(crate) fn numbers(stdout: Stdout, list: &[u16]) {
    for n in list {
        number(stdout, *n);
    }
}

// Each run of equal octets is written once.
pub(crate) fn octets(stdout: Stdout, list: &[u8]) {
    for run in list.chunk_by(|a, b| a == b) {
        let _ = match run {
            [] => Ok(()),
            [octet] => print!(stdout; " {octet:02x}"),
            [octet, ..] => print!(stdout; " {octet:02x}*{}", run.len()),
        };
    }
}
