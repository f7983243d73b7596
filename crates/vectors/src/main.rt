// Reads cases, one to a line, and writes each with what the library answers. tests/vectors/README.md describes the lines. The
// file stdout beside src/ is made from tests/cases, which come from docs/FORMAT.md and not from this library.
//
// A line that starts with # is only written. Any other that is no case, or asks for more than there is here, is malformed.
#![tactic(auto)]

ghost use Rattle.std.specs.Prelude.{◌≤◌, length};

mod fields_cases;
mod journal_cases;
mod list_cases;
mod lists;
mod malformed;
mod print;
mod read_cases;
mod record_cases;
mod session_cases;
mod settings_cases;
mod text;
mod time_cases;
mod view_cases;
mod write_cases;

use malformed::Malformed;
use std::io::{Read, Stdin, Stdout};
use text::Form;
use wire::Session;

// The most numbers in front of a colon: those of a case to write, its room and 375 rows.
const MOST_NUMBERS: usize = 751;

// The most octets of the input.
const MOST_INPUT: usize = 65536;

// Runs a case by its name, the numbers in front of the colon and the text behind it. (All cases are lent these; a struct of them would have to be
// taken apart in each.)
fn run_case(stdout: Stdout, name: &[u8], head: &[usize], data: &[u8]) -> Result<(), Malformed> {
    match name {
        b"read" => read_cases::read(stdout, Session::NotAgreed, head, data),
        b"view" => view_cases::view(stdout, Session::NotAgreed, head, data),
        b"write" => write_cases::write(stdout, Session::NotAgreed, head, data),
        b"session_read" => session_cases::read(stdout, head, data),
        b"session_view" => session_cases::view(stdout, head, data),
        b"session_write" => session_cases::write(stdout, head, data),
        b"settings_read" => settings_cases::read(stdout, data),
        b"settings_write" => settings_cases::write(stdout, head, data),
        b"unpack" => fields_cases::unpack(stdout, head, data),
        b"pack" => fields_cases::pack(stdout, head, data),
        b"list" => list_cases::list(stdout, data),
        b"entry" => journal_cases::entry(stdout, head, data),
        b"entry_write" => journal_cases::write(stdout, head, data),
        b"record" => record_cases::record(stdout, head, data),
        _ => Err(Malformed),
    }
}

// A case that has no colon is a time.
fn run_line(stdout: Stdout, line: &[u8]) -> Result<(), Malformed> {
    let (front, behind) = text::cut(line, b":");
    let (name, numbers) = text::cut(front, b" ");
    let mut head = [0; MOST_NUMBERS];
    let head = text::values(&mut head, numbers, Form::Numbers)?;
    match behind {
        [_, data @ ..] => run_case(stdout, name, head, data),
        [] if name == b"time".as_slice() => time_cases::time(stdout, head),
        [] => Err(Malformed),
    }
}

// Octets behind the last end of a line are no line.
fn run_lines(stdout: Stdout, input: &[u8]) {
    for piece in input.split_inclusive(|octet| *octet == b'\n') {
        let [line @ .., b'\n'] = piece else {
            return;
        };
        print::say(stdout, line);
        if !line.starts_with(b"#") {
            print::say(stdout, b" ->");
            if run_line(stdout, line).is_err() {
                print::say(stdout, b" malformed");
            }
        }
        print::say(stdout, b"\n");
    }
}

// Fills in what the input gives, up to its end or to where it can't be read, and answers how many octets they are.
fn read_full(mut stdin: Stdin, input: &mut [u8]) -> usize
    ensures { result ≤ length input.new }
{
    let mut done = 0;
    while let Ok(n @ 1..) = stdin.read(&mut input[done..]) {
        done += n;
    }
    done
}

fn main(rt: HostRuntime) {
    let mut input = [0; MOST_INPUT];
    let n = read_full(rt.stdin(), &mut input);
    run_lines(rt.stdout(), &input[..n]);
}
