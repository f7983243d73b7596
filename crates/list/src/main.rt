// Lists recordings of payloads. Each file that an argument names is a recording of its own, and so is standard input, which `-` names and
// which is listed where no argument is given. Before each of several listings a line `==> FILE <==` names it. A file that cannot be opened
// or read is said on standard error, no last line follows, and the next one is listed. Where standard output takes no more, the run ends.
#![tactic(auto)]

use listing::Phase;
use std::env::FillError;
use std::io::{Read, Stderr, Stdout};
use std::rt::{Env, Files};
use std::{fs, io};

// The most octets of an argument.
const MOST_ARGUMENT: usize = 4096;

// The octets that are read at a time, and the most that are written at a time.
const MOST_OCTETS: usize = 65536;

// The system's numbers of three errors: an argument that is missing, one that is too long, and a name that is not UTF-8.
const EINVAL: i32 = 22;

const ENAMETOOLONG: i32 = 36;

const EILSEQ: i32 = 84;

// ---- a recording

// Where listings go, whether there is one only, and what is worked with. The error of a method is standard output's, which takes no more;
// what else fails is said, and the next recording is listed.
#[derive(Drop)]
struct Lister {
    stdout: Stdout,
    stderr: Stderr,
    is_one: bool,
    input: [u8; MOST_OCTETS],
    payload: [u8; wire::MOST_OCTETS],
    out: [u8; MOST_OCTETS],
}

impl Lister {
    // Names the recording that is listed next, where there are several.
    fn say_name(&self, name: &[u8]) -> io::Result<()> {
        if self.is_one {
            return Ok(());
        }
        self.stdout.write_all(b"==> ")?;
        self.stdout.write_all(name)?;
        self.stdout.write_all(b" <==\n")
    }

    // Lists the recording that an open file gives. Behind a bad length nothing is listed, so nothing more is read. A proved loop has to end,
    // and nothing says that an input does: so it counts its turns, up to a number that no run uses up.
    fn list<R: Read>(&mut self, name: &[u8], file: &mut R) -> io::Result<()> {
        self.say_name(name)?;
        let mut state = listing::start();
        for _ in 0..u64::MAX {
            let n = match file.read(&mut self.input) {
                Ok(0) => break,
                Ok(n) => n,
                Err(error) => {
                    listing_io::fail(self.stderr, name, &error);
                    return Ok(());
                }
            };
            state = listing_io::list_block(
                self.stdout,
                state,
                &self.input[..n],
                &mut self.payload,
                &mut self.out,
            )?;
            if state.phase == Phase::BadLength {
                break;
            }
        }
        listing_io::write_last(self.stdout, state, &mut self.out)
    }

    fn list_standard_input(&mut self, rt: &impl Input) -> io::Result<()> {
        self.list(b"standard input", &mut rt.reader())
    }

    fn list_file(&mut self, rt: &impl Files, name: &[u8]) -> io::Result<()> {
        match open(rt, name) {
            Ok(mut file) => self.list(name, &mut file),
            Err(error) => {
                listing_io::fail(self.stderr, name, &error);
                Ok(())
            }
        }
    }

    // Lists the recording that an argument names.
    fn list_argument(
        &mut self,
        rt: &(impl Env + Files + Input),
        argument: usize,
    ) -> io::Result<()> {
        let mut word = [0u8; MOST_ARGUMENT];
        let n = match rt.arg(argument, &mut word) {
            Ok(n) => n,
            Err(error) => {
                listing_io::fail(self.stderr, b"argument", &argument_error(error));
                return Ok(());
            }
        };
        match &word[..n] {
            b"-" => self.list_standard_input(rt),
            name => self.list_file(rt, name),
        }
    }
}

// Opens the file with a name. The standard library opens files by names in UTF-8 alone.
fn open<R: Files>(rt: &R, name: &[u8]) -> io::Result<R::File> {
    match str::from_utf8(name) {
        Ok(path) => fs::open(rt, path),
        Err(_) => Err(io::Error::from_raw_os_error(EILSEQ)),
    }
}

// Why an argument can't be had.
fn argument_error(error: FillError) -> io::Error {
    io::Error::from_raw_os_error(match error {
        FillError::NotPresent => EINVAL,
        FillError::TooLong => ENAMETOOLONG,
    })
}

// ---- options

// The octets of an argument that is an option: it begins with `--`.
fn option<'a>(rt: &impl Env, argument: usize, word: &'a mut [u8]) -> Option<&'a [u8]> {
    let n = rt.arg(argument, word).ok()?;
    let option = &word[..n];
    option.starts_with(b"--").then_some(option)
}

// Does what an option asks.
fn follow(stdout: Stdout, stderr: Stderr, option: &[u8]) -> io::Result<()> {
    match option {
        b"--help" => stdout.write_all(
            b"Usage: list [FILE]...
Lists the payloads of each FILE, a recording of payloads, each behind its length.
Without FILE, or where FILE is -, it lists standard input.
Before each of several listings a line ==> FILE <== names it.

  --help     says this, and lists nothing
  --version  says the version, and lists nothing
",
        ),
        b"--version" => stdout.write_all(b"list 0.1.0\n"),
        _ => {
            let _ = stderr.write_all(option);
            let _ = stderr.write_all(b": unknown option, see --help\n");
            Ok(())
        }
    }
}

// ---- the run

// How many arguments there are, the program's name among them.
fn count_arguments(rt: &impl Env) -> usize {
    (0..usize::MAX)
        .find(|i| matches!(rt.arg(*i, &mut []), Err(FillError::NotPresent)))
        .unwrap_or(usize::MAX)
}

// Does what the first option asks, if there is one; else lists the recordings that the arguments name, one after another. The error is
// standard output's.
fn run(rt: &(impl Env + Files + Input), stdout: Stdout, stderr: Stderr) -> io::Result<()> {
    let count = count_arguments(rt);
    let mut word = [0u8; MOST_ARGUMENT];
    for i in 1..count {
        if let Some(option) = option(rt, i, &mut word) {
            return follow(stdout, stderr, option);
        }
    }
    let mut lister = Lister {
        stdout,
        stderr,
        is_one: count <= 2,
        input: [0; MOST_OCTETS],
        payload: [0; wire::MOST_OCTETS],
        out: [0; MOST_OCTETS],
    };
    if count < 2 {
        return lister.list_standard_input(rt);
    }
    for i in 1..count {
        lister.list_argument(rt, i)?;
    }
    Ok(())
}

fn main(rt: HostRuntime) {
    let stderr = rt.stderr();
    if let Err(error) = run(&rt, rt.stdout(), stderr) {
        listing_io::fail(stderr, b"standard output", &error);
    }
}
