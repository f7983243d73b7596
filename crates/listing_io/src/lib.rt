// Writes a listing to standard output, for the programs that list. Whether the system takes what is written no promise can say.
#![tactic(auto)]

ghost use Rattle.std.specs.Prelude.{◌≡◌, length};
ghost use Rattle.refusal.specs.Report.{report_of, filled};
ghost use Rattle.listing.specs.Listing.{closing_line};
ghost use Rattle.listing.specs.Answers.{closing};
ghost use Rattle.listing_io.specs.Block.{ListsBlock};

mod failure;

pub use failure::fail;
use listing::State;
use refusal::Refusal;
use std::io;
use std::io::Stdout;

// What is said of a refusal: a listing is refused only where a lent buffer is too short.
fn too_short(_refusal: Refusal) -> io::Error {
    io::Error::from(io::ErrorKind::InvalidInput)
}

// Lists some input and writes its lines, as many at a time as out has room for. Answers the state behind it; the error of standard output; or
// InvalidInput, where a buffer is too short.
pub fn list_block(
    stdout: Stdout,
    state: State,
    input: &[u8],
    payload: &mut [u8],
    out: &mut [u8],
) -> io::Result<State>
    ensures { ListsBlock state input.now payload.old result payload.new }
{
    let mut state = state;
    let mut rest = input;
    while !rest.is_empty() {
        let progress = listing::list(state, rest, payload, out).map_err(too_short)?;
        stdout.write_all(&out[..progress.written])?;
        state = progress.state;
        rest = &rest[progress.taken..];
    }
    Ok(state)
}

// Writes the last line. Its errors are those of `list_block`.
pub fn write_last(stdout: Stdout, state: State, out: &mut [u8]) -> io::Result<()>
    ensures { out.new ≡ filled (report_of 0 (closing state (length out.old))) (closing_line state) out.old }
{
    let n = listing::close(state, out).map_err(too_short)?;
    stdout.write_all(&out[..n])
}
