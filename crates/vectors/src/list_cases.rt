// Inputs that are listed, in parts.
use crate::malformed::Malformed;
use crate::text::{Form, MOST_VALUES};
use crate::{print, text};
use listing::State;
use std::io::Stdout;

// Room for one line: with more, the recorded cases would come in other parts.
const LINE_ROOM: usize = 71;

// Writes a line without its end.
fn say_line(stdout: Stdout, line: &[u8]) {
    print::say(stdout, b" ");
    if let [line @ .., _] = line {
        print::say(stdout, line);
    }
}

// The parts have 1 to 16 octets, told by where they begin, which is why an index counts them. None is refused: the buffers are large enough.
fn list_parts(stdout: Stdout, input: &[u8], payload: &mut [u8], out: &mut [u8]) -> State {
    let mut state = listing::start();
    let mut from = 0;
    while from < input.len() {
        let end = input.len().min(from + 1 + from % 16);
        let Ok(progress) = listing::list(state, &input[from..end], payload, out) else {
            return state;
        };
        if 0 < progress.written {
            say_line(stdout, &out[..progress.written]);
            print::say(stdout, b";");
        }
        state = progress.state;
        from += progress.taken;
    }
    state
}

pub(crate) fn list(stdout: Stdout, data: &[u8]) -> Result<(), Malformed> {
    let mut input = [0; MOST_VALUES];
    let input = text::values(&mut input, data, Form::Octets)?;
    let mut payload = [0; wire::MOST_OCTETS];
    let mut out = [0; LINE_ROOM];
    let state = list_parts(stdout, input, &mut payload, &mut out);
    match listing::close(state, &mut out) {
        Ok(n) => say_line(stdout, &out[..n]),
        Err(refusal) => print::refused(stdout, refusal),
    }
    Ok(())
}
