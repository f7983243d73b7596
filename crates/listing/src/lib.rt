// The listing: payloads in, each behind its length; a line each out. An input is taken in parts, cut anywhere. A state and the octets of a payload
// that is not whole yet, in a buffer that the caller lends, are carried from one part to the next.
#![tactic(auto)]

ghost use Rattle.std.specs.Prelude.{◌≡◌, [], ◌∷◌, ◌+◌, ◌≤◌, ◌<◌, length};
ghost use Rattle.listing.specs.Line.{decimal, numbered, line_with, payload_line, last_line};
ghost use Rattle.listing.specs.Listing.{within, is_in_payload, is_whole, fresh};
ghost use Rattle.listing.specs.Answers.{ListsPart, Closes};
ghost use Rattle.listing.specs.Steps.{Stored, stage_of, Ready, Reaches, Advances};

use leb128::{Group, Limits};
use refusal::{Reason, Refusal};
use wire::{Framing, MOST_OCTETS};

// The length of a payload.
const LENGTH: Limits = Limits {
    groups: 2,
    bound: MOST_OCTETS as u64,
};

// The room that any payload line has, and any last line.
const LINE_ROOM: usize = 71;

const LAST_LINE_ROOM: usize = 25;

// Where in the input: in a length, behind groups that came to a value; in a payload, with `left` octets to come behind the first `have`, which
// the payload's buffer holds; behind a bad length, where nothing is listed any more.
#[derive(Clone, Copy, Debug, PartialEq, Eq, Hash)]
pub enum Phase {
    Length { value: u64, groups: u8 },
    Payload { left: usize, have: usize },
    BadLength,
}

// Before a length.
const BEFORE_LENGTH: Phase = Phase::Length {
    value: 0,
    groups: 0,
};

// What is carried from one part of the input to the next: the payload lines so far, and where the part ended.
#[derive(Clone, Copy, Debug, PartialEq, Eq, Hash)]
pub struct State {
    pub lines: u64,
    pub phase: Phase,
}

// What a call did: the next state, the octets of input taken, and of output written.
#[derive(Clone, Copy, Debug, PartialEq, Eq, Hash)]
pub struct Progress {
    pub state: State,
    pub taken: usize,
    pub written: usize,
}

// ---- lines

// Each function answers the index behind what it stored, for the next one. (In a struct, beside the buffer, `put_decimal` would load and store
// the index for each digit, which takes a fourth longer.)

// Stores a word at an index of out, and answers the index behind it.
fn put_word(out: &mut [u8], at: usize, word: &[u8]) -> usize
    requires { at + length word.now ≤ length out.old }
    ensures { Stored out.old at word.now out.new result }
{
    let end = at + word.len();
    out[at..end].copy_from_slice(word);
    end
}

// Stores a digit at an index of out, and answers the index behind it.
fn put_digit(out: &mut [u8], at: usize, digit: u64) -> usize
    requires { (at < length out.old) × (digit < 10) }
    ensures { Stored out.old at ((48 + digit) ∷ []) out.new result }
{
    out[at] = b'0' + digit as u8;
    at + 1
}

// Stores the digits of a number, no leading zero, at an index of out, and answers the index behind them. (`write!` would do, but its contract
// does not say when it succeeds, so nothing could be promised of a line.)
fn put_decimal(out: &mut [u8], at: usize, n: u64) -> usize
    requires { at + 20 ≤ length out.old }
    ensures { Stored out.old at (decimal n) out.new result }
{
    if n < 10 {
        return put_digit(out, at, n);
    }
    let end = put_decimal(out, at, n / 10);
    put_digit(out, end, n % 10)
}

// Stores a word and a number at an index of out, and answers the index behind them.
fn put_numbered(out: &mut [u8], at: usize, word: &[u8], n: u64) -> usize
    requires { at + (length word.now + 20) ≤ length out.old }
    ensures { Stored out.old at (numbered word.now n) out.new result }
{
    let number = put_word(out, at, word);
    put_decimal(out, number, n)
}

// Stores a payload line at an index of out, and answers the index behind it.
fn put_line(out: &mut [u8], at: usize, n: u64, word: &[u8], a: u64, b: u64) -> usize
    requires { (at + LINE_ROOM ≤ length out.old) × (length word.now ≤ 9) }
    ensures { Stored out.old at (line_with n word.now a b) out.new result }
{
    let first = put_decimal(out, at, n);
    let second = put_numbered(out, first, word, a);
    let end = put_numbered(out, second, b" ", b);
    put_word(out, end, b"\n")
}

// Stores the line of the payload with the number n at an index of out, and answers the index behind it. It is read as framing not agreed.
fn put_payload_line(out: &mut [u8], at: usize, n: u64, payload: &[u8]) -> usize
    requires { at + LINE_ROOM ≤ length out.old }
    ensures { Stored out.old at (payload_line n payload.now) out.new result }
{
    match wire::walk(Framing::Unframed, payload) {
        Ok(summary) => {
            let ticks = clock::ticks_of(summary);
            put_line(out, at, n, b" ok ", summary.frames as u64, ticks.0 as u64)
        }
        Err(refusal) => put_line(
            out,
            at,
            n,
            b" refused ",
            u64::from(u8::from(refusal.reason)),
            refusal.place as u64,
        ),
    }
}

// Stores a last line at the start of out, and answers its octets.
fn put_last_line(out: &mut [u8], word: &[u8], n: u64) -> usize
    requires { (LAST_LINE_ROOM ≤ length out.old) × (length word.now ≤ 4) }
    ensures { Stored out.old 0 (last_line word.now n) out.new result }
{
    let end = put_numbered(out, 0, word, n);
    put_word(out, end, b"\n")
}

// ---- a part of the input

// A call of `list` as it goes on: the state, the octets of input taken and of output written so far, and the buffers of both. (That for a payload
// stays beside it: the checker makes no proof yet of a call that is lent two fields of one struct.)
#[derive(Drop)]
struct Call<'i, 'o> {
    state: State,
    taken: usize,
    written: usize,
    input: &'i [u8],
    out: &'o mut [u8],
}

impl Call<'_, '_> {
    // Goes on in a payload with `left` octets to come behind the first `have`. With none to come it is whole, and its line is written. (The two are
    // what `Phase::Payload` holds: a match binds them, and a struct for them would be no plainer.)
    fn in_payload(&mut self, left: usize, have: usize, payload: &[u8])
        requires { (self.old.written + LINE_ROOM ≤ length self.old.out.now) × (have ≤ length payload.now) }
        ensures { Reaches self.old (within (stage_of self.old payload.now) self.old.taken left have payload.now) self.new payload.now }
    {
        if 0 < left {
            self.state.phase = Phase::Payload { left, have };
            return;
        }
        let lines = self.state.lines.saturating_add(1);
        let at = self.written;
        self.written = put_payload_line(self.out, at, lines, &payload[..have]);
        self.state = State {
            lines,
            phase: BEFORE_LENGTH,
        };
    }

    // Takes an octet of a length.
    fn take_length_octet(&mut self, value: u64, groups: u8, payload: &[u8])
        requires { Ready self.old payload.now × (self.old.state.phase ≡ Phase.Length value groups) }
        ensures { Advances self.old payload.now self.new payload.now }
    {
        let octet = self.input[self.taken];
        self.taken += 1;
        match leb128::step(value, groups, octet, LENGTH) {
            Some(Group::More(value)) => {
                self.state.phase = Phase::Length {
                    value,
                    groups: groups + 1,
                }
            }
            Some(Group::Last(count)) => self.in_payload(count as usize, 0, payload),
            None => self.state.phase = Phase::BadLength,
        }
    }

    // Takes octets of a payload: all that are to come, as far as the input has them.
    fn take_payload_octets(&mut self, left: usize, have: usize, payload: &mut [u8])
        requires { Ready self.old payload.old × (self.old.state.phase ≡ Phase.Payload left have) × (1 ≤ left) × (have + left ≤ MOST_OCTETS) }
        ensures { Advances self.old payload.old self.new payload.new }
    {
        let unread = &self.input[self.taken..];
        let count = left.min(unread.len());
        octets::copy(&unread[..count], &mut payload[have..have + count]);
        self.taken += count;
        self.in_payload(left - count, have + count, payload);
    }

    // Takes some octets of the input: one of a length, those that there are of a payload, or, behind a bad length, all.
    fn take_some(&mut self, payload: &mut [u8])
        requires { Ready self.old payload.old }
        ensures { Advances self.old payload.old self.new payload.new }
    {
        match self.state.phase {
            Phase::Length { value, groups } => self.take_length_octet(value, groups, payload),
            Phase::Payload { left, have } if is_in_payload(left, have) => {
                self.take_payload_octets(left, have, payload)
            }
            _ => {
                self.taken = self.input.len();
                self.state.phase = Phase::BadLength;
            }
        }
    }
}

// Whether octets are to come and the payload's buffer holds them and those that came.
fn is_in_payload(left: usize, have: usize) -> bool
    ensures { result ≡ is_in_payload left have }
{
    0 < left && left <= MOST_OCTETS && have <= MOST_OCTETS - left
}

// The state before any input.
pub fn start() -> State
    ensures { result ≡ fresh }
{
    State {
        lines: 0,
        phase: BEFORE_LENGTH,
    }
}

// Lists a part of the input: takes octets of it and writes their lines to the front of out, as long as any line has room there. What it does
// not take is the start of the next part. The buffer for a payload, of at least 1,400 octets, is lent to each call as the call before left it.
pub fn list(
    state: State,
    input: &[u8],
    payload: &mut [u8],
    out: &mut [u8],
) -> Result<Progress, Refusal>
    ensures { ListsPart state input.now payload.old out.old result payload.new out.new }
{
    if payload.len() < MOST_OCTETS {
        return Err(Reason::OctetsTooShort.at(MOST_OCTETS));
    }
    if out.len() < LINE_ROOM {
        return Err(Reason::OctetsTooShort.at(LINE_ROOM));
    }
    let mut call = Call {
        state,
        taken: 0,
        written: 0,
        input,
        out,
    };
    while call.taken < call.input.len() && LINE_ROOM <= call.out.len() - call.written {
        call.take_some(payload);
    }
    Ok(Progress {
        state: call.state,
        taken: call.taken,
        written: call.written,
    })
}

// ---- the last line

// An input that ends in this phase is whole: it ends before a length.
fn is_whole(phase: Phase) -> bool
    ensures { result ≡ is_whole phase }
{
    matches!(phase, Phase::Length { groups: 0, .. })
}

// Writes the last line, behind all of the input, to the front of out.
pub fn close(state: State, out: &mut [u8]) -> Result<usize, Refusal>
    ensures { Closes state out.old result out.new }
{
    let word = if is_whole(state.phase) {
        b"end "
    } else {
        b"cut "
    };
    let mut line = [0u8; LAST_LINE_ROOM];
    let n = put_last_line(&mut line, word, state.lines);
    if out.len() < n {
        return Err(Reason::OctetsTooShort.at(n));
    }
    out[..n].copy_from_slice(&line[..n]);
    Ok(n)
}
