// Numbers in groups of seven bits, low group first, 128 meaning "more", shortest form (unsigned LEB128): one octet a step.
#![tactic(auto)]

ghost use Rattle.std.specs.Prelude.{◌≡◌, length};
ghost use Rattle.leb128.specs.Number.{Steps, Finds};
ghost use Rattle.leb128.specs.Writing.{octets_of, with_number, number_end};

use std::error::Error;
use std::fmt;

// How many groups a number has at most, where no limit says fewer: 63 bits.
const MOST_GROUPS: u8 = 9;

// What a number may be where it stands: it has at most so many groups, and never more than nine, and is at most the bound.
#[derive(Clone, Copy, Debug, PartialEq, Eq, Hash)]
pub struct Limits {
    pub groups: u8,
    pub bound: u64,
}

// What an octet makes of the groups before it: a value so far, which more groups follow; or the number.
#[derive(Clone, Copy, Debug, PartialEq, Eq, Hash)]
pub enum Group {
    More(u64),
    Last(u64),
}

// The octet behind so many groups, which came to the value; None where no number can stand there. (Groups and value go together here and in the
// listing's phase alone: a struct for the two would be no plainer.)
pub fn step(value: u64, groups: u8, octet: u8, limits: Limits) -> Option<Group>
    ensures { Steps limits.groups limits.bound value groups octet result }
{
    if MOST_GROUPS <= groups || limits.groups <= groups {
        return None;
    }
    let weight = 1u64 << (7 * groups);
    if weight <= value {
        return None;
    }
    let total = value + u64::from(octet % 128) * weight;
    if 128 <= octet {
        return (groups + 1 < limits.groups).then_some(Group::More(total));
    }
    // A 0 behind another group is not the shortest form.
    if octet == 0 && 0 < groups {
        return None;
    }
    (total <= limits.bound).then_some(Group::Last(total))
}

// Why no number was found.
#[derive(Clone, Copy, Debug, PartialEq, Eq, Hash)]
pub enum NumberError {
    // The octets end before the number does.
    Short,
    // No number begins so, whatever octets follow.
    Bad,
}

impl fmt::Display for NumberError {
    fn fmt<W: fmt::Write>(&self, f: &mut fmt::Formatter<W>) -> fmt::Result {
        f.write_str(match self {
            NumberError::Short => "number cut short",
            NumberError::Bad => "bad number",
        })
    }
}

impl Error for NumberError {}

// A number, and the index behind its octets.
#[derive(Clone, Copy, Debug, PartialEq, Eq, Hash)]
pub struct Found {
    pub number: u64,
    pub next: usize,
}

// The number at an index of some octets.
pub fn number_at(octets: &[u8], at: usize, limits: Limits) -> Result<Found, NumberError>
    ensures { Finds limits.groups limits.bound octets.now at result }
{
    if octets.len() < at {
        return Err(NumberError::Short);
    }
    let mut value = 0;
    // As many groups stand before an octet as its index says: nine at most, since `step` takes no more.
    for (groups, octet) in octets[at..].iter().enumerate() {
        match step(value, groups as u8, *octet, limits) {
            Some(Group::More(more)) => value = more,
            Some(Group::Last(number)) => {
                return Ok(Found {
                    number,
                    next: at + groups + 1,
                });
            }
            None => return Err(NumberError::Bad),
        }
    }
    Err(NumberError::Short)
}

// How many octets a number has.
pub fn size_of(n: u64) -> usize
    ensures { result ≡ length (octets_of n) }
{
    1 + n.max(1).ilog2() as usize / 7
}

// Puts a number's octets at an index and answers the index behind them. Where there is no room, the octets stay as they are and
// the answer is the index itself: a number has at least one octet. It can not fail, and its clause (`number_end`) says so.
pub fn put_number(n: u64, out: &mut [u8], at: usize) -> usize
    ensures { (out.new ≡ with_number out.old at n) × (result ≡ number_end out.old at n) }
{
    let size = size_of(n);
    if out.len() < at || out.len() - at < size {
        return at;
    }
    let last = at + size - 1;
    let mut rest = n;
    for octet in &mut out[at..last] {
        *octet = 128 + (rest % 128) as u8;
        rest /= 128;
    }
    out[last] = rest as u8;
    last + 1
}
