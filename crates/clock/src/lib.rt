// Time: ticks of 1/8000 second on the clock, milliseconds in settings. The two are types of their own and never mix.
#![tactic(auto)]

ghost use Rattle.std.specs.Prelude.{◌≡◌};
ghost use Rattle.clock.specs.Time.{ticks_in, PacketTime, Ptime};

use refusal::{Reason, Refusal};
use wire::{Framing, MOST_FRAMES, Session, Summary};

// Ticks of 1/8000 second.
#[derive(Clone, Copy, Debug, PartialEq, Eq, PartialOrd, Ord, Hash)]
pub struct Ticks(pub usize);

// Milliseconds.
#[derive(Clone, Copy, Debug, PartialEq, Eq, PartialOrd, Ord, Hash)]
pub struct Millis(pub usize);

// The ticks of what a payload holds.
pub fn ticks_of(summary: Summary) -> Ticks
    ensures { result ≡ ticks_in summary.ticks }
{
    Ticks(summary.ticks as usize)
}

// What a packet lasts in a session, or why its payload was refused: never 0 ticks for a payload that could not be split. A rate that no
// session has is refused before all else.
pub fn packet_ticks(session: Session, payload: &[u8]) -> Result<Ticks, Refusal>
    ensures { PacketTime session payload.now result }
{
    let framing = Framing::try_from(session)?;
    let summary = wire::walk(framing, payload)?;
    Ok(ticks_of(summary))
}

// The packet time of a number of frames at a rate, in whole milliseconds, rounded up.
#[tactic(auto, using(crate::proofs::Times::rates_last), unfolding(crate::specs::Time::ptime_of))]
pub fn ptime(rate: u32, frames: usize) -> Result<Millis, Refusal>
    ensures { Ptime rate frames result }
{
    let ticks = wire::ticks_of_rate(rate) as usize;
    if ticks == 0 || frames == 0 || MOST_FRAMES < frames {
        return Err(Reason::Unknown.at(0));
    }
    Ok(Millis((frames * ticks).div_ceil(8)))
}
