// The ptime of frames of a rate.
use crate::malformed::Malformed;
use crate::print;
use std::io::Stdout;

pub(crate) fn time(stdout: Stdout, head: &[usize]) -> Result<(), Malformed> {
    let [rate, frames] = *head else {
        return Err(Malformed);
    };
    let rate = u32::try_from(rate)?;
    let lasts = clock::ptime(rate, frames).map(|millis| millis.0);
    print::number_or_refused(stdout, lasts);
    Ok(())
}
