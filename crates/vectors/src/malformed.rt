// Why a line is not run.
use std::num::TryFromIntError;

// The line is no case, or asks for more than there is here.
#[derive(Clone, Copy, Debug, PartialEq, Eq)]
pub(crate) struct Malformed;

impl From<TryFromIntError> for Malformed {
    fn from(_: TryFromIntError) -> Malformed {
        Malformed
    }
}
