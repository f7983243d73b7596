// Lists of another type, and the sizes of some that several cases lend.
use crate::malformed::Malformed;

// The most octets of a payload, and of the bodies of one.
pub(crate) const MOST_PAYLOAD: usize = 1500;

// The most octets of room that is lent for a payload, an entry or bodies.
pub(crate) const MOST_ROOM: usize = 1410;

// The octets that are shown behind the room lent.
pub(crate) const BEHIND: usize = 10;

// Fills in what values are in a list's type, and answers them.
pub(crate) fn converted<'a, S: Copy, T: TryFrom<S> + Drop>(
    list: &'a mut [T],
    values: &[S],
) -> Result<&'a [T], Malformed>
where
    T::Error: Drop,
{
    let list = list.get_mut(..values.len()).ok_or(Malformed)?;
    for (place, value) in list.iter_mut().zip(values) {
        *place = T::try_from(*value).map_err(|_| Malformed)?;
    }
    Ok(list)
}
