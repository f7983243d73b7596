// The values that a text gives: `00*6` is six zeros, `(00*6 40)*2` twice the same seven octets, `5.2 1.0` four numbers.
ghost use Rattle.std.specs.Prelude.{◌≤◌, ◌<◌, length, IfOk, IfSome};

use crate::malformed::Malformed;

// How a word gives values: as a decimal number, or as octets of two hexadecimal digits. (One match tells them apart, which is plainer than a closure
// in the generic function that asks.)
#[derive(Clone, Copy, Debug, PartialEq, Eq)]
pub(crate) enum Form {
    Numbers,
    Octets,
}

// The most values of a text.
pub(crate) const MOST_VALUES: usize = 4096;

// What may stand between words.
const MARKS: &[u8] = b" .()*";

// The text in front of the first of some octets, and what is left from there on.
pub(crate) fn cut<'a>(text: &'a [u8], ends: &[u8]) -> (&'a [u8], &'a [u8])
    ensures { length result.1.now ≤ length text.now }
{
    let end = text
        .iter()
        .position(|octet| ends.contains(octet))
        .unwrap_or(text.len());
    text.split_at(end)
}

// The number that decimal digits give, of none 0, where std's `parse` has an error.
fn number(digits: &[u8]) -> Option<usize> {
    let mut value: usize = 0;
    for digit in digits {
        let digit = char::from(*digit).to_digit(10)?;
        value = value.checked_mul(10)?.checked_add(digit as usize)?;
    }
    Some(value)
}

// The octet that two hexadecimal digits give.
fn octet(high: u8, low: u8) -> Option<u8> {
    let high = char::from(high).to_digit(16)?;
    let low = char::from(low).to_digit(16)?;
    Some((high * 16 + low) as u8)
}

// ---- values

// Values that fill a list up from its front: how many there are, how many of the last ones a `*` repeats, and how many stand in front
// of the last `(`.
#[derive(Drop)]
struct Filled<'a, T> {
    list: &'a mut [T],
    count: usize,
    last: usize,
    group: usize,
    ghost in_list: { count ≤ length list.now },
    ghost last_are_there: { last ≤ count },
    ghost group_is_there: { group ≤ count },
}

impl<'a, T: Copy> Filled<'a, T> {
    fn new(list: &'a mut [T]) -> Self {
        Filled {
            list,
            count: 0,
            last: 0,
            group: 0,
        }
    }

    fn push(&mut self, value: T) -> Result<(), Malformed> {
        *self.list.get_mut(self.count).ok_or(Malformed)? = value;
        self.count += 1;
        self.last = 1;
        Ok(())
    }

    // The last values, until they stand there so many times; where that is none, they stay.
    fn repeat(&mut self, times: usize) -> Result<(), Malformed> {
        let more = self
            .last
            .checked_mul(times.saturating_sub(1))
            .ok_or(Malformed)?;
        let end = self.count.checked_add(more).ok_or(Malformed)?;
        let list = self.list.get_mut(..end).ok_or(Malformed)?;
        for to in self.count..end {
            list[to] = list[to - self.last];
        }
        self.count = end;
        Ok(())
    }

    fn open_group(&mut self) {
        self.group = self.count;
        self.last = 0;
    }

    fn close_group(&mut self) {
        self.last = self.count - self.group;
    }

    fn values(self) -> &'a [T] {
        let Filled { list, count, .. } = self;
        &list[..count]
    }
}

impl<'a, T: Copy + TryFrom<usize>> Filled<'a, T>
where
    T::Error: Drop,
{
    fn push_number(&mut self, number: usize) -> Result<(), Malformed> {
        self.push(T::try_from(number).map_err(|_| Malformed)?)
    }

    fn push_octets(&mut self, word: &[u8]) -> Result<(), Malformed> {
        let (pairs, []) = word.as_chunks::<2>() else {
            return Err(Malformed);
        };
        for [high, low] in pairs {
            let octet = octet(*high, *low).ok_or(Malformed)?;
            self.push_number(usize::from(octet))?;
        }
        Ok(())
    }

    fn push_word(&mut self, word: &[u8], form: Form) -> Result<(), Malformed> {
        match form {
            Form::Numbers => self.push_number(number(word).ok_or(Malformed)?),
            Form::Octets => self.push_octets(word),
        }
    }
}

// Fills in the values that a text gives, and answers them.
pub(crate) fn values<'a, T: Copy + TryFrom<usize>>(
    list: &'a mut [T],
    text: &[u8],
    form: Form,
) -> Result<&'a [T], Malformed>
where
    T::Error: Drop,
{
    let mut filled = Filled::new(list);
    let mut rest = text;
    loop {
        let (word, behind) = cut(rest, MARKS);
        if !word.is_empty() {
            filled.push_word(word, form)?;
        }
        let [mark, behind @ ..] = behind else {
            return Ok(filled.values());
        };
        rest = behind;
        match mark {
            b'(' => filled.open_group(),
            b')' => filled.close_group(),
            b'*' => {
                let (times, behind) = cut(rest, MARKS);
                filled.repeat(number(times).ok_or(Malformed)?)?;
                rest = behind;
            }
            _ => {}
        }
    }
}

// ---- characters

// The next digit of a character that is written as its octet, and the text behind it. Each `x` in front of it is skipped.
fn escaped_digit(text: &[u8]) -> Option<(u8, &[u8])>
    ensures { IfSome result (λ r. length r.1.now ≤ length text.now) }
{
    let at = text.iter().position(|octet| *octet != b'x')?;
    Some((text[at], &text[at + 1..]))
}

// The character that stands behind a `\`, and the text behind it.
fn escaped(text: &[u8]) -> Option<(u8, &[u8])>
    ensures { IfSome result (λ r. length r.1.now ≤ length text.now) }
{
    let (high, text) = escaped_digit(text)?;
    let (low, text) = escaped_digit(text)?;
    Some((octet(high, low)?, text))
}

// Fills in the characters of a text without its spaces, and answers them. One may be written as `\x` and two hexadecimal digits.
pub(crate) fn characters<'a>(list: &'a mut [u8], text: &[u8]) -> Result<&'a [u8], Malformed> {
    let mut filled = Filled::new(list);
    let mut rest = text;
    while let [first, behind @ ..] = rest {
        rest = behind;
        let character = match first {
            b' ' => continue,
            b'\\' => {
                let (character, behind) = escaped(rest).ok_or(Malformed)?;
                rest = behind;
                character
            }
            _ => *first,
        };
        filled.push(character)?;
    }
    Ok(filled.values())
}
