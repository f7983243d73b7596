// The packet record: rows, each row's start on the wire, and the octets and ticks of them all, kept while rows are taken, dropped and
// replaced, so that none is added up when it is asked for.
#![tactic(auto)]

ghost use Rattle.std.specs.Prelude.{◌≡◌, List, [], ◌∷◌, ◌++◌, ◌-◌, ◌≤◌, ◌<◌, length};
ghost use Rattle.wire.specs.Frame.{kind_of, sum_of, ticks, wire_octets};
ghost use Rattle.clock.specs.Time.{ticks_in};
ghost use Rattle.writer.specs.Promise.{Checks};
ghost use Rattle.record.specs.Afresh.{record_of};
ghost use Rattle.record.specs.Operations.{to_push, to_pop, to_replace};
ghost use Rattle.record.specs.Promise.{Changes, Asked, row_held, row_in, start_held, start_in};
ghost use Rattle.record.specs.Stages.{Within, with_row, without_last, ticks_if, end_numbers, among_all, Behind, Holds, Afresh};

use clock::Ticks;
use refusal::{Reason, Refusal};
use wire::{Framing, Kind, MOST_FRAMES, MOST_OCTETS, Row};
use writer::Totals;

// What the most frames of a packet last at most.
const MOST_TICKS: u32 = 144000;

// A packet's rows: kind and TC of each, as rows are lent; where each starts on the wire; how many there are; the octets and the ticks of
// them all. Unused places are 0. Arrays with a count beside them, since the C interface holds this layout (include/moult.h).
#[repr(C)]
#[derive(Clone, Copy, Debug, PartialEq, Eq)]
pub struct Record {
    pub numbers: [u16; 400],
    pub starts: [u16; 200],
    pub rows: usize,
    pub octets: usize,
    pub ticks: u32,
}

// A row's two numbers.
#[derive(Clone, Copy, Debug, PartialEq, Eq, Hash)]
pub struct RowNumbers {
    pub kind: u16,
    pub tc: u16,
}

impl Record {
    // The record of no rows.
    #[tactic(auto, unfolding(crate::specs::Afresh::record_of, crate::specs::Afresh::padded))]
    pub fn empty() -> Record
        ensures { result ≡ record_of [] }
    {
        Record {
            numbers: [0; 400],
            starts: [0; 200],
            rows: 0,
            octets: 0,
            ticks: 0,
        }
    }

    // ---- a row at the end

    // Takes a row at the end. (No record that operations made has more octets or ticks than are tested here.)
    pub fn push(&mut self, kind: u16, tc: u16) -> Result<(), Refusal>
        ensures { Changes (to_push kind tc) self.old result self.new }
    {
        if MOST_FRAMES <= self.rows || MOST_OCTETS < self.octets || MOST_TICKS < self.ticks {
            return Err(Reason::TooLong.at(MOST_OCTETS));
        }
        let row = self.row_behind(kind, tc)?;
        self.append(row);
        Ok(())
    }

    // The row of these two numbers behind the others; or the writer's refusal of all rows then.
    fn row_behind(&self, kind: u16, tc: u16) -> Result<Row, Refusal>
        requires { Within self.now }
        ensures { Behind self.now kind tc result }
    {
        self.check_end(kind, tc)
            .map_err(|refusal| self.among_all(refusal))?;
        let kind = Kind::try_from(kind).map_err(|reason| reason.at(0))?;
        let row = Row { kind, tc };
        if MOST_OCTETS < self.octets + wire::shape_of(Framing::Unframed, row).wire {
            return Err(Reason::TooLong.at(MOST_OCTETS));
        }
        Ok(row)
    }

    // The writer's checks of these two numbers behind the last row, or of them alone where there is none. They take no pass over the other
    // rows: where those are in order, the last one shows what may stand behind them.
    #[tactic(auto, unfolding(crate::specs::Stages::end_numbers))]
    fn check_end(&self, kind: u16, tc: u16) -> Result<Totals, Refusal>
        requires { self.now.rows ≤ 200 }
        ensures { Checks (end_numbers self.now ++ (kind ∷ tc ∷ [])) result }
    {
        if self.rows == 0 {
            return writer::check_rows(&[kind, tc]);
        }
        let last = 2 * (self.rows - 1);
        writer::check_rows(&[self.numbers[last], self.numbers[last + 1], kind, tc])
    }

    // A refusal of these checks, with the row that it names counted among all rows.
    fn among_all(&self, refusal: Refusal) -> Refusal
        ensures { result ≡ among_all self.now refusal }
    {
        let place = if refusal.place == 0 {
            self.rows.saturating_sub(1)
        } else {
            self.rows
        };
        refusal.reason.at(place)
    }

    // Puts this row behind the others.
    fn append(&mut self, row: Row)
        requires { Within self.old }
        ensures { self.new ≡ with_row self.old row }
    {
        let shape = wire::shape_of(Framing::Unframed, row);
        self.numbers[2 * self.rows] = shape.entry.number;
        self.numbers[2 * self.rows + 1] = row.tc;
        self.starts[self.rows] = self.octets as u16;
        self.rows += 1;
        self.octets += shape.wire;
        self.ticks += wire::ticks_of_rate(shape.entry.rate);
    }

    // ---- the last row dropped

    // Drops the last row.
    pub fn pop(&mut self) -> Result<(), Refusal>
        ensures { Changes to_pop self.old result self.new }
    {
        if self.rows == 0 {
            return Err(Reason::Unknown.at(0));
        }
        if MOST_FRAMES < self.rows {
            return Err(Reason::TooLong.at(MOST_OCTETS));
        }
        self.drop_last();
        Ok(())
    }

    // Takes the last row off.
    fn drop_last(&mut self)
        requires { (0 < self.old.rows) × (self.old.rows ≤ 200) }
        ensures { self.new ≡ without_last self.old (self.old.rows - 1) }
    {
        self.rows -= 1;
        let last = self.rows;
        self.octets = usize::from(self.starts[last]);
        let ticks = ticks_of_kind(self.numbers[2 * last]);
        self.ticks = self.ticks.saturating_sub(ticks);
        self.numbers[2 * last] = 0;
        self.numbers[2 * last + 1] = 0;
        self.starts[last] = 0;
    }

    // ---- a row replaced

    // Replaces a row.
    pub fn replace(&mut self, row: usize, kind: u16, tc: u16) -> Result<(), Refusal>
        ensures { Changes (to_replace row kind tc) self.old result self.new }
    {
        if self.rows <= row {
            return Err(Reason::Unknown.at(0));
        }
        if MOST_FRAMES < self.rows {
            return Err(Reason::TooLong.at(MOST_OCTETS));
        }
        let mut numbers = self.numbers;
        numbers[2 * row] = kind;
        numbers[2 * row + 1] = tc;
        let numbers = &numbers[..2 * self.rows];
        writer::check_rows(numbers)?;
        *self = Record::afresh(numbers);
        Ok(())
    }

    // The record of the rows that these numbers hold, which are in order, so that each is of a known kind.
    fn afresh(numbers: &[u16]) -> Record
        requires { (xs : List Row) × Holds numbers.now xs }
        ensures { Afresh numbers.now result }
    {
        let mut made = Record::empty();
        for pair in numbers.chunks_exact(2) {
            let kind = Kind::try_from(pair[0]).unwrap();
            made.append(Row { kind, tc: pair[1] });
        }
        made
    }
}

// What is asked of a record.
#[tactic(auto, unfolding(crate::specs::Afresh::record_of))]
impl Record {
    // How many rows there are.
    pub fn rows(&self) -> usize
        ensures { Asked (λ (p : Record). p.rows) length self.now result }
    {
        self.rows
    }

    // Their octets on the wire.
    pub fn octets(&self) -> usize
        ensures { Asked (λ (p : Record). p.octets) (sum_of wire_octets) self.now result }
    {
        self.octets
    }

    // Their ticks.
    pub fn ticks(&self) -> Ticks
        ensures { Asked (λ (p : Record). ticks_in p.ticks) (λ (xs : List Row). ticks_in (sum_of ticks xs)) self.now result }
    {
        Ticks(self.ticks as usize)
    }

    // The row at an index, or 12 where it is missing. (`start` asks the same: a method for the test would answer no more than the test.)
    pub fn row(&self, i: usize) -> Result<RowNumbers, Refusal>
        ensures { Asked (row_held i) (row_in i) self.now result }
    {
        if self.rows <= i || MOST_FRAMES <= i {
            return Err(Reason::Unknown.at(0));
        }
        Ok(RowNumbers {
            kind: self.numbers[2 * i],
            tc: self.numbers[2 * i + 1],
        })
    }

    // Where the row at an index starts on the wire, or 12 where it is missing.
    pub fn start(&self, i: usize) -> Result<usize, Refusal>
        ensures { Asked (start_held i) (start_in i) self.now result }
    {
        if self.rows <= i || MOST_FRAMES <= i {
            return Err(Reason::Unknown.at(0));
        }
        Ok(usize::from(self.starts[i]))
    }
}

// The ticks of a row of this kind; 0 of a number that is none.
#[tactic(auto, unfolding(crate::specs::Stages::ticks_if))]
fn ticks_of_kind(number: u16) -> u32
    ensures { result ≡ ticks_if (kind_of number) }
{
    Kind::try_from(number).map_or(0, |kind| wire::ticks_of_rate(wire::entry_of(kind).rate))
}
