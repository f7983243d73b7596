// Packet records behind a run of operations.
use crate::malformed::Malformed;
use crate::text::{Form, MOST_VALUES};
use crate::{lists, print, text};
use record::Record;
use refusal::Refusal;
use std::io::Stdout;

// What an operation does: takes a row at the end, drops the last, or replaces one.
#[derive(Clone, Copy, Debug, PartialEq, Eq)]
enum Operation {
    Push { kind: u16, tc: u16 },
    Pop,
    Replace { row: usize, kind: u16, tc: u16 },
}

// Four numbers: what it does, a row, a kind and a TC.
impl TryFrom<[usize; 4]> for Operation {
    type Error = Malformed;

    fn try_from([what, row, kind, tc]: [usize; 4]) -> Result<Operation, Malformed> {
        let kind = u16::try_from(kind)?;
        let tc = u16::try_from(tc)?;
        match what {
            1 => Ok(Operation::Push { kind, tc }),
            2 => Ok(Operation::Pop),
            3 => Ok(Operation::Replace { row, kind, tc }),
            _ => Err(Malformed),
        }
    }
}

fn operate(packet: &mut Record, operation: Operation) -> Result<(), Refusal> {
    match operation {
        Operation::Push { kind, tc } => packet.push(kind, tc),
        Operation::Pop => packet.pop(),
        Operation::Replace { row, kind, tc } => packet.replace(row, kind, tc),
    }
}

// The record behind all of the operations. Those that are refused are written.
fn run(stdout: Stdout, operations: &[Operation]) -> Record {
    let mut packet = Record::empty();
    for (index, operation) in operations.iter().enumerate() {
        if let Err(refusal) = operate(&mut packet, *operation) {
            print::number(stdout, index);
            print::number(stdout, u8::from(refusal.reason));
            print::number(stdout, refusal.place);
        }
    }
    packet
}

fn say_row(stdout: Stdout, packet: &Record, row: usize) {
    match packet.row(row) {
        Ok(numbers) => {
            print::number(stdout, numbers.kind);
            print::number(stdout, numbers.tc);
        }
        Err(refusal) => print::refused(stdout, refusal),
    }
}

fn say_record(stdout: Stdout, packet: &Record, asked: usize) {
    print::number(stdout, packet.rows());
    print::number(stdout, packet.octets());
    print::number(stdout, packet.ticks().0);
    print::say(stdout, b";");
    for row in 0..packet.rows() {
        say_row(stdout, packet, row);
        print::number_or_refused(stdout, packet.start(row));
    }
    print::say(stdout, b"; row");
    say_row(stdout, packet, asked);
    print::say(stdout, b"; start");
    print::number_or_refused(stdout, packet.start(asked));
}

pub(crate) fn record(stdout: Stdout, head: &[usize], data: &[u8]) -> Result<(), Malformed> {
    let [asked] = *head else {
        return Err(Malformed);
    };
    let mut values = [0; MOST_VALUES];
    let (values, []) = text::values(&mut values, data, Form::Numbers)?.as_chunks::<4>() else {
        return Err(Malformed);
    };
    let mut operations = [Operation::Pop; MOST_VALUES / 4];
    let operations = lists::converted(&mut operations, values)?;
    print::say(stdout, b" refusals");
    let packet = run(stdout, operations);
    print::say(stdout, b";");
    say_record(stdout, &packet, asked);
    Ok(())
}
