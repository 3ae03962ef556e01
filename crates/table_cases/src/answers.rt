//! What the table answers to a call.

ghost use Rattle.std.specs.Prelude.{◌≡◌, OnErr, IfOk};
ghost use Rattle.table_cases.specs.Values.{ValuesAt};

use crate::error::CallError;
use crate::script::{Call, Readings};
use engine::curve::Curve;
use engine::knot::Knot;
use engine::table::KnotTable;
use std::alloc::{AllocError, Global};
use std::fmt;

/// The answer to a call.
#[derive(Drop)]
pub(crate) enum Answer {
    /// The call is done.
    Done,
    /// The knots of the table.
    Knots(Vec<Knot>),
    /// The rise and the radius of the table.
    Bounds { rise: u16, radius: u16 },
    /// The values of the table at some readings.
    Values(Vec<i32>),
}

/// Makes a call on the table, which stays as it is where the call is not honoured.
pub(crate) fn answer_call(
    heap: Global,
    table: &mut KnotTable,
    call: Call,
) -> Result<Answer, CallError>
    ensures { OnErr result (table.new ≡ table.old) }
{
    match call {
        Call::New => *table = KnotTable::new(),
        Call::Load(knots) => table.load(knots.as_slice())?,
        Call::Put(k) => table.put(k.x, k.y)?,
        Call::Drop(x) => table.drop(x)?,
        Call::Kind(k) => table.kind(k)?,
        Call::Knots => return Ok(Answer::Knots(table.knots().to_vec(heap)?)),
        Call::Tell => {
            return Ok(Answer::Bounds {
                rise: table.rise(),
                radius: table.radius(),
            });
        }
        Call::Values(readings) => return Ok(Answer::Values(values_at(heap, table, readings)?)),
    }
    Ok(Answer::Done)
}

// The values of the table at the readings, in their order.
fn values_at(heap: Global, table: &KnotTable, readings: Readings) -> Result<Vec<i32>, AllocError>
    ensures { IfOk result (λ values. ValuesAt table.now readings values.items) }
{
    let Readings { first, last, step } = readings;
    let mut values = Vec::new(heap);
    for reading in (first..=last).step_by(step.get() as usize) {
        values.push(table.value(reading))?;
    }
    Ok(values)
}

impl fmt::Display for Answer {
    fn fmt<W: fmt::Write>(&self, f: &mut fmt::Formatter<W>) -> fmt::Result {
        match self {
            Answer::Done => write!(f, "ok"),
            Answer::Knots(knots) => write_knots(f, knots.as_slice()),
            Answer::Bounds { rise, radius } => write!(f, "rise {rise} radius {radius}"),
            Answer::Values(values) => write_values(f, values.as_slice()),
        }
    }
}

fn write_knots<W: fmt::Write>(f: &mut fmt::Formatter<W>, knots: &[Knot]) -> fmt::Result {
    write!(f, "{}", knots.len())?;
    for Knot { x, y } in knots {
        write!(f, " {x} {y}")?;
    }
    Ok(())
}

fn write_values<W: fmt::Write>(f: &mut fmt::Formatter<W>, values: &[i32]) -> fmt::Result {
    if let Some((first, others)) = values.split_first() {
        write!(f, "{first}")?;
        for value in others {
            write!(f, " {value}")?;
        }
    }
    Ok(())
}
