//! Tabulates the flow of a nozzle row over a span of readings.
//!
//! Standard input has seven whole numbers, ZERO TRIM LOW HIGH FIRST LAST STEP (see `nozzle::Settings`).
//! Standard output gets a line `READING FLOW` for each reading, and a last line with their number, the rise and the
//! radius. A refusal is told by its number on standard error, with status 1. `docs/tabulate.md` has it all.

#![tactic(auto)]

use nozzle::{Flow, Settings, tabulate};
use std::io;
use std::process::ExitCode;
use table::{Bounds, Row, Table};

mod head;
mod input;
mod nozzle;
mod readings;
mod span;
mod table;
#[cfg(test)]
mod tests;

fn main(rt: HostRuntime) -> ExitCode {
    match run(&rt) {
        Ok(()) => ExitCode::SUCCESS,
        Err(error) => {
            let _ = eprintln!(rt; "tabulate: {error}");
            ExitCode::FAILURE
        }
    }
}

fn run(rt: &HostRuntime) -> anyhow::Result<()> {
    let text = io::read_to_string(rt.alloc(), rt.stdin())?;
    let settings = text.as_str().parse::<Settings>()?;
    let table = tabulate(settings)?;
    Ok(write_table(rt, &table)?)
}

fn write_table(rt: &impl Print, table: &Table<Flow>) -> io::Result<()> {
    let count = table.len();
    for Row { reading, value } in (0..count).filter_map(|i| table.row(i)) {
        println!(rt; "{reading} {value}")?;
    }
    let Bounds { rise, radius } = table.bounds();
    println!(rt; "{count} readings, rise {rise}, radius {radius}")
}
