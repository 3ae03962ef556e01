//! Runs a script of calls on a knot table.
//!
//! Standard input has a call on each line (see `script::Call`), and standard output gets a line of answer for each. A
//! line that begins with `#` is its own answer. The table is new at the start.

#![tactic(auto)]

use answers::{Answer, answer_call};
use engine::table::KnotTable;
use error::CallError;
use script::read_call;
use std::alloc::Global;
use std::io;

mod answers;
mod error;
mod script;

fn main(rt: HostRuntime) -> anyhow::Result<()> {
    let text = io::read_to_string(rt.alloc(), rt.stdin())?;
    let mut table = KnotTable::new();
    for line in text.as_str().lines() {
        if line.starts_with('#') {
            println!(rt; "{line}")?;
            continue;
        }
        match answer_line(rt.alloc(), &mut table, line) {
            Ok(answer) => println!(rt; "{answer}")?,
            Err(CallError::NoMemory(full)) => return Err(full.into()),
            Err(error) => println!(rt; "{error}")?,
        }
    }
    Ok(())
}

// The answer to a line of the script.
fn answer_line(heap: Global, table: &mut KnotTable, line: &str) -> Result<Answer, CallError> {
    let call = read_call(heap, line)?;
    answer_call(heap, table, call)
}
