//! A nozzle row: its settings, its curve and the table of its flow.

ghost use Rattle.std.specs.Prelude.{◌≡◌};
ghost use Rattle.engine.specs.Refusals.{Outcome, told};
ghost use Rattle.engine.specs.Means.{means};
ghost use Rattle.tabulate.specs.Flow.{FlowLaw, FlowTable, Piled, settings_refusal};

use super::readings::Readings;
use super::span::Span;
use super::table::Table;
use engine::band::Band;
use engine::curve::{Bare, Curve};
use engine::layer::{Chain, Clamp, Offset};
use engine::refusal::Refusal;
use engine::root::Root;

/// The settings of a nozzle row, as an engineer types them.
#[derive(Clone, Copy, PartialEq, Eq, Debug)]
pub struct Settings {
    /// Added to each reading before the root is taken; held to -16383..16383.
    pub zero: i32,
    /// Added to the root; held to -16383..16383.
    pub trim: i32,
    /// The least flow that the valves take.
    pub low: i32,
    /// The greatest flow that the valves take.
    pub high: i32,
    /// The readings of the table.
    pub span: Span,
}

/// The root of the reading plus `zero`, plus `trim`, held to `low..high`.
pub type Flow = Clamp<Offset<Chain<Root, Offset<Bare>>>>;

/// The table of a nozzle row's flow over the settings' span.
///
/// Refuses 1 and then 11 where `low` and `high` make no band, then as `Readings::try_from` does.
pub fn tabulate(s: Settings) -> Result<Table<Flow>, Refusal>
    ensures answer { Outcome told (settings_refusal s) (λ t. FlowTable (means ⟦<Flow as Curve>⟧ t.curve) s t) result }
    ensures law { Outcome told (settings_refusal s) (λ t. FlowLaw (means ⟦<Flow as Curve>⟧ t.curve) s t) result }
{
    let limit = Band::new(s.low, s.high)?;
    let readings = Readings::try_from(s.span)?;
    Ok(Table::new(flow_curve(s.zero, s.trim, limit), readings))
}

// The curve of a nozzle row.
fn flow_curve(zero: i32, trim: i32, limit: Band) -> Flow
    ensures { Piled zero trim limit result }
{
    let root = Chain::new(Root, Offset::new(Bare, zero));
    Clamp::new(Offset::new(root, trim), limit)
}
