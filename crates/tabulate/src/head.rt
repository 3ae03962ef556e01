//! A sorting head: its reflectance curve and the table of it, for which the program does not ask yet.

ghost use Rattle.std.specs.Prelude.{◌≡◌};
ghost use Rattle.engine.specs.Refusals.{Outcome, told};
ghost use Rattle.engine.specs.Edits.{IsTable as IsKnotTable};
ghost use Rattle.engine.specs.Means.{means};
ghost use Rattle.engine.specs.declared.kind.Kind.TheVariants.{Cubic};
ghost use Rattle.tabulate.specs.Readings.{span_refusal};
ghost use Rattle.tabulate.specs.Reflectance.{ReflectanceLaw, ReflectanceTable, head_knots};

use super::readings::Readings;
use super::span::Span;
use super::table::Table;
use engine::curve::Curve;
use engine::knot::Knot;
use engine::refusal::Refusal;
use engine::table::KnotTable;

// What the head read off twelve grey tiles of known reflectance, in hundredths of a percent.
const HEAD: [Knot; 12] = [
    Knot { x: -6200, y: 0 },
    Knot { x: -5100, y: 210 },
    Knot { x: -3900, y: 490 },
    Knot { x: -2500, y: 980 },
    Knot { x: -1000, y: 1750 },
    Knot { x: 400, y: 2840 },
    Knot { x: 1700, y: 4100 },
    Knot { x: 2900, y: 5360 },
    Knot { x: 4100, y: 6420 },
    Knot { x: 5300, y: 7150 },
    Knot { x: 6500, y: 7600 },
    Knot { x: 7900, y: 7600 },
];

/// The table of the head's reflectance over a span. Refuses as `Readings::try_from` does.
pub fn tabulate_reflectance(s: Span) -> Result<Table<KnotTable>, Refusal>
    ensures answer { Outcome told (span_refusal s)
        (λ t. ReflectanceTable (means ⟦<KnotTable as Curve>⟧ t.curve) s t) result }
    ensures law { Outcome told (span_refusal s)
        (λ t. ReflectanceLaw (means ⟦<KnotTable as Curve>⟧ t.curve) s t) result }
{
    let readings = Readings::try_from(s)?;
    Ok(Table::new(head_curve(), readings))
}

// The head's curve, the monotone cubic through its knots. Neither call is refused.
fn head_curve() -> KnotTable
    ensures { IsKnotTable head_knots Cubic result }
{
    let mut table = KnotTable::new();
    table.load(&HEAD).unwrap();
    table.kind(2).unwrap();
    table
}
