//! Theorems over the definitions. A function here does nothing: its contract is the theorem.

ghost use Rattle.engine.specs.Theorems.{FractionRules, LayersKeep, PlainCurvesKeep, RootLaw, RoundingRules};
ghost use Rattle.engine.specs.Theorems.{TableLaws, WorkedReadings};

/// Fractions are totally ordered, and their order and arithmetic extend those of whole numbers.
pub fn fraction_rules()
    ensures { FractionRules }
{}

/// Rounding down, up and to nearest give the whole numbers that their words name.
pub fn rounding_rules()
    ensures { RoundingRules }
{}

/// A chain, an offset or a clamp over curves that keep the rules keeps the rules.
pub fn layers_keep_the_rules()
    ensures { LayersKeep }
{}

/// The bare curve and the root curve keep the rules.
pub fn plain_curves_keep_the_rules()
    ensures { PlainCurvesKeep }
{}

/// Each entry of the root curve is the greatest whole number whose square is at most 65536 times its index, and its exact
/// curve is the straight line between neighbouring entries, flat beyond.
pub fn root_law()
    ensures { RootLaw }
{}

/// Every lawful knot table keeps the curve rules, passes through its knots and is made of the pieces of its kind.
pub fn table_laws()
    ensures { TableLaws }
{}

/// Readings worked by hand follow from the definitions.
pub fn worked_readings()
    ensures { WorkedReadings }
{}
