//! Knot tables. Each call that may be refused leaves the table as it was where it is.

ghost use Rattle.std.specs.Prelude.{◌≡◌, length};
ghost use Rattle.engine.specs.Refusals.{Outcome, load_told, told};
ghost use Rattle.engine.specs.Kinds.{kind_refusal};
ghost use Rattle.engine.specs.Knots.{most, start_knots};
ghost use Rattle.engine.specs.Lists.{listed};
ghost use Rattle.engine.specs.Tables.{Slopes};
ghost use Rattle.engine.specs.declared.kind.Kind.TheVariants.{Line as LineKind};

use self::faults::check_knots;
use self::list::KnotList;
use crate::kind::Kind;
use crate::knot::Knot;
use crate::refusal::{LoadRefusal, Refusal};

mod curve;
mod edit;
mod faults;
mod list;
mod piece;
mod slopes;
mod slot;

/// A table has at least this many knots.
pub const FEWEST: usize = 2;
/// A table has at most this many knots.
pub const MOST: usize = 96;

// The knots of a new table.
const START: [Knot; 5] = [
    Knot { x: -8192, y: -8192 },
    Knot { x: -4096, y: -4096 },
    Knot { x: 0, y: 0 },
    Knot { x: 4096, y: 4096 },
    Knot { x: 8191, y: 8191 },
];

/// A knot table: 2 to 96 knots of coordinates, each x above the one before by at most 4096, no y below the one before.
#[derive(Clone, Copy)]
pub struct KnotTable {
    list: KnotList,
    // the stored slope at each knot, whatever the kind
    slopes: [u32; MOST],
    kind: Kind,
    ghost room: { length slopes ≡ most },
    ghost steep: { Slopes (listed list) slopes },
}

impl KnotTable {
    ghost use Rattle.engine.specs.Edits.{Dropped, Edited, IsTable, Loaded, NamesFirst, Put, Rekinded, WhereRefused};
    ghost use Rattle.engine.specs.Edits.{drop_refusal, knots_of, load_refusal, put_refusal};

    /// A new table: straight lines through (-8192, -8192), (-4096, -4096), (0, 0), (4096, 4096) and (8191, 8191).
    pub fn new() -> KnotTable
        ensures { IsTable start_knots LineKind result }
    {
        KnotTable::of(KnotList::new(&START), Kind::Line)
    }

    /// The knots, in order of x.
    pub fn knots(&self) -> &[Knot]
        ensures { result.now ≡ knots_of self.now }
    {
        self.list.as_slice()
    }

    /// The knots ks in place of the table's; the kind stays.
    ///
    /// Refuses 2 where there are not 2 to 96; then, knot by knot from the first, 1 where a part is no coordinate, 3
    /// where x is not above the x before, 5 where it is above it by more than 4096, and 4 where y is below the y
    /// before, each with the knot's index.
    pub fn load(&mut self, ks: &[Knot]) -> Result<(), LoadRefusal>
        ensures answer { Edited load_told (load_refusal ks.now)
            (Loaded ks.now self.old) result self.old self.new }
        ensures blame { WhereRefused load_told (NamesFirst ks.now) result }
    {
        if !(FEWEST..=MOST).contains(&ks.len()) {
            return Err(Refusal::KnotCount.into());
        }
        check_knots(ks)?;
        *self = KnotTable::of(KnotList::new(ks), self.kind);
        Ok(())
    }

    /// The y of the knot at x set, or the knot (x, y) added.
    ///
    /// Refuses 1 where x or y is no coordinate, then 2 where it would be the 97th knot, then 5 where knots would be
    /// more than 4096 apart, then 4 where y is below the y before or above the y after.
    pub fn put(&mut self, x: i32, y: i32) -> Result<(), Refusal>
        ensures { Edited told (put_refusal x y (knots_of self.old)) (Put x y self.old) result
            self.old self.new }
    {
        *self = self.with_knot(Knot { x, y })?;
        Ok(())
    }

    /// The knot at x taken away.
    ///
    /// Refuses 6 where no knot stands at x, then 2 where one knot would be left, then 5 where knots would be more than
    /// 4096 apart.
    pub fn drop(&mut self, x: i32) -> Result<(), Refusal>
        ensures { Edited told (drop_refusal x (knots_of self.old)) (Dropped x self.old) result
            self.old self.new }
    {
        *self = self.without_knot(x)?;
        Ok(())
    }

    /// The kind with this number: 0 for steps, 1 for lines, 2 for cubics. Refuses 7 where there is none.
    pub fn kind(&mut self, k: i32) -> Result<(), Refusal>
        ensures { Edited told (kind_refusal k) (Rekinded k self.old) result
            self.old self.new }
    {
        let kind = Kind::try_from(k)?;
        *self = KnotTable {
            list: self.list,
            slopes: self.slopes,
            kind,
        };
        Ok(())
    }

    // The table of a list and of a kind.
    fn of(list: KnotList, kind: Kind) -> KnotTable
        ensures { IsTable (listed list) kind result }
    {
        KnotTable {
            slopes: list.slopes(),
            list,
            kind,
        }
    }

    // The table with k put.
    fn with_knot(&self, k: Knot) -> Result<KnotTable, Refusal>
        ensures { Outcome told (put_refusal k.x k.y (knots_of self.now))
            (Put k.x k.y self.now) result }
    {
        let slot = self.list.slot_to_put(k)?;
        Ok(KnotTable::of(self.list.spliced(slot, &[k]), self.kind))
    }

    // The table without its knot at x.
    fn without_knot(&self, x: i32) -> Result<KnotTable, Refusal>
        ensures { Outcome told (drop_refusal x (knots_of self.now)) (Dropped x self.now) result }
    {
        let slot = self.list.slot_to_drop(x)?;
        Ok(KnotTable::of(self.list.spliced(slot, &[]), self.kind))
    }
}
