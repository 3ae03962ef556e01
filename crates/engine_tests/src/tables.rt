//! Tests of knot tables on worked figures.

use engine::curve::Curve;
use engine::knot::Knot;
use engine::layer::Chain;
use engine::refusal::{LoadRefusal, Refusal};
use engine::table::KnotTable;
use std::array;
use std::test::Fail;

// The number and the index that a refusal of load tells.
fn told(refusal: LoadRefusal) -> (u8, Option<usize>) {
    let index = match refusal {
        LoadRefusal::Whole(_) => None,
        LoadRefusal::AtKnot { index, .. } => Some(index),
    };
    (refusal.number(), index)
}

fn knot(x: i32, y: i32) -> Knot {
    Knot { x, y }
}

// The table of a kind through (0, 0), (10, 10), (20, 40).
fn k(kind: i32) -> Result<KnotTable, LoadRefusal> {
    let mut table = KnotTable::new();
    table.load(&[knot(0, 0), knot(10, 10), knot(20, 40)])?;
    table.kind(kind)?;
    Ok(table)
}

#[test]
fn values_of_each_kind(rt: HostRuntime) -> Result<(), Fail> {
    let step = k(0)?;
    assert_eq!(rt; (step.value(-1), step.value(9)), (0, 0));
    assert_eq!(rt; (step.value(10), step.value(8191)), (10, 40));
    assert_eq!(rt; (step.rise(), step.radius()), (30, 0));
    let line = k(1)?;
    assert_eq!(rt; (line.value(5), line.value(15)), (5, 25));
    assert_eq!(rt; (line.rise(), line.radius()), (3, 1));
    let cubic = k(2)?;
    assert_eq!(rt; (cubic.value(5), cubic.value(15)), (4, 23));
    assert_eq!(rt; (cubic.rise(), cubic.radius()), (9, 1));
    Ok(())
}

#[test]
fn a_line_after_a_cubic(rt: HostRuntime) -> Result<(), Fail> {
    let mut g = KnotTable::new();
    g.load(&[knot(0, 0), knot(100, 50)])?;
    let chain = Chain::new(g, k(2)?);
    assert_eq!(rt; chain.value(15), 12);
    assert_eq!(rt; (chain.rise(), chain.radius()), (9, 2));
    Ok(())
}

#[test]
fn gaps_of_4096_load(rt: HostRuntime) -> Result<(), Fail> {
    let mut table = KnotTable::new();
    let refused = table.load(&[knot(0, 0), knot(4097, 1)]);
    assert_eq!(rt; refused.map_err(told), Err((5, Some(1))));
    assert_eq!(rt; table.knots().len(), 5);
    table.load(&[knot(0, 0), knot(4096, 1)])?;
    assert_eq!(rt; table.knots().len(), 2);
    assert_eq!(rt; table.load(&[knot(8191, 0)]).map_err(told), Err((2, None)));
    for (knots, fault) in [
        ([knot(0, 0), knot(8192, 9)], (1, Some(1))),
        ([knot(0, 0), knot(0, 9)], (3, Some(1))),
        ([knot(0, 5), knot(9, 4)], (4, Some(1))),
        ([knot(-8193, 5), knot(9, 4)], (1, Some(0))),
    ] {
        assert_eq!(rt; table.load(&knots).map_err(told), Err(fault), "{knots:?}");
    }
    Ok(())
}

#[test]
fn edits_of_a_table(rt: HostRuntime) -> Result<(), Fail> {
    let mut table = k(2)?;
    assert_eq!(rt; table.put(10, 41).map_err(Refusal::number), Err(4));
    assert_eq!(rt; table.value(10), 10);
    table.put(10, 40)?;
    assert_eq!(rt; (table.value(10), table.knots().len()), (40, 3));
    table.put(15, 40)?;
    assert_eq!(rt; (table.value(15), table.knots().len()), (40, 4));
    assert_eq!(rt; table.put(8192, 40).map_err(Refusal::number), Err(1));
    assert_eq!(rt; table.put(20, -8193).map_err(Refusal::number), Err(1));
    assert_eq!(rt; table.put(8191, 8191).map_err(Refusal::number), Err(5));
    assert_eq!(rt; table.drop(11).map_err(Refusal::number), Err(6));
    table.drop(0)?;
    table.drop(15)?;
    assert_eq!(rt; table.drop(20).map_err(Refusal::number), Err(2));
    assert_eq!(rt; table.knots().len(), 2);
    assert_eq!(rt; table.kind(3).map_err(Refusal::number), Err(7));
    assert_eq!(rt; table.kind(-1).map_err(Refusal::number), Err(7));
    table.kind(0)?;
    assert_eq!(rt; KnotTable::new().drop(0).map_err(Refusal::number), Err(5));
    Ok(())
}

// The knots (0, 0) to (96, 96), one too many.
fn diagonal() -> [Knot; 97] {
    array::from_fn(|i| knot(i as i32, i as i32))
}

#[test]
fn the_97th_knot(rt: HostRuntime) -> Result<(), Fail> {
    let knots = diagonal();
    let most = &knots[..96];
    let mut table = KnotTable::new();
    assert_eq!(rt; table.load(&knots).map_err(told), Err((2, None)));
    table.load(most)?;
    assert_eq!(rt; table.put(96, 96).map_err(Refusal::number), Err(2));
    table.put(95, 96)?;
    assert_eq!(rt; table.value(95), 96);
    Ok(())
}
