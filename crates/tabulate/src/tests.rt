//! Worked figures, on which `tests/oracle/check.py` shows the oracle, and texts of the input.

use crate::head::tabulate_reflectance;
use crate::input::InputError;
use crate::nozzle::{Settings, tabulate};
use crate::span::Span;
use crate::table::{Bounds, Row};
use std::test::Fail;

// Settings with neither a shift nor a trim.
fn plain(low: i32, high: i32, first: i32, last: i32, step: i32) -> Settings {
    Settings {
        zero: 0,
        trim: 0,
        low,
        high,
        span: Span { first, last, step },
    }
}

// The number that refuses the settings, if they are refused.
fn refusal(s: Settings) -> Option<u8> {
    tabulate(s).err().map(|r| r.number())
}

#[test]
fn settings_are_refused_in_order(rt: HostRuntime) {
    assert_eq!(rt; refusal(plain(0, 1, 2, 3, 1)), None);
    assert_eq!(rt; refusal(plain(1, 0, 9000, 8, 0)), Some(11));
    assert_eq!(rt; refusal(plain(0, 9000, 1, 0, 1)), Some(1));
    assert_eq!(rt; refusal(plain(0, 1, 9000, 0, 0)), Some(1));
    assert_eq!(rt; refusal(plain(0, 1, 3, 2, 0)), Some(11));
    assert_eq!(rt; refusal(plain(0, 1, 2, 3, 0)), Some(11));
    assert_eq!(rt; refusal(plain(0, 1, 2, 3, 16384)), Some(11));
}

// A row, or none past the end, as a table answers it.
fn row(reading: i32, value: i32) -> Option<Row> {
    Some(Row { reading, value })
}

#[test]
fn a_small_table(rt: HostRuntime) -> Result<(), Fail> {
    let table = tabulate(plain(0, 500, 0, 5, 2))?;
    assert_eq!(rt; table.len(), 3);
    assert_eq!(rt; table.row(0), row(0, 0));
    assert_eq!(rt; table.row(1), row(2, 362));
    assert_eq!(rt; table.row(2), row(4, 500));
    assert_eq!(rt; table.row(3), None);
    assert_eq!(rt;
        table.bounds(),
        Bounds {
            rise: 256,
            radius: 0
        }
    );
    Ok(())
}

#[test]
fn the_input_is_seven_numbers(rt: HostRuntime) -> Result<(), Fail> {
    let settings = Settings {
        zero: 1,
        trim: -2,
        ..plain(3, 4, 5, 6, 7)
    };
    assert_eq!(rt; " 1 -2\n3 4\t5 6 +7\n".parse::<Settings>(), Ok(settings));
    for text in [
        "1 2 3 4 5 6",
        "1 2 3 4 5 6 7 8",
        "1 2 3 4 5 6 x",
        "1 2 3 4 5 6 2147483648",
        "",
    ] {
        assert_eq!(rt; text.parse::<Settings>(), Err(InputError));
    }
    Ok(())
}

#[test]
fn a_small_table_of_the_head(rt: HostRuntime) -> Result<(), Fail> {
    let table = tabulate_reflectance(Span {
        first: 400,
        last: 2000,
        step: 1300,
    })?;
    assert_eq!(rt; table.len(), 2);
    assert_eq!(rt; table.row(0), row(400, 2840));
    assert_eq!(rt; table.row(1), row(1700, 4100));
    assert_eq!(rt; table.bounds(), Bounds { rise: 4, radius: 1 });
    Ok(())
}

// The rows of the head's table from -7000 in steps of 700, as `tests/oracle/check.py` shows them.
const HEAD_ROWS: [(i32, i32); 22] = [
    (-7000, 0),
    (-6300, 0),
    (-5600, 112),
    (-4900, 252),
    (-4200, 411),
    (-3500, 610),
    (-2800, 859),
    (-2100, 1156),
    (-1400, 1514),
    (-700, 1950),
    (0, 2498),
    (700, 3110),
    (1400, 3797),
    (2100, 4521),
    (2800, 5262),
    (3500, 5926),
    (4200, 6491),
    (4900, 6942),
    (5600, 7299),
    (6300, 7580),
    (7000, 7600),
    (7700, 7600),
];

#[test]
fn the_whole_head(rt: HostRuntime) -> Result<(), Fail> {
    let table = tabulate_reflectance(Span {
        first: -7000,
        last: 8191,
        step: 700,
    })?;
    assert_eq!(rt; table.len(), 22);
    for (i, (reading, value)) in (0..).zip(HEAD_ROWS) {
        assert_eq!(rt; table.row(i), row(reading, value));
    }
    Ok(())
}
