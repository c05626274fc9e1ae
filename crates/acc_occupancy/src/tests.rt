use super::*;
use spot_terms::{Pt, VBox};
use std::test::Fail;

/// A car at the origin with 10 m/s along x, over two intervals of 100 ticks.
#[test]
fn intervals_of_a_car(rt: HostRuntime) -> Result<(), Fail> {
    let start = AccStart {
        p: Pt { x: 0, y: 0 },
        b: VBox {
            xlo: 9999,
            xhi: 10001,
            ylo: -1,
            yhi: 1,
        },
        a: 8,
        v: 70000,
        r: 1_000_000,
    };
    let first = [
        2040100, 2469463, 1040100, 1414213, 1000000, 1414213, 1040100, 2469463,
    ];
    let second = [
        3160200, 3634713, 1160200, 469463, 40100, 469463, 1160200, 3634713,
    ];
    let mut run = AccRun::open(&start, 100);
    assert_eq!(rt; run.next().n, first);
    assert_eq!(rt; run.next().n, second);
    assert_eq!(rt; interval_numbers(&start, 100, 1).n, second);
    assert_eq!(rt; reach_number(&start, 4, 100), -959900);
    Ok(())
}

/// Slanted starts: one that never meets its cap, and one that does on most normals.
#[test]
fn slanted_starts(rt: HostRuntime) -> Result<(), Fail> {
    let rising = AccStart {
        p: Pt {
            x: 12345,
            y: -67890,
        },
        b: VBox {
            xlo: 7070,
            xhi: 7073,
            ylo: 7070,
            yhi: 7073,
        },
        a: 10,
        v: 80000,
        r: 2_500_000,
    };
    assert_eq!(rt;
        interval_numbers(&rising, 137, 5).n,
        [
            11704771, 19838610, 11624536, 8188374, 54535, -2809562, 134770, 8348844
        ]
    );
    let capped = AccStart {
        p: Pt { x: 5, y: -7 },
        b: VBox {
            xlo: 19998,
            xhi: 20001,
            ylo: -10003,
            yhi: -9998,
        },
        a: 3,
        v: 25000,
        r: 450_000,
    };
    assert_eq!(rt;
        interval_numbers(&capped, 250, 30).n,
        [
            190035838, 194304906, 13063118, -111699866, -64436880, 43307898, 156717505, 271066257
        ]
    );
    assert_eq!(rt; reach_number(&capped, 3, 7750), -112336262);
    Ok(())
}
