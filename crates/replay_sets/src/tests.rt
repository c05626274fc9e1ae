use super::*;
use carve::Occupied;
use indexmap::IndexMap;
use spot_terms::{Fixed, FixedList, Kind, Mover, Movers, Problems, Pt, Scenario, StateList};
use std::alloc::{AllocError, Global};
use std::test::Fail;

// A parked disc, and a car that was recorded at its start, twice at step 2, and once behind the last step.
fn recorded_car(alloc: Global) -> Result<Scenario, AllocError> {
    let states = vec![in alloc; (0, 0, 0), (2, 5_000_000, 0), (9, 0, 0), (2, 6_000_000, 1)]?;
    let car = Mover {
        id: 1,
        place: 1,
        kind: Kind::Car,
        enclosing: 3_000_000,
        inscribed: 1_000_000,
        time: 0,
        x: 0,
        y: 0,
        speed: 10_000,
        angle: 0,
        recorded: StateList::from_vec(states),
    };
    let parked = Fixed {
        id: 3,
        place: 3,
        enclosing: 2_000_000,
        inscribed: 700_000,
        x: 9_000_000,
        y: 0,
    };
    Ok(Scenario {
        step: 100,
        lanelets: IndexMap::new(alloc),
        movers: Movers::from_vec(vec![in alloc; car]?),
        fixed: FixedList::from_vec(vec![in alloc; parked]?),
        problems: Problems::from_vec(Vec::new(alloc)),
    })
}

// A disc on the x axis, or beside it.
fn disc(id: u32, x: i64, y: i64, r: u64) -> Disc {
    Disc {
        id,
        p: Pt { x, y },
        r,
    }
}

/// The discs of each step: that of the parked one, then those that the car was recorded at, in the order of its states.
#[test]
fn discs_of_each_step(rt: HostRuntime) -> Result<(), Fail> {
    let scenario = recorded_car(rt.alloc())?;
    let recorded = Recorded::make(rt.alloc(), &scenario, 900_000, 2)?;
    let parked = disc(3, 9_000_000, 0, 1_600_000);
    assert_eq!(rt;
        recorded.discs(0),
        [parked, disc(1, 0, 0, 1_900_000)].as_slice()
    );
    assert_eq!(rt; recorded.discs(1), [parked].as_slice());
    assert_eq!(rt;
        recorded.discs(2),
        [
            parked,
            disc(1, 5_000_000, 0, 1_900_000),
            disc(1, 6_000_000, 1, 1_900_000),
        ]
        .as_slice()
    );
    assert!(rt; recorded.discs(3).is_empty());
    Ok(())
}

/// A step's pieces are its discs: their range along y, and the x where both ends of a row lie in them.
#[test]
fn pieces_of_a_step(rt: HostRuntime) -> Result<(), Fail> {
    let scenario = recorded_car(rt.alloc())?;
    let recorded = Recorded::make(rt.alloc(), &scenario, 0, 1)?;
    assert_eq!(rt; recorded.pieces(0), 2);
    assert_eq!(rt; recorded.span(0, 0), Some((-700_000, 700_000)));
    assert_eq!(rt; recorded.span(0, 1), Some((-1_000_000, 1_000_000)));
    assert_eq!(rt; recorded.run(0, 1, 0, 600_000), Some((-800_000, 800_000)));
    assert_eq!(rt; recorded.run(0, 1, 0, 1_000_001), None);
    Ok(())
}
