use super::*;
use std::test::Fail;

#[test]
fn a_list_holds_its_items(rt: HostRuntime) -> Result<(), Fail> {
    let points = vec![in rt.alloc(); (1, -2), (3, 4)]?;
    let list = PtList::from_vec(points);
    assert_eq!(rt; list.list(), [(1, -2), (3, 4)].as_slice());
    Ok(())
}

#[test]
fn horizons_are_equal_by_both_numbers(rt: HostRuntime) -> Result<(), Fail> {
    let horizon = Horizon { k: 100, steps: 30 };
    assert_eq!(rt; horizon, Horizon { k: 100, steps: 30 });
    assert!(rt; horizon != Horizon { k: 100, steps: 31 });
    Ok(())
}
