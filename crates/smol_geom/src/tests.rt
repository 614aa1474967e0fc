use super::*;

const LOWER: Rect = Rect {
    axis: 0,
    low: [120_000_000, 0, 0],
    high: [120_000_000, 100_000_000, 200_000_000],
};

const UPPER: Rect = Rect {
    axis: 0,
    low: [120_000_000, 100_000_000, 0],
    high: [120_000_000, 200_000_000, 200_000_000],
};

// The move from (55, 45, 50) by (10, 10, 0) reaches x = 60 at 9,999,999 of 20,000,000 ticks, and y is 50 then.
#[test]
fn both_rectangles_hold_their_shared_edge(rt: HostRuntime) {
    let from = Place([110_000_001, 90_000_001, 100_000_001]);
    let by = Step3([20_000_000, 20_000_000, 0]);
    let moment = Moment {
        num: 9_999_999,
        den: 20_000_000,
        axis: 0,
    };
    let fold = Fold {
        sign: [1, 1, 1],
        shift: [0, 0, 0],
    };
    assert!(rt; holds_at(&LOWER, &from, &by, &moment, &fold));
    assert!(rt; holds_at(&UPPER, &from, &by, &moment, &fold));
}

#[test]
fn a_line_through_the_shared_edge_meets_both(rt: HostRuntime) {
    let a = Place([119_999_999, 99_999_999, 100_000_001]);
    let b = Place([120_000_001, 100_000_001, 100_000_001]);
    assert!(rt; meets(&LOWER, &a, &b));
    assert!(rt; meets(&UPPER, &b, &a));
}

#[test]
fn one_part_of_a_move_goes_by_the_axis(rt: HostRuntime) {
    let x = Moment {
        num: 1,
        den: 2,
        axis: 0,
    };
    let y = Moment {
        num: 3,
        den: 6,
        axis: 1,
    };
    assert!(rt; moment_before(&x, &y));
    assert!(rt; !moment_before(&y, &x));
}

#[test]
fn distance_of_one_unit(rt: HostRuntime) {
    let a = Place([1, 100_000_001, 100_000_001]);
    let b = Place([2_000_001, 100_000_001, 100_000_001]);
    assert_eq!(rt; dist2(&a, &b), 4_000_000_000_000);
}
