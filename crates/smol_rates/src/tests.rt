//! Thresholds and shares that were computed apart.
use crate::{share, threshold_of};
use smol_num::Threshold;

#[test]
fn thresholds_are_those_of_the_series(rt: HostRuntime) {
    assert_eq!(rt; threshold_of(0, 1_000_000_000), Threshold(0));
    assert_eq!(rt; threshold_of(1_000_000_000, 1), Threshold(4));
    assert_eq!(rt;
        threshold_of(32_000_000_000, 1_000_000_000),
        Threshold(4_294_967_296)
    );
    assert_eq!(rt;
        threshold_of(31_999_999_999, 1_000_000_000),
        Threshold(4294967295)
    );
    assert_eq!(rt;
        threshold_of(1_000_000_000, 1_000_000_000),
        Threshold(2714937127)
    );
    assert_eq!(rt;
        threshold_of(1_100_000_000_000_000_000, 1_000_000_000_000_000_000),
        Threshold(4_294_967_296)
    );
}

#[test]
fn shares_are_differences(rt: HostRuntime) {
    let total = Threshold(10);
    assert_eq!(rt; share(total, 0, 1, 3), Threshold(3));
    assert_eq!(rt; share(total, 1, 2, 3), Threshold(3));
    assert_eq!(rt; share(total, 2, 3, 3), Threshold(4));
    assert_eq!(rt; share(total, 0, 0, 0), Threshold(0));
}
