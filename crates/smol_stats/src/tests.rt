ghost use Rattle.std.specs.Prelude.{◌≡◌, ◌^◌};
ghost use Rattle.smol_geom.specs.Axes.{IsWithin};

use super::*;
use smol_geom::Place;
use smol_types::Mol;
use std::test::Fail;

// A molecule of species 0 at so many micros on each axis.
fn mol_at(x: i32, y: i32, z: i32) -> Mol
    ensures species { result.species ≡ 0 }
    ensures place { IsWithin (2 ^ 57) result.place.0 }
    ensures wide { IsWithin (2 ^ 58) result.place.0 }
{
    Mol {
        serial: 1,
        species: 0,
        place: Place([
            2 * i64::from(x) + 1,
            2 * i64::from(y) + 1,
            2 * i64::from(z) + 1,
        ]),
    }
}

#[test]
fn molecules_are_counted_in_bins(rt: HostRuntime) -> Result<(), Fail> {
    let here = mol_at(10_000_000, 50_000_000, 50_000_000);
    let there = mol_at(30_000_000, 50_000_000, 50_000_000);
    let counts = bins(
        rt.alloc(),
        &[here, here, there],
        &[true],
        0,
        0,
        80_000_000,
        4,
    )?;
    assert_eq!(rt; counts.as_slice(), [0, 2, 0, 1].as_slice());
    Ok(())
}

#[test]
fn sums_are_of_thousandths(rt: HostRuntime) -> Result<(), Fail> {
    let here = mol_at(10_000_000, 50_000_000, 50_000_000);
    let there = mol_at(30_000_000, 50_000_000, 50_000_000);
    let found = moments_of(&[here, there], &[true]);
    assert_eq!(rt; found.count, 2);
    assert_eq!(rt; found.sum.as_slice(), [40_000, 100_000, 100_000].as_slice());
    assert_eq!(rt;
        found.square.as_slice(),
        [1_000_000_000, 5_000_000_000, 5_000_000_000].as_slice()
    );
    assert_eq!(rt;
        moments_of(&[mol_at(-1, -1000, -1001)], &[true])
            .sum
            .as_slice(),
        [-1, -1, -2].as_slice()
    );
    assert_eq!(rt;
        spread(
            &[here, there],
            &[true],
            3,
            &[10_000_000, 50_000_000, 50_000_000]
        ),
        400_000_000
    );
    Ok(())
}

#[test]
fn pairs_are_counted_in_shells(rt: HostRuntime) -> Result<(), Fail> {
    let here = mol_at(10_000_000, 50_000_000, 50_000_000);
    let there = mol_at(30_000_000, 50_000_000, 50_000_000);
    let counts = radial(rt.alloc(), &[here, there], 0, 0, 40_000_000, 2)?;
    assert_eq!(rt; counts.as_slice(), [0, 1].as_slice());
    Ok(())
}
