ghost use Rattle.std.specs.Prelude.{◌≤◌, ◌^◌, ◌≤ℤ◌, unsigned_abs};
ghost use Rattle.smol_geom.specs.Axes.{IsWithin};
ghost use Rattle.smol_cells.specs.Numbered.{IsFilled};

use super::*;
use smol_geom::{Cuboid, Place, Rect};
use std::process::Abort;
use std::test::Fail;

// A cuboid along x.
fn stretch(low: i64, high: i64) -> Cuboid
    requires low { unsigned_abs low ≤ 2 ^ 58 }
    requires high { unsigned_abs high ≤ 2 ^ 58 }
    requires filled { low ≤ℤ high }
    ensures low { IsWithin (2 ^ 58) result.low }
    ensures high { IsWithin (2 ^ 58) result.high }
    ensures filled { IsFilled result }
{
    Cuboid {
        low: [low, 0, 0],
        high: [high, 2, 2],
    }
}

// Looks whether these are the indexes near a cuboid, in order and row by row.
fn are_near<A: Abort>(rt: &A, cells: &Cells, c: &Cuboid, wanted: &[usize])
    requires low { IsWithin (2 ^ 58) c.now.low }
    requires high { IsWithin (2 ^ 58) c.now.high }
    requires filled { IsFilled c.now }
{
    let mut near = cells.near(c);
    for index in wanted {
        assert_eq!(rt; near.next(), Some(*index));
        assert!(rt; cells.touching(c).any(|other| other == *index));
    }
    assert_eq!(rt; near.next(), None);
    assert!(rt; cells.touching(c).all(|index| wanted.contains(&index)));
}

#[test]
fn a_point_beyond_the_bounds_is_in_the_last_box(rt: HostRuntime) -> Result<(), Fail> {
    let grid = Grid::of(&stretch(0, 1000), 100);
    let places = [Place([1, 1, 1]), Place([101, 1, 1]), Place([5001, 1, 1])];
    let cells = Cells::of_points(rt.alloc(), &grid, &places)?;
    are_near(&rt, &cells, &stretch(4000, 6000), &[2]);
    are_near(&rt, &cells, &stretch(0, 199), &[0, 1]);
    Ok(())
}

#[test]
fn a_rectangle_is_in_each_box_that_it_meets(rt: HostRuntime) -> Result<(), Fail> {
    let grid = Grid::of(&stretch(0, 1000), 100);
    let rects = [
        Rect {
            axis: 0,
            low: [200, 0, 0],
            high: [200, 2, 2],
        },
        Rect {
            axis: 1,
            low: [50, 2, 0],
            high: [150, 2, 2],
        },
    ];
    let cells = Cells::of_rects(rt.alloc(), &grid, &rects)?;
    are_near(&rt, &cells, &stretch(100, 120), &[1]);
    are_near(&rt, &cells, &stretch(100, 210), &[0, 1]);
    are_near(&rt, &cells, &stretch(300, 400), &[]);
    Ok(())
}

#[test]
fn places_in_order_stand_in_runs(rt: HostRuntime) -> Result<(), Fail> {
    let grid = Grid::of(&stretch(0, 1000), 128);
    let places = [Place([901, 1, 1]), Place([1, 1, 1]), Place([129, 1, 1])];
    let made = in_box_order(rt.alloc(), &grid, &places)?;
    assert_eq!(rt; made.order.as_slice(), [1, 2, 0].as_slice());
    let boxes = made.cells.grid().boxes(&stretch(0, 200));
    assert_eq!(rt;
        made.cells.run(
            boxes.first[0],
            boxes.last[0],
            boxes.first[1],
            boxes.first[2]
        ),
        0..2
    );
    are_near(&rt, &made.cells, &stretch(128, 2000), &[1, 2]);
    Ok(())
}

#[test]
fn an_edge_is_doubled_until_there_are_few_boxes(rt: HostRuntime) {
    let grid = Grid::of(&stretch(0, 2_097_152), 1);
    assert_eq!(rt; grid.len(), 524_289);
    assert_eq!(rt;
        grid.boxes(&stretch(3, 7)),
        Boxes {
            first: [0, 0, 0],
            last: [1, 0, 0],
        }
    );
}
