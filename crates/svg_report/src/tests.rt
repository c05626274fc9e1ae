//! Whole drawings.
ghost use Rattle.std.specs.Prelude.{◌≤◌};
ghost use Rattle.spot_terms.specs.Whole.{SizeAtMost};

use super::*;
use base_sets::{BaseSet, OuterBox};
use convex_poly::segment;
use spot_io::{SinkFault, mem_sink};
use spot_terms::Pt;
use std::test::Fail;

const BOX: OuterBox = OuterBox {
    xlo: -40_100,
    xhi: 40_100,
    ylo: -40_100,
    yhi: 40_100,
};

const FOUR_SETS: &[u8] =
    b"<svg xmlns=\"http://www.w3.org/2000/svg\" viewBox=\"-40100 -40100 80201 80201\">
<rect class=\"free\" x=\"-40100\" y=\"1\" width=\"40100\" height=\"40100\"/>
<rect class=\"free\" x=\"-40100\" y=\"-40100\" width=\"40100\" height=\"40101\"/>
<rect class=\"free\" x=\"0\" y=\"1\" width=\"40101\" height=\"40100\"/>
<rect class=\"free\" x=\"0\" y=\"-40100\" width=\"40101\" height=\"40101\"/>
</svg>
";

const SHAPES: &[u8] =
    b"<svg xmlns=\"http://www.w3.org/2000/svg\" viewBox=\"-40100 -40100 80201 80201\">
<polygon class=\"occ\" points=\"-5,-7 8,0\"/>
<rect class=\"occ\" x=\"1\" y=\"-4\" width=\"2\" height=\"1\"/>
</svg>
";

/// A set of the places from `xlo` to `xhi` and from `ylo` to `yhi`, at rest.
fn places(xlo: i64, xhi: i64, ylo: i64, yhi: i64) -> BaseSet
    requires xlo { SizeAtMost 100_000 xlo }
    requires xhi { SizeAtMost 100_000 xhi }
    requires ylo { SizeAtMost 100_000 ylo }
    requires yhi { SizeAtMost 100_000 yhi }
{
    BaseSet {
        col: 0,
        row: 0,
        x: segment(Pt { x: xlo, y: 0 }, Pt { x: xhi, y: 0 }),
        y: segment(Pt { x: ylo, y: 0 }, Pt { x: yhi, y: 0 }),
    }
}

#[test]
fn sets_are_drawn_with_y_turned(rt: HostRuntime) -> Result<(), Fail> {
    let mut sink = mem_sink(rt.alloc(), FOUR_SETS.len(), 1000, &[])?;
    let sets = [
        places(-40_100, -1, -40_100, -1),
        places(-40_100, -1, 0, 40_100),
        places(0, 40_100, -40_100, -1),
        places(0, 40_100, 0, 40_100),
    ];
    draw(&mut sink, &BOX, &[], &sets)?;
    assert_eq!(rt; sink.bytes.as_slice(), FOUR_SETS);
    Ok(())
}

#[test]
fn a_rectangle_without_places_is_left_out(rt: HostRuntime) -> Result<(), Fail> {
    let mut sink = mem_sink(rt.alloc(), SHAPES.len(), 1000, &[])?;
    let shapes = [
        Shape::Lane(segment(Pt { x: 8, y: 0 }, Pt { x: -5, y: 7 })),
        Shape::Rect(2, 1, 0, 0),
        Shape::Rect(1, 2, 4, 4),
        Shape::Rect(0, 0, 1, 0),
    ];
    draw(&mut sink, &BOX, &shapes, &[])?;
    assert_eq!(rt; sink.bytes.as_slice(), SHAPES);
    Ok(())
}

#[test]
fn a_fault_leaves_a_front(rt: HostRuntime) -> Result<(), Fail> {
    let mut sink = mem_sink(rt.alloc(), 1000, 1000, &[2])?;
    let result = draw(&mut sink, &BOX, &[Shape::Rect(0, 0, 0, 0)], &[]);
    assert_eq!(rt; result, Err(SinkFault));
    assert_eq!(rt; sink.bytes.as_slice(), &SHAPES[..77]);
    Ok(())
}
