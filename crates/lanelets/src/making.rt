//! The cells of lanelets.

ghost use Rattle.std.specs.Prelude.{◌+◌, ◌<◌, ◌≤◌, length, OnOk};
ghost use Rattle.spot_terms.specs.Cells.{part_cell, cells_of_piece, cells_from, lane_cells};
ghost use Rattle.spot_terms.specs.Ranges.{AreBuildable, IsLaneInRange};
ghost use Rattle.lanelets.specs.Pieces.{IsPieceInRange, IsPieceAt};
ghost use Rattle.lanelets.specs.Made.{IsMadeOf, IsPlaced, Adds};

use crate::cell::{Cell, Placed};
use crate::lanes::{lane_at, lane_count};
use crate::piece::{Piece, hull_between, part_count, portal};
use indexmap::IndexMap;
use spot_terms::{MOST_BYTES, Origin, RawLane};
use std::alloc::AllocError;

/// A place in a lanelet: its position and id, and the number of the piece.
#[derive(Clone, Copy)]
pub(crate) struct Place {
    pub(crate) lane: u32,
    pub(crate) id: u32,
    pub(crate) piece: u32,
}

// Part `part` of the `parts` parts of a piece.
fn part_of(place: Place, piece: &Piece, part: u32, parts: u32) -> Placed
    requires piece { IsPieceInRange piece.now }
    requires part { part < parts }
    ensures { IsMadeOf place.id (part_cell place.lane place.piece piece.now.left piece.now.left_end piece.now.right piece.now.right_end parts part) result }
{
    let entry = portal(piece, part, parts);
    let exit = portal(piece, part + 1, parts);
    let origin = Origin::Part {
        lane: place.lane,
        piece: place.piece,
        part,
        parts,
    };
    let cell = Cell {
        lane: place.id,
        poly: hull_between(entry, exit),
        entry,
        exit,
    };
    Placed { origin, cell }
}

// Adds the cells of a piece.
fn add_piece(made: &mut Vec<Placed>, place: Place, piece: &Piece) -> Result<(), AllocError>
    requires { IsPieceInRange piece.now }
    ensures { OnOk result (Adds (IsMadeOf place.id) (cells_of_piece place.lane place.piece piece.now.left piece.now.left_end piece.now.right piece.now.right_end) made.old.items made.new.items) }
{
    let parts = part_count(piece);
    for part in 0..parts {
        made.push(part_of(place, piece, part, parts))?;
    }
    Ok(())
}

/// The piece of a lanelet with this number.
pub(crate) fn piece_at(lane: &RawLane, q: usize) -> Piece
    requires range { IsLaneInRange lane.now }
    requires within { q + 1 < length lane.now.left }
    ensures is { IsPieceAt lane.now q result }
    ensures range { IsPieceInRange result }
{
    let left = lane.left.list();
    let right = lane.right.list();
    Piece {
        left: left[q],
        left_end: left[q + 1],
        right: right[q],
        right_end: right[q + 1],
    }
}

// Adds the cells of a lanelet.
fn add_lane(made: &mut Vec<Placed>, lane: u32, id: u32, raw: &RawLane) -> Result<(), AllocError>
    requires range { IsLaneInRange raw.now }
    requires few { length raw.now.left ≤ MOST_BYTES }
    ensures { OnOk result (Adds (IsMadeOf id) (cells_from lane 0 raw.now.left raw.now.right) made.old.items made.new.items) }
{
    for q in 0..raw.left.list().len() - 1 {
        let place = Place {
            lane,
            id,
            piece: q as u32,
        };
        add_piece(made, place, &piece_at(raw, q))?;
    }
    Ok(())
}

/// Adds the cells of all lanelets.
pub(crate) fn add_lanes(
    made: &mut Vec<Placed>,
    lanes: &IndexMap<u32, RawLane>,
) -> Result<(), AllocError>
    requires { AreBuildable lanes.now.entries }
    ensures { OnOk result (Adds (IsPlaced lanes.now.entries) (lane_cells 0 lanes.now.entries) made.old.items made.new.items) }
{
    for e in 0..lane_count(lanes) {
        let (id, raw) = lane_at(lanes, e);
        add_lane(made, e, id, raw)?;
    }
    Ok(())
}
