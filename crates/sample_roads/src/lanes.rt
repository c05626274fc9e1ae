//! Writing lanelets.
ghost use Rattle.std.specs.Prelude.{◌≡◌, ℕ, ◌*◌, ◌-◌, ◌≤◌, [], ◌∷◌, ◌++◌, OnOk, IfOk, codes, decimal, map, string_bytes};
ghost use Rattle.spot_terms.specs.Lists.{numbers_from};
ghost use Rattle.spot_terms.specs.Samples.{tenths, bound_point, bound, neighbour, left_of, right_of, lanelet};
ghost use Rattle.sample_roads.specs.Written.{tokens_of, all_tokens, same_direction};

use crate::elements::{close, open, open_with_id};
use crate::things::put_point;
use itoa::Buffer;
use json::Writer;
use std::alloc::{AllocError, Global};

// A number of tenths, with one decimal.
fn text_of_tenths(alloc: Global, n: u32) -> Result<String, AllocError>
    ensures { IfOk result (λ text. string_bytes text ≡ tenths n) }
{
    format!(in alloc; "{}.{}", n / 10, n % 10)
}

// The points of a bound at this y.
fn put_points(out: &mut Writer, y: &str) -> Result<(), AllocError>
    ensures before { out.new.before ≡ out.old.before }
    ensures tokens { OnOk result (out.new.tokens ≡ out.old.tokens ++ all_tokens (map (bound_point y.now) (numbers_from 0 41))) }
{
    for k in 0..41u32 {
        let mut digits = Buffer::new();
        put_point(out, digits.format(10 * k), y)?;
    }
    Ok(())
}

fn put_bound(out: &mut Writer, name: &str, y: &str) -> Result<(), AllocError>
    ensures before { out.new.before ≡ out.old.before }
    ensures tokens { OnOk result (out.new.tokens ≡ out.old.tokens ++ tokens_of (bound name.now y.now)) }
{
    open(out, name)?;
    put_points(out, y)?;
    close(out)
}

// The attributes of a neighbour that is driven in the same direction.
fn put_same_direction(out: &mut Writer, id: &str) -> Result<(), AllocError>
    ensures before { out.new.before ≡ out.old.before }
    ensures tokens { OnOk result (out.new.tokens ≡ out.old.tokens ++ same_direction id.now) }
{
    out.begin_object()?;
    out.key("ref")?;
    out.string(id)?;
    out.key("drivingDir")?;
    out.string("same")?;
    out.end_object()
}

// A neighbour that is driven in the same direction.
fn put_neighbour(out: &mut Writer, side: &str, j: u32) -> Result<(), AllocError>
    ensures before { out.new.before ≡ out.old.before }
    ensures tokens { OnOk result (out.new.tokens ≡ out.old.tokens ++ tokens_of (neighbour side.now j)) }
{
    let mut digits = Buffer::new();
    open(out, side)?;
    put_same_direction(out, digits.format(j))?;
    close(out)
}

// The neighbour on the left, if there is one.
fn put_left(out: &mut Writer, lanes: u32, j: u32) -> Result<(), AllocError>
    requires { lanes ≤ 8 }
    ensures before { out.new.before ≡ out.old.before }
    ensures tokens { OnOk result (out.new.tokens ≡ out.old.tokens ++ all_tokens (left_of lanes j)) }
{
    if j < lanes {
        put_neighbour(out, "adjacentLeft", j + 1)?;
    }
    Ok(())
}

// The neighbour on the right, if there is one.
fn put_right(out: &mut Writer, j: u32) -> Result<(), AllocError>
    ensures before { out.new.before ≡ out.old.before }
    ensures tokens { OnOk result (out.new.tokens ≡ out.old.tokens ++ all_tokens (right_of j)) }
{
    if 1 < j {
        put_neighbour(out, "adjacentRight", j - 1)?;
    }
    Ok(())
}

// The neighbours.
fn put_sides(out: &mut Writer, lanes: u32, j: u32) -> Result<(), AllocError>
    requires { lanes ≤ 8 }
    ensures before { out.new.before ≡ out.old.before }
    ensures tokens { OnOk result (out.new.tokens ≡ out.old.tokens ++ (all_tokens (left_of lanes j) ++ all_tokens (right_of j))) }
{
    put_left(out, lanes, j)?;
    put_right(out, j)
}

fn put_lanelet(alloc: Global, out: &mut Writer, lanes: u32, j: u32) -> Result<(), AllocError>
    requires some { 1 ≤ j }
    requires few { lanes ≤ 8 }
    requires within { j ≤ lanes }
    ensures before { out.new.before ≡ out.old.before }
    ensures tokens { OnOk result (out.new.tokens ≡ out.old.tokens ++ tokens_of (lanelet lanes j)) }
{
    let left = text_of_tenths(alloc, 35 * j)?;
    let right = text_of_tenths(alloc, 35 * (j - 1))?;
    let mut digits = Buffer::new();
    open_with_id(out, "lanelet", digits.format(j))?;
    put_bound(out, "leftBound", left.as_str())?;
    put_bound(out, "rightBound", right.as_str())?;
    put_sides(out, lanes, j)?;
    close(out)
}

/// Lanelets from 1 on, side by side.
pub(crate) fn put_lanelets(alloc: Global, out: &mut Writer, lanes: u32) -> Result<(), AllocError>
    requires few { lanes ≤ 8 }
    ensures before { out.new.before ≡ out.old.before }
    ensures tokens { OnOk result (out.new.tokens ≡ out.old.tokens ++ all_tokens (map (lanelet lanes) (numbers_from 1 lanes))) }
{
    for k in 0..lanes {
        put_lanelet(alloc, out, lanes, k + 1)?;
    }
    Ok(())
}
