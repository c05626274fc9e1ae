//! Writing what stands on the roads.
ghost use Rattle.std.specs.Prelude.{◌≡◌, [], ◌∷◌, ◌++◌, OnOk, codes};
ghost use Rattle.spot_terms.specs.Samples.{point, position, motion, start, rectangle, body};
ghost use Rattle.sample_roads.specs.Written.{tokens_of, all_tokens};

use crate::elements::{close, open, put_exact, put_leaf};
use json::Writer;
use std::alloc::AllocError;

/// A point.
pub(crate) fn put_point(out: &mut Writer, x: &str, y: &str) -> Result<(), AllocError>
    ensures before { out.new.before ≡ out.old.before }
    ensures tokens { OnOk result (out.new.tokens ≡ out.old.tokens ++ tokens_of (point x.now y.now)) }
{
    open(out, "point")?;
    put_leaf(out, "x", x)?;
    put_leaf(out, "y", y)?;
    close(out)
}

// A position.
fn put_position(out: &mut Writer, x: &str, y: &str) -> Result<(), AllocError>
    ensures before { out.new.before ≡ out.old.before }
    ensures tokens { OnOk result (out.new.tokens ≡ out.old.tokens ++ tokens_of (position x.now y.now)) }
{
    open(out, "position")?;
    put_point(out, x, y)?;
    close(out)
}

// A direction, a speed and the time.
fn put_motion(out: &mut Writer, speed: &str) -> Result<(), AllocError>
    ensures before { out.new.before ≡ out.old.before }
    ensures tokens { OnOk result (out.new.tokens ≡ out.old.tokens ++ all_tokens (motion speed.now)) }
{
    put_exact(out, "orientation", "0")?;
    put_exact(out, "velocity", speed)?;
    put_exact(out, "time", "0")
}

/// An initial state.
pub(crate) fn put_start(out: &mut Writer, x: &str, y: &str, speed: &str) -> Result<(), AllocError>
    ensures before { out.new.before ≡ out.old.before }
    ensures tokens { OnOk result (out.new.tokens ≡ out.old.tokens ++ tokens_of (start x.now y.now speed.now)) }
{
    open(out, "initialState")?;
    put_position(out, x, y)?;
    put_motion(out, speed)?;
    close(out)
}

// A rectangle as long and as wide as a car.
fn put_rectangle(out: &mut Writer) -> Result<(), AllocError>
    ensures before { out.new.before ≡ out.old.before }
    ensures tokens { OnOk result (out.new.tokens ≡ out.old.tokens ++ tokens_of rectangle) }
{
    open(out, "rectangle")?;
    put_leaf(out, "length", "4.5")?;
    put_leaf(out, "width", "1.8")?;
    close(out)
}

/// The shape of a car.
pub(crate) fn put_body(out: &mut Writer) -> Result<(), AllocError>
    ensures before { out.new.before ≡ out.old.before }
    ensures tokens { OnOk result (out.new.tokens ≡ out.old.tokens ++ tokens_of body) }
{
    open(out, "shape")?;
    put_rectangle(out)?;
    close(out)
}
