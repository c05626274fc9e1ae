//! The whole text.
ghost use Rattle.std.specs.Prelude.{◌≡◌, ℕ, List, ◌+◌, ◌*◌, ◌%◌, ◌<◌, ◌≤◌, [], ◌∷◌, ◌++◌, OnOk, IfOk, codes, decimal, length, map, string_bytes};
ghost use Rattle.json.specs.Token.{begin_object, end_object};
ghost use Rattle.spot_terms.specs.Lists.{numbers_from};
ghost use Rattle.spot_claims.specs.Tree.{Element};
ghost use Rattle.sample_roads.specs.Accepted.{IsSample};
ghost use Rattle.spot_terms.specs.Samples.{body, car, hundredths, leaf, mover, problem, roads, sample_text};
ghost use Rattle.sample_roads.specs.Written.{tokens_of, all_tokens, root_opening};

use crate::elements::{close, open, open_with_id, put_leaf};
use crate::generator::Generator;
use crate::lanes::put_lanelets;
use crate::things::{put_body, put_start};
use itoa::Buffer;
use json::Writer;
use std::alloc::{AllocError, Global};

// A number of hundredths, with two decimals.
fn text_of_hundredths(alloc: Global, n: u32) -> Result<String, AllocError>
    ensures { IfOk result (λ text. string_bytes text ≡ hundredths n) }
{
    format!(in alloc; "{}.{}{}", n / 100, n / 10 % 10, n % 10)
}

// A car's type and shape.
fn put_car(out: &mut Writer) -> Result<(), AllocError>
    ensures before { out.new.before ≡ out.old.before }
    ensures tokens { OnOk result (out.new.tokens ≡ out.old.tokens ++ (tokens_of (leaf (codes "type") (codes "car")) ++ tokens_of body)) }
{
    put_leaf(out, "type", "car")?;
    put_body(out)
}

fn put_mover(
    alloc: Global,
    out: &mut Writer,
    lanes: u32,
    m: u32,
    place: u64,
    pace: u64,
) -> Result<(), AllocError>
    requires some { 0 < lanes }
    requires few { lanes ≤ 8 }
    requires crowd { m < 1000 }
    ensures before { out.new.before ≡ out.old.before }
    ensures tokens { OnOk result (out.new.tokens ≡ out.old.tokens ++ tokens_of (car lanes m place pace)) }
{
    let y = text_of_hundredths(alloc, 350 * (m % lanes) + 175)?;
    let mut x = Buffer::new();
    let mut speed = Buffer::new();
    let mut digits = Buffer::new();
    open_with_id(out, "dynamicObstacle", digits.format(1001 + m))?;
    put_car(out)?;
    put_start(out, x.format(place), y.as_str(), speed.format(pace))?;
    close(out)
}

// What moves, drawn one after another.
fn put_movers(
    alloc: Global,
    out: &mut Writer,
    seed: u32,
    lanes: u32,
    movers: u32,
) -> Result<(), AllocError>
    requires some { 0 < lanes }
    requires few { lanes ≤ 8 }
    requires crowd { movers ≤ 1000 }
    ensures before { out.new.before ≡ out.old.before }
    ensures tokens { OnOk result (out.new.tokens ≡ out.old.tokens ++ all_tokens (map (mover seed lanes) (numbers_from 0 movers))) }
{
    let mut random = Generator::new(seed);
    for m in 0..movers {
        let place = random.draw(400);
        let pace = 20 + random.draw(16);
        put_mover(alloc, out, lanes, m, place, pace)?;
    }
    Ok(())
}

fn put_problem(out: &mut Writer) -> Result<(), AllocError>
    ensures before { out.new.before ≡ out.old.before }
    ensures tokens { OnOk result (out.new.tokens ≡ out.old.tokens ++ tokens_of problem) }
{
    open_with_id(out, "planningProblem", "1")?;
    put_start(out, "200", "1.75", "30")?;
    close(out)
}

// Begins the root, with the version and a step of 0.1 s.
fn open_root(out: &mut Writer) -> Result<(), AllocError>
    ensures before { out.new.before ≡ out.old.before }
    ensures tokens { OnOk result (out.new.tokens ≡ out.old.tokens ++ root_opening) }
{
    open(out, "commonRoad")?;
    out.begin_object()?;
    out.key("commonRoadVersion")?;
    out.string("2020a")?;
    out.key("timeStepSize")?;
    out.string("0.1")?;
    out.end_object()
}

fn put_roads(
    alloc: Global,
    out: &mut Writer,
    seed: u32,
    lanes: u32,
    movers: u32,
) -> Result<(), AllocError>
    requires some { 0 < lanes }
    requires few { lanes ≤ 8 }
    requires crowd { movers ≤ 1000 }
    ensures before { out.new.before ≡ out.old.before }
    ensures tokens { OnOk result (out.new.tokens ≡ out.old.tokens ++ tokens_of (roads seed lanes movers)) }
{
    open_root(out)?;
    put_lanelets(alloc, out, lanes)?;
    put_movers(alloc, out, seed, lanes, movers)?;
    put_problem(out)?;
    close(out)
}

/// A scenario that is made of a number: its text, as it would be read. It has a straight road of 400 m with 1 to 8 lanes side
/// by side, each 3.5 m wide; at most 1,000 cars in the middle of its lanes, whose places and speeds are drawn from the seed;
/// and a planning problem on the rightmost lane. The same seed, lanes and movers give the same text. It has at most 1,000,000
/// bytes, and is the text of an element tree that no check refuses. The only error is want of memory.
pub fn make(alloc: Global, seed: u32, lanes: u32, movers: u32) -> Result<Vec<u8>, AllocError>
    requires some { 0 < lanes }
    requires few { lanes ≤ 8 }
    requires crowd { movers ≤ 1000 }
    ensures text { IfOk result (λ bytes. bytes.items ≡ sample_text seed lanes movers) }
    ensures short { IfOk result (λ bytes. length bytes.items ≤ 1_000_000) }
    ensures accepted { IfOk result (λ bytes. (tree : List Element) × IsSample bytes.items tree) }
{
    let mut out = Writer::new(Vec::new(alloc));
    put_roads(alloc, &mut out, seed, lanes, movers)?;
    Ok(out.into_inner())
}
