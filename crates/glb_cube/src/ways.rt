//! Ways between places. Each function appends the places that it reaches to `way`, and answers the
//! last of them.
ghost use Rattle.std.specs.Prelude.{◌≡◌, ◌+◌, ◌-◌, ◌*◌, ◌++◌, ◌<◌, ◌≤◌, IfOk, length};
ghost use Rattle.glb_cube.specs.Lines.{cube_of};
ghost use Rattle.glb_cube.specs.Ways.{last_of, walk, descent_in, ascent_in, descent, ascent};
ghost use Rattle.glb_cube.specs.Ways.{way_of};

use super::shape::Shape;
use glb_laws::NoMemory;
use std::alloc::Global;

/// Follows the lifelines of one dimension until the digit is `goal`.
fn follow(
    way: &mut Vec<u32>,
    shape: Shape,
    unit: u32,
    goal: u32,
    place: u32,
) -> Result<u32, NoMemory>
    requires unit { (1 ≤ unit) × (unit ≤ 64) }
    requires place { place < shape.places }
    ensures ok { IfOk result (λ q. way.new.items ≡
        way.old.items ++ walk shape.places shape.base unit goal place shape.base) }
    ensures last { IfOk result
        (λ q. q ≡ last_of place (walk shape.places shape.base unit goal place shape.base)) }
    ensures small { IfOk result (λ q. q < shape.places) }
{
    let mut reached = place;
    for _i in 0..shape.base {
        if shape.digit(unit, reached) == goal {
            return Ok(reached);
        }
        match shape.target(unit, reached) {
            Some(q) => {
                way.push(q)?;
                reached = q;
            }
            None => return Ok(reached),
        }
    }
    Ok(reached)
}

/// Brings the digit down to that of `b`, where it is higher.
fn descend_in(
    way: &mut Vec<u32>,
    shape: Shape,
    unit: u32,
    place: u32,
    b: u32,
) -> Result<u32, NoMemory>
    requires unit { (1 ≤ unit) × (unit ≤ 64) }
    requires place { place < shape.places }
    ensures ok { IfOk result (λ q. way.new.items ≡
        way.old.items ++ descent_in shape.places shape.base b unit place) }
    ensures last { IfOk result
        (λ q. q ≡ last_of place (descent_in shape.places shape.base b unit place)) }
    ensures small { IfOk result (λ q. q < shape.places) }
{
    let goal = shape.digit(unit, b);
    if goal < shape.digit(unit, place) {
        follow(way, shape, unit, goal, place)
    } else {
        Ok(place)
    }
}

/// Brings the digit up to that of `b`, where it is lower.
fn ascend_in(
    way: &mut Vec<u32>,
    shape: Shape,
    unit: u32,
    place: u32,
    b: u32,
) -> Result<u32, NoMemory>
    requires unit { (1 ≤ unit) × (unit ≤ 64) }
    requires place { place < shape.places }
    ensures ok { IfOk result (λ q. way.new.items ≡
        way.old.items ++ ascent_in shape.places shape.base b unit place) }
    ensures last { IfOk result
        (λ q. q ≡ last_of place (ascent_in shape.places shape.base b unit place)) }
    ensures small { IfOk result (λ q. q < shape.places) }
{
    let goal = shape.digit(unit, b);
    if shape.digit(unit, place) < goal {
        follow(way, shape, unit, goal, place)
    } else {
        Ok(place)
    }
}

/// Brings down every digit that is higher than that of `b`.
fn descend(way: &mut Vec<u32>, shape: Shape, place: u32, b: u32) -> Result<u32, NoMemory>
    requires place { place < shape.places }
    ensures ok { IfOk result (λ q. way.new.items ≡
        way.old.items ++ descent shape.places shape.base b 1 shape.dimension place) }
    ensures last { IfOk result
        (λ q. q ≡ last_of place (descent shape.places shape.base b 1 shape.dimension place)) }
    ensures small { IfOk result (λ q. q < shape.places) }
{
    let mut reached = place;
    let mut unit = 1;
    for _i in 0..shape.dimension {
        reached = descend_in(way, shape, unit, reached, b)?;
        unit *= shape.base;
    }
    Ok(reached)
}

/// Brings up every digit that is lower than that of `b`.
fn ascend(way: &mut Vec<u32>, shape: Shape, place: u32, b: u32) -> Result<(), NoMemory>
    requires place { place < shape.places }
    ensures { IfOk result (λ q. way.new.items ≡
        way.old.items ++ ascent shape.places shape.base b 1 shape.dimension place) }
{
    let mut reached = place;
    let mut unit = 1;
    for _i in 0..shape.dimension {
        reached = ascend_in(way, shape, unit, reached, b)?;
        unit *= shape.base;
    }
    Ok(())
}

/// The way from `a` to `b`, with both.
pub(crate) fn way_between(alloc: Global, shape: Shape, a: u32, b: u32) -> Result<Vec<u32>, NoMemory>
    requires { a < shape.places }
    ensures { IfOk result (λ w. w.items ≡ way_of
        (cube_of shape.places shape.base shape.dimension) a b) }
{
    let mut way = Vec::new(alloc);
    way.push(a)?;
    let reached = descend(&mut way, shape, a, b)?;
    ascend(&mut way, shape, reached, b)?;
    Ok(way)
}
