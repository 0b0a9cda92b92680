//! Makes the lifeline graph.
ghost use Rattle.std.specs.Prelude.{◌≡◌, ◌<◌, ◌≤◌, IfOk, OnOk, ◌++◌, map};
ghost use Rattle.std.specs.List.{range_with_len};
ghost use Rattle.glb_cube.specs.Digits.{targets, one_of};
ghost use Rattle.glb_cube.specs.Lines.{IsDimension, cube_of, ins_of, ins_below};
ghost use Rattle.glb_laws.specs.Numbers.{has_number};

use super::lines::Lines;
use super::shape::Shape;
use glb_laws::NoMemory;
use std::alloc::Global;

fn push_target(out: &mut Vec<u32>, target: Option<u32>) -> Result<(), NoMemory>
    ensures { OnOk result (out.new.items ≡ out.old.items ++ one_of target) }
{
    if let Some(q) = target {
        out.push(q)?;
    }
    Ok(())
}

/// Where the place's lifelines lead, by rising dimension.
fn targets_of(alloc: Global, shape: Shape, place: u32) -> Result<Vec<u32>, NoMemory>
    requires { place < shape.places }
    ensures { IfOk result (λ v. v.items ≡ targets shape.places shape.base 1 shape.dimension place) }
{
    let mut out = Vec::new(alloc);
    let mut unit = 1;
    for _i in 0..shape.dimension {
        push_target(&mut out, shape.target(unit, place))?;
        unit *= shape.base;
    }
    Ok(out)
}

fn all_targets(alloc: Global, shape: Shape) -> Result<Vec<Vec<u32>>, NoMemory>
    ensures { IfOk result (λ v. map (λ w. w.items) v.items ≡
        map (λ p. targets shape.places shape.base 1 shape.dimension p)
        (range_with_len 0 shape.places)) }
{
    let mut all = Vec::new(alloc);
    for place in 0..shape.places {
        all.push(targets_of(alloc, shape, place)?)?;
    }
    Ok(all)
}

fn has(list: &[u32], number: u32) -> bool
    ensures { result ≡ has_number number list.now }
{
    for x in list {
        if *x == number {
            return true;
        }
    }
    false
}

/// The places that have a lifeline to this one, by rising number.
fn sources_of(
    alloc: Global,
    outs: &[Vec<u32>],
    shape: Shape,
    place: u32,
) -> Result<Vec<u32>, NoMemory>
    requires outs { map (λ w. w.items) outs.now ≡
        map (λ p. targets shape.places shape.base 1 shape.dimension p)
        (range_with_len 0 shape.places) }
    ensures { IfOk result (λ v. v.items ≡ ins_of
        (cube_of shape.places shape.base shape.dimension) place) }
{
    let mut ins = Vec::new(alloc);
    for p in 0..shape.places {
        if has(&outs[p as usize], place) {
            ins.push(p)?;
        }
    }
    Ok(ins)
}

fn all_sources(alloc: Global, outs: &[Vec<u32>], shape: Shape) -> Result<Vec<Vec<u32>>, NoMemory>
    requires outs { map (λ w. w.items) outs.now ≡
        map (λ p. targets shape.places shape.base 1 shape.dimension p)
        (range_with_len 0 shape.places) }
    ensures { IfOk result (λ v. map (λ w. w.items) v.items ≡
        map (λ p. ins_of (cube_of shape.places shape.base shape.dimension) p)
        (range_with_len 0 shape.places)) }
{
    let mut all = Vec::new(alloc);
    for place in 0..shape.places {
        all.push(sources_of(alloc, outs, shape, place)?)?;
    }
    Ok(all)
}

/// The lifeline graph of so many places, whose numbers are written in this base. A greater base
/// gives fewer lifelines and longer ways.
pub fn cube(alloc: Global, places: u32, base: u32) -> Result<Lines, NoMemory>
    requires places { (1 ≤ places) × (places ≤ 64) }
    requires base { (2 ≤ base) × (base ≤ 64) }
    ensures places { IfOk result (λ l. l.places ≡ places) }
    ensures base { IfOk result (λ l. l.base ≡ base) }
    ensures dimension { IfOk result (λ l. IsDimension places base l.dimension) }
{
    let shape = Shape::new(places, base);
    let outs = all_targets(alloc, shape)?;
    let ins = all_sources(alloc, &outs, shape)?;
    Ok(Lines { shape, outs, ins })
}
