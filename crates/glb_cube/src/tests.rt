//! Known lifeline graphs and ways.
use super::{Lines, cube};
use std::test::Fail;

fn text(rt: &HostRuntime, lines: &Lines) -> Result<String, Fail> {
    let mut text = String::new(rt.alloc());
    for place in 0..lines.places() {
        text.push_str(&format!(in rt.alloc();
            "{place} {:?} {:?}; ",
            lines.out(place),
            lines.into(place)
        )?)?;
    }
    Ok(text)
}

#[test]
fn small_graphs_have_known_lifelines(rt: HostRuntime) -> Result<(), Fail> {
    let five = cube(rt.alloc(), 5, 2)?;
    assert_eq!(rt; five.dimension(), 3);
    assert_eq!(rt;
        text(&rt, &five)?.as_str(),
        "0 [1, 2, 4] [1, 2, 4]; 1 [0, 3] [0, 3]; 2 [3, 0] [0, 3]; 3 [2, 1] [1, 2]; 4 [0] [0]; "
    );
    let seven = cube(rt.alloc(), 7, 3)?;
    assert_eq!(rt; seven.dimension(), 2);
    assert_eq!(rt;
        text(&rt, &seven)?.as_str(),
        "0 [1, 3] [2, 6]; 1 [2, 4] [0, 4]; 2 [0, 5] [1, 5]; 3 [4, 6] [0, 5]; 4 [5, 1] [1, 3]; 5 [3, 2] [2, 4]; 6 [0] [3]; "
    );
    let one = cube(rt.alloc(), 1, 2)?;
    assert_eq!(rt; one.dimension(), 1);
    assert_eq!(rt; text(&rt, &one)?.as_str(), "0 [] []; ");
    let nine = cube(rt.alloc(), 9, 3)?;
    assert_eq!(rt; nine.out(8), [6, 2].as_slice());
    Ok(())
}

#[test]
fn known_ways_are_taken(rt: HostRuntime) -> Result<(), Fail> {
    let five = cube(rt.alloc(), 5, 2)?;
    assert_eq!(rt;
        five.way(rt.alloc(), 4, 3)?.as_slice(),
        [4, 0, 1, 3].as_slice()
    );
    let one = cube(rt.alloc(), 1, 2)?;
    assert_eq!(rt; one.way(rt.alloc(), 0, 0)?.as_slice(), [0].as_slice());
    let cycle = cube(rt.alloc(), 64, 64)?;
    assert_eq!(rt; cycle.dimension(), 1);
    assert_eq!(rt; cycle.out(63), [0].as_slice());
    assert_eq!(rt;
        cycle.way(rt.alloc(), 63, 0)?.as_slice(),
        [63, 0].as_slice()
    );
    let mut round = Vec::new(rt.alloc());
    for place in 1..64 {
        round.push(place)?;
    }
    round.push(0)?;
    assert_eq!(rt; cycle.way(rt.alloc(), 1, 0)?.as_slice(), round.as_slice());
    Ok(())
}

/// What another program counted over the graphs of 1 to 64 places.
#[derive(Drop)]
struct Totals {
    base: u32,
    lines: u64,
    steps: u64,
    longest: usize,
}

fn add_lines(totals: &mut Totals, lines: &Lines) {
    for place in 0..lines.places() {
        totals.lines = totals.lines.wrapping_add(lines.out(place).len() as u64);
    }
}

fn add_ways(rt: &HostRuntime, totals: &mut Totals, lines: &Lines) -> Result<(), Fail> {
    for a in 0..lines.places() {
        for b in 0..lines.places() {
            let steps = lines.way(rt.alloc(), a, b)?.len() - 1;
            totals.steps = totals.steps.wrapping_add(steps as u64);
            totals.longest = totals.longest.max(steps);
        }
    }
    Ok(())
}

#[test]
fn all_graphs_have_the_counted_lifelines_and_steps(rt: HostRuntime) -> Result<(), Fail> {
    for counted in [
        Totals {
            base: 2,
            lines: 10_464,
            steps: 253_728,
            longest: 6,
        },
        Totals {
            base: 3,
            lines: 7_290,
            steps: 309_898,
            longest: 8,
        },
        Totals {
            base: 5,
            lines: 5_527,
            steps: 400_615,
            longest: 10,
        },
        Totals {
            base: 64,
            lines: 2_079,
            steps: 2_118_480,
            longest: 63,
        },
    ] {
        let mut totals = Totals {
            base: counted.base,
            lines: 0,
            steps: 0,
            longest: 0,
        };
        for places in 1..65 {
            let lines = cube(rt.alloc(), places, counted.base)?;
            add_lines(&mut totals, &lines);
            add_ways(&rt, &mut totals, &lines)?;
        }
        assert_eq!(rt; totals.lines, counted.lines);
        assert_eq!(rt; totals.steps, counted.steps);
        assert_eq!(rt; totals.longest, counted.longest);
    }
    Ok(())
}
