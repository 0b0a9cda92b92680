//! Victims, first sights and decisions.
use crate::{Action, Credit, Edge, Event, Kind, Mark, Phase, PlaceState, Seen, next, victim};
use glb_cube::cube;
use std::test::Fail;

#[test]
fn a_word_gives_one_of_the_other_places(rt: HostRuntime) {
    assert_eq!(rt; victim(0, 4, 0), 1);
    assert_eq!(rt; victim(4294967295, 4, 0), 3);
    assert_eq!(rt; victim(4294967295, 4, 3), 2);
}

#[test]
fn a_place_begins_with_refused_lines(rt: HostRuntime) -> Result<(), Fail> {
    let lines = cube(rt.alloc(), 3, 2)?;
    let seen = Seen::new(rt.alloc(), 0, &lines)?;
    let mut text = String::new(rt.alloc());
    for edge in &seen.ins {
        let name = format!(in rt.alloc();
            "{} {:?} {:?} {:?}; ",
            edge.thief, edge.kind, edge.mark, edge.edge
        )?;
        text.push_str(&name)?;
    }
    assert_eq!(rt;
        text.as_str(),
        "1 Steal Unseen Idle; 2 Steal Unseen Idle; 1 Line Unseen Refused; 2 Line Unseen Refused; "
    );
    let mut next_victim = 1;
    for line in &seen.outs {
        assert_eq!(rt; (line.victim, line.edge), (next_victim, Edge::Refused));
        next_victim = 2;
    }
    assert_eq!(rt;
        (seen.waited, seen.ended, seen.stop),
        (Edge::Idle, false, 0)
    );
    Ok(())
}

fn look_at_all(seen: &mut Seen) {
    for edge in &mut seen.ins {
        edge.mark = Mark::Clear;
    }
}

fn find_lines(seen: &mut Seen, state: Edge) {
    for line in &mut seen.outs {
        line.edge = state;
    }
}

#[test]
fn a_place_does_what_the_first_row_says(rt: HostRuntime) -> Result<(), Fail> {
    let lines = cube(rt.alloc(), 2, 2)?;
    let mut seen = Seen::new(rt.alloc(), 0, &lines)?;
    let working = PlaceState {
        place: 0,
        phase: Phase::Working,
        credit: Credit::One,
        tries: 0,
        victim: 1,
        size: 2,
    };
    let look = Event::Look {
        place: 0,
        thief: 1,
        kind: Kind::Steal,
    };
    assert_eq!(rt; next(&working, &seen), Action::Do(look));
    look_at_all(&mut seen);
    assert_eq!(rt; next(&working, &seen), Action::Do(Event::Mint { place: 0 }));
    let small = PlaceState { size: 1, ..working };
    assert_eq!(rt; next(&small, &seen), Action::Do(Event::Batch { place: 0 }));
    let idle = PlaceState {
        phase: Phase::Idle,
        size: 0,
        ..working
    };
    assert_eq!(rt; next(&idle, &seen), Action::Do(Event::Sleep { place: 0 }));
    find_lines(&mut seen, Edge::Idle);
    let ask = Event::Ask {
        place: 0,
        victim: 1,
        kind: Kind::Line,
    };
    assert_eq!(rt; next(&idle, &seen), Action::Do(ask));
    find_lines(&mut seen, Edge::Loot);
    let take = Event::Take {
        place: 0,
        victim: 1,
        kind: Kind::Line,
    };
    assert_eq!(rt; next(&idle, &seen), Action::Do(take));
    let asleep = PlaceState {
        phase: Phase::Asleep,
        credit: Credit::Zero,
        ..idle
    };
    assert_eq!(rt; next(&asleep, &seen), Action::Do(take));
    find_lines(&mut seen, Edge::Refused);
    assert_eq!(rt; next(&asleep, &seen), Action::Poll);
    seen.ended = true;
    assert_eq!(rt; next(&asleep, &seen), Action::Do(Event::Leave { place: 0 }));
    Ok(())
}
