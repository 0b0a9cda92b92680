//! Boards of few rows, walked by expansion alone.
ghost use Rattle.std.specs.Prelude.{◌≤◌};

use super::Queens;
use glb_laws::{Program, SatSum};
use std::alloc::Global;
use std::test::Fail;

#[test]
fn the_root_is_the_empty_board(rt: HostRuntime) {
    let queens = Queens::new(4);
    let root = queens.root();
    let none: [u8; 0] = [];
    assert_eq!(rt; root.columns(), none.as_slice());
}

#[test]
fn the_empty_board_has_a_child_for_each_column(rt: HostRuntime) -> Result<(), Fail> {
    let queens = Queens::new(4);
    let mut out = Vec::new(rt.alloc());
    match queens.expand(&queens.root(), &mut out) {
        Ok(value) => assert_eq!(rt; value, SatSum(0)),
        Err(_) => return Err(Fail::from("no memory")),
    }
    assert_eq!(rt; out.len(), 4);
    let mut column = 0u8;
    for board in &out {
        assert_eq!(rt; board.columns(), [column].as_slice());
        column = column.wrapping_add(1);
    }
    Ok(())
}

// The number of boards, and their value together.
fn walk(alloc: Global, n: u32) -> Result<(u64, u64), Fail>
    requires { (1 ≤ n) × (n ≤ 16) }
{
    let queens = Queens::new(n);
    let mut left = Vec::new(alloc);
    left.push(queens.root())?;
    let mut items = 0u64;
    let mut full = 0u64;
    for _ in 0..1000000 {
        let Some(board) = left.pop() else {
            return Ok((items, full));
        };
        items = items.wrapping_add(1);
        match queens.expand(&board, &mut left) {
            Ok(value) => full = full.wrapping_add(value.0),
            Err(_) => return Err(Fail::from("no memory")),
        }
    }
    Err(Fail::from("a million boards and more"))
}

#[test]
fn queens_of_few_rows_have_the_known_numbers(rt: HostRuntime) -> Result<(), Fail> {
    let rows = [
        (1, 2, 1),
        (2, 3, 0),
        (3, 6, 0),
        (4, 17, 2),
        (5, 54, 10),
        (6, 153, 4),
        (7, 552, 40),
        (8, 2057, 92),
        (9, 8394, 352),
        (10, 35539, 724),
    ];
    for (n, items, placements) in rows {
        if 1 <= n && n <= 16 {
            assert_eq!(rt; walk(rt.alloc(), n)?, (items, placements));
        }
    }
    Ok(())
}
