//! The tree of boards, as a program.
ghost use Rattle.std.specs.Prelude.{◌≡◌, ℕ, ◌^◌, ◌-◌, ◌+◌, ◌<◌, ◌≤◌, ◌==◌, true, min, List, [], ◌∷◌, ◌++◌, length, map, OnOk, OnErr, IfOk, IfErr, cond, vec_len, vec_capacity};
ghost use Rattle.std.specs.Int.{bit_at};
ghost use Rattle.glb_laws.specs.Bounded.{sat_sum};
ghost use Rattle.glb_laws.specs.Tree.{IsSmall, nodes, answer};
ghost use Rattle.glb_queens.specs.Boards.{IsEachBoardOnce, arrangements, boards_below, count_full, is_free, value_of};
ghost use Rattle.glb_queens.specs.inner.Masks.{columns_in};
ghost use Rattle.glb_queens.specs.Boards.{value_is_proper};

use super::board::Board;
use glb_laws::{Monoid, NoMemory, Program, SatSum};
use std::marker::Model;
use std::mem;

/// Placements of n queens, for n from 1 to 16.
#[derive(Clone, Copy)]
pub struct Queens {
    n: u32,
}

impl Model for Queens {
    ghost use Rattle.std.specs.Prelude.{ℕ, ◌<◌, ◌≤◌};

    ghost Value = { ℕ };

    ghost view = { λ q. q.n };

    ghost invariant = { λ q. (1 ≤ q.n) × (q.n ≤ 16) };

    ghost inverse = { λ n. record { n = n } };
}

impl Queens {
    /// The placements of n queens on a board of n rows and columns.
    pub fn new(n: u32) -> Queens
        requires { (1 ≤ n) × (n ≤ 16) }
        ensures { result ≡ n }
    {
        Queens { n }
    }

    /// The board without queens. The nodes of its tree are the safe lists of at most n columns
    /// below n, each once, and the answer is how many of them have n columns.
    pub fn root(&self) -> Board
        ensures root { result ≡ [] }
        ensures nodes { (most : ℕ) → self.now ≤ most
            → IsEachBoardOnce self.now (nodes (boards_below self.now) (result ∷ []) most) }
        ensures small { IsSmall (boards_below self.now) (result ∷ []) (arrangements self.now) }
        ensures bound { arrangements self.now < 2 ^ 46 }
        ensures answer { (most : ℕ)
            → answer (boards_below self.now) (value_of self.now) ⟦<SatSum as Monoid>⟧.unit
            ⟦<SatSum as Monoid>⟧.combine (result ∷ []) most
            ≡ sat_sum (count_full self.now (nodes (boards_below self.now) (result ∷ []) most)) }
    {
        let _n = self.n;
        Board::empty()
    }
}

impl Program for Queens {
    type Item = Board;

    type Value = SatSum;

    ghost children = { λ n columns. boards_below n columns };

    ghost value = { λ n columns. value_of n columns };

    // Part of the loop of a bag, which as a call takes half as long again.
    #[inline(always)]
    fn expand(&self, board: &Board, out: &mut Vec<Board>) -> Result<SatSum, NoMemory> {
        if board.rows() < self.n {
            push_boards(board, board.free_columns(self.n), out)?;
            return Ok(SatSum(0));
        }
        Ok(SatSum((board.rows() == self.n) as u64))
    }

    ghost value_proper = { value_is_proper };
}

/// A list with room for the boards that stand one row below a board, or the list itself.
// It takes the list by value, and stands apart: a list that is lent to a call stays in memory.
#[inline(never)]
fn with_room(boards: Vec<Board>) -> Result<Vec<Board>, Vec<Board>>
    ensures items { IfOk result (λ roomy. roomy.items ≡ boards.items) }
    ensures room { IfOk result (λ roomy. vec_len roomy + 16 ≤ vec_capacity roomy) }
    ensures refused { IfErr result (λ full. full.items ≡ boards.items) }
{
    let mut boards = boards;
    match boards.reserve(16) {
        Ok(()) => Ok(boards),
        Err(_) => Err(boards),
    }
}

#[inline(always)]
fn take_room(out: &mut Vec<Board>) -> Result<(), NoMemory>
    ensures items { out.new.items ≡ out.old.items }
    ensures room { OnOk result (vec_len out.new + 16 ≤ vec_capacity out.new) }
{
    if out.capacity() - out.len() >= 16 {
        return Ok(());
    }
    let alloc = *out.allocator();
    match with_room(mem::replace(out, Vec::new(alloc))) {
        Ok(roomy) => {
            *out = roomy;
            Ok(())
        }
        Err(full) => {
            *out = full;
            Err(NoMemory)
        }
    }
}

/// Appends the board with a further queen in each free column, the lowest bit first.
#[inline(always)]
fn push_boards(board: &Board, free: u32, out: &mut Vec<Board>) -> Result<(), NoMemory>
    requires rows { length board.now < 16 }
    requires free { (column : ℕ) → bit_at free column ≡ 1
        → (column < 16) × (is_free board.now column ≡ true) }
    ensures appended { OnOk result (out.new.items
        ≡ out.old.items ++ map (λ column. board.now ++ column ∷ []) (columns_in free)) }
    ensures unchanged { OnErr result (out.new.items ≡ out.old.items) }
{
    let mut left = free;
    if left == 0 {
        return Ok(());
    }
    take_room(out)?;
    'columns: while left != 0 {
        let column = left.trailing_zeros();
        left &= left - 1;
        out.push_reserved(board.with_queen(column));
    }
    Ok(())
}
