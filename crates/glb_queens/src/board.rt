//! A board with a queen in each of its first rows. Beside the columns it keeps three masks, one bit
//! a column: those that have a queen, and those of the next row that queens attack along a
//! diagonal.
ghost use Rattle.std.specs.Prelude.{◌≡◌, ℕ, ◌+◌, ◌<◌, ◌==◌, ◌&&◌, true, List, [], ◌∷◌, ◌++◌, length, nat_lt, slice_set};
ghost use Rattle.std.specs.Int.{bit_at};
ghost use Rattle.glb_queens.specs.Boards.{IsSafe, is_free};

use std::marker::Model;
use std::simd::prelude::*;

/// Queens of which none attacks another, by the column of the queen of each row.
// The four numbers do not lie side by side, or the compiler would read them back as one of 16
// bytes, and such a load has to wait for four stores of 4 bytes.
#[derive(Clone, Copy)]
pub struct Board {
    rows: u32,
    taken: u32,
    columns: [u8; 16],
    rising: u32,
    falling: u32,
}

impl Model for Board {
    ghost use Rattle.std.specs.Prelude.{ℕ, List, take};

    ghost Value = { List ℕ };

    ghost use Rattle.glb_queens.specs.inner.Masks.{IsKept, fields_of, same_fields};

    ghost view = { λ b. take b.rows b.columns };

    ghost invariant = { IsKept };

    ghost inverse = { fields_of };

    ghost inverse_ok = { same_fields };
}

impl Board {
    /// A board without queens.
    pub(crate) fn empty() -> Board
        ensures { result ≡ [] }
    {
        Board {
            rows: 0,
            taken: 0,
            columns: [0; 16],
            rising: 0,
            falling: 0,
        }
    }

    /// The column of the queen of each row.
    pub fn columns(&self) -> &[u8]
        ensures columns { result.now ≡ self.now }
        ensures safe { IsSafe self.now }
    {
        &self.columns[..self.rows as usize]
    }

    #[inline(always)]
    pub(crate) fn rows(&self) -> u32
        ensures { result ≡ length self.now }
    {
        self.rows
    }

    /// The columns of the next row, below `n`, that no queen attacks, one bit a column.
    #[inline(always)]
    pub(crate) fn free_columns(&self, n: u32) -> u32
        requires { n < 17 }
        ensures { (column : ℕ)
            → (bit_at result column == 1) ≡ (nat_lt column n && is_free self.now column) }
    {
        !(self.taken | self.rising | self.falling) & ((1u32 << n) - 1)
    }

    /// The board with a further queen, in the next row.
    #[inline(always)]
    pub(crate) fn with_queen(&self, column: u32) -> Board
        requires rows { length self.now < 16 }
        requires column { column < 16 }
        requires free { is_free self.now column ≡ true }
        ensures { result ≡ self.now ++ column ∷ [] }
    {
        let queen = 1u32 << column;
        Board {
            rows: self.rows + 1,
            taken: self.taken | queen,
            columns: with_column(self.columns, self.rows, column),
            rising: (self.rising | queen) << 1,
            falling: (self.falling | queen) >> 1,
        }
    }
}

/// The byte is put in within a register: a load of all 16 after a store of one would wait for it.
#[inline(always)]
fn with_column(columns: [u8; 16], row: u32, column: u32) -> [u8; 16]
    requires row { row < 16 }
    requires column { column < 16 }
    ensures { result ≡ slice_set columns row column }
{
    let rows = u8x16::from_array([0, 1, 2, 3, 4, 5, 6, 7, 8, 9, 10, 11, 12, 13, 14, 15]);
    let here = rows.simd_eq(u8x16::splat(row as u8));
    here.select(u8x16::splat(column as u8), u8x16::from_array(columns))
        .to_array()
}
