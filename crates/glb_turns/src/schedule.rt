//! Which place's turn it is.
ghost use Rattle.std.specs.Prelude.{◌≡◌, ℕ, ◌+◌, ◌%◌, ◌^◌, get_or};

/// Numbers without end, each for one turn.
pub trait Schedule: Drop {
    /// The number that it answers after so many further calls.
    ghost will: { Self → ℕ → ℕ };

    /// The number of the next turn.
    fn turn(&mut self) -> u32
        ensures number { result ≡ will self.old 0 }
        ensures later { (k : ℕ) → will self.new k ≡ will self.old (k + 1) };
}

/// The numbers 0, 1, 2 and so on, and 0 again after the last one of 32 bits.
#[derive(Debug, Drop)]
pub struct Rounds {
    next: u32,
}

impl Rounds {
    /// The numbers from 0 on.
    pub fn new() -> Rounds
        ensures { (k : ℕ) → ⟦<Rounds as Schedule>⟧.will result k ≡ k % 2 ^ 32 }
    {
        Rounds { next: 0 }
    }
}

impl Schedule for Rounds {
    ghost use Rattle.std.specs.Prelude.{◌+◌, ◌%◌, ◌^◌};

    ghost will = { λ rounds k. (rounds.next + k) % 2 ^ 32 };

    fn turn(&mut self) -> u32 {
        let number = self.next;
        self.next = number.wrapping_add(1);
        number
    }
}

/// The members of a list in their order, and 0 after the last one.
#[derive(Debug, Drop)]
pub struct Listed {
    list: Vec<u32>,
    next: usize,
}

impl Listed {
    /// The members of the list from the first one on.
    pub fn new(list: Vec<u32>) -> Listed
        ensures { (k : ℕ) → ⟦<Listed as Schedule>⟧.will result k ≡ get_or list.items k 0 }
    {
        Listed { list, next: 0 }
    }
}

impl Schedule for Listed {
    ghost use Rattle.std.specs.Prelude.{◌+◌, get_or};

    ghost will = { λ listed k. get_or listed.list.items (listed.next + k) 0 };

    fn turn(&mut self) -> u32 {
        match self.list.get(self.next) {
            Some(number) => {
                self.next += 1;
                *number
            }
            None => 0,
        }
    }
}
