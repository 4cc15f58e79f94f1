//! An object that adds amounts up to a limit.
ghost use Rattle.std.specs.Prelude.{◌≡◌, ◌≤◌, [], length};

use share_turn::Object;
use std::alloc::Global;
use std::marker::Model;

/// An amount from 0 to 1,000.
#[derive(Clone, Copy, Drop)]
pub struct Amount {
    pub value: u64,
    ghost in_range: { value ≤ 1000 },
}

/// Why an amount was not added.
#[derive(Debug, Clone, Copy, PartialEq, Eq, Drop)]
pub enum Refusal {
    /// The sum with the amount would pass the limit.
    Over { sum: u64, limit: u64 },
    Memory,
}

/// Adds amounts up to its limit, and keeps each with who asked.
#[derive(Drop)]
pub struct Adder {
    limit: u64,
    sum: u64,
    entries: Vec<(u64, Amount)>,
}

impl Model for Adder {
    ghost use Rattle.std.specs.Prelude.{◌≡◌, ◌≤◌};
    ghost use Rattle.floor_tests.specs.Sums.{Ledger, total};

    ghost Value = { Ledger };

    ghost view = { λ a. record { limit = a.limit; log = a.entries.items } };

    ghost invariant = { λ a. (a.sum ≡ total a.entries.items) × (a.sum ≤ a.limit) };
}

impl Amount {
    /// The amount, of at most 1,000.
    pub fn new(value: u64) -> Amount
        requires { value ≤ 1000 }
        ensures { result.value ≡ value }
    {
        Amount { value }
    }
}

impl Adder {
    /// Nothing is added yet.
    pub fn new(alloc: Global, limit: u64) -> Adder
        ensures limit { result.limit ≡ limit }
        ensures empty { result.log ≡ [] }
    {
        Adder {
            limit,
            sum: 0,
            entries: Vec::new(alloc),
        }
    }

    /// How many amounts were added.
    pub fn count(&self) -> usize
        ensures { result ≡ length self.now.log }
    {
        self.entries.len()
    }
}

impl Object for Adder {
    ghost use Rattle.floor_tests.specs.Sums.{IsRight};

    type Setup = u64;

    type Event = Amount;

    type Answer = u64;

    type Fault = Refusal;

    ghost setup = { λ a. a.limit };

    ghost history = { λ a. a.log };

    ghost right = { IsRight };

    /// Answers the sum before, and adds the amount.
    fn step(&mut self, _alloc: Global, who: u64, event: Amount) -> Result<u64, Refusal> {
        let sum = self.sum;
        if event.value > self.limit - sum {
            let limit = self.limit;
            return Err(Refusal::Over { sum, limit });
        }
        if self.entries.push((who, event)).is_err() {
            return Err(Refusal::Memory);
        }
        self.sum = sum + event.value;
        Ok(sum)
    }
}
