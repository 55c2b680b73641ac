//! A board, one for each unit, on which is kept who did an item.
ghost use Rattle.std.specs.Prelude.{◌≡◌, ◌≢◌, ℕ, None, Some, OnOk, OnErr};
ghost use Rattle.wf_worklist.specs.Boards.{worker_at};

use std::alloc::Global;
use std::collections::HashMap;
use wf_model::NoMemory;

/// Which worker each item was last assigned to.
#[derive(Drop)]
pub struct Board {
    workers: HashMap<u32, u32>,
}

impl Board {
    /// No item is assigned. Takes no memory.
    pub fn new(alloc: Global) -> Board
        ensures { (number : ℕ) → worker_at result number ≡ None }
    {
        Board {
            workers: HashMap::new(alloc),
        }
    }

    /// This worker has the item with this number from now on, whoever had it before. In constant time on average. After
    /// `NoMemory` the item is with whom it was.
    pub fn assign(&mut self, worker: u32, number: u32) -> Result<(), NoMemory>
        ensures ok { OnOk result (worker_at self.new number ≡ Some worker) }
        ensures others { (other : ℕ) → other ≢ number → worker_at self.new other ≡ worker_at self.old other }
        ensures err { OnErr result (worker_at self.new number ≡ worker_at self.old number) }
    {
        self.workers.insert(number, worker)?;
        Ok(())
    }

    /// Who has the item with this number, if it was assigned. Takes no memory. In constant time on average.
    pub fn worker_of(&self, number: u32) -> Option<u32>
        ensures { result ≡ worker_at self.now number }
    {
        self.workers.get(&number).copied()
    }
}
