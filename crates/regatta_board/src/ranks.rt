//! The boats' ranks after each race that counts.
ghost use Rattle.std.specs.Prelude.{◌≡◌, ◌≤◌, length, map, IfOk};
ghost use Rattle.std.specs.List.{range_with_len};
ghost use Rattle.regatta_scores.specs.Journal.{scored};
ghost use Rattle.regatta_board.specs.RanksAfter.{ranks_after as ranks_after_of};
ghost use Rattle.regatta_board.specs.RanksAfter.{ranks_after_each as ranks_after_each_of};

use crate::board::Board;
use regatta_scores::Items;
use regatta_terms::Sail;
use std::alloc::{AllocError, Global};

/// A boat's rank after a race.
#[derive(Clone, Copy)]
pub struct BoatRank {
    /// The boat.
    pub sail: Sail,
    /// One more than the number of boats that beat her.
    pub rank: u16,
    /// Whether another boat has this rank.
    pub tied: bool,
}

impl Board {
    /// The ranks of all boats after each race that counts, in the order of the table: those of the
    /// table if no later race counted (RRS A2.1, A8, A9).
    ///
    /// # Errors
    ///
    /// If memory runs out.
    pub fn ranks_after_each(&self, alloc: Global) -> Result<Items<Items<BoatRank>>, AllocError>
        ensures { IfOk result (λ all. all
            ≡ ranks_after_each_of self.now.rules self.now.entries) }
    {
        let all = self.all_ranks(alloc, self.scoring().races().len())?;
        Ok(Items::new(all))
    }

    /// The ranks after each of the first races that count, as many as given.
    fn all_ranks(&self, alloc: Global, many: usize) -> Result<Vec<Items<BoatRank>>, AllocError>
        requires { many ≤ length (scored self.now.entries) }
        ensures { IfOk result (λ all. all.items
            ≡ map (ranks_after_of self.now.rules self.now.entries) (range_with_len 1 many)) }
    {
        let mut all = Vec::with_capacity(alloc, many)?;
        for i in 0..many {
            all.push(self.ranks_after(alloc, i + 1)?)?;
        }
        Ok(all)
    }

    /// The ranks after the first races that count, as many as given.
    fn ranks_after(&self, alloc: Global, many: usize) -> Result<Items<BoatRank>, AllocError>
        requires { many ≤ length (scored self.now.entries) }
        ensures { IfOk result (λ ranks.
            ranks ≡ ranks_after_of self.now.rules self.now.entries many) }
    {
        let ranks = self
            .scoring()
            .ranks(alloc, self.kept(), self.rules(), many)?;
        Ok(Items::new(ranks))
    }
}
