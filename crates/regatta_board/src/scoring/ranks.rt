//! The boats' ranks, if only the first races that count did.
ghost use Rattle.std.specs.Prelude.{◌≡◌, ◌≤◌, length, map, take, IfOk, IsPermutation};
ghost use Rattle.std.specs.List.{range_with_len};
ghost use Rattle.regatta_board.specs.RanksAfter.{boat_rank as boat_rank_of, rank_at};
ghost use Rattle.regatta_board.specs.Scoring.{IsScoring};
ghost use Rattle.regatta_board.specs.Table.{columns, in_order, races as races_of, rows, IsKept};

use crate::boats::Boats;
use crate::column::push_columns;
use crate::kept::Kept;
use crate::ranks::BoatRank;
use crate::scoring::{Scoring, whole_lines};
use crate::table::table_order;
use regatta_scores::{PerRace, Place, Ranking};
use regatta_terms::{RaceNo, Rules, Sail};
use std::alloc::{AllocError, Global};

/// A boat's rank, by her place.
fn boat_rank(sail: Sail, place: Place) -> BoatRank
    ensures { result ≡ record { sail = sail; rank = place.rank; tied = place.tied } }
{
    BoatRank {
        sail,
        rank: place.rank,
        tied: place.tied,
    }
}

/// The ranks of all boats, in the order of the table.
fn sorted_ranks(
    alloc: Global,
    ranking: &[u16],
    boats: &Boats,
    places: &[Place],
) -> Result<Vec<BoatRank>, AllocError>
    requires ranking { IsPermutation (range_with_len 0 (length boats.now)) ranking.now }
    requires places { length places.now ≡ length boats.now }
    ensures { IfOk result (λ ranks. ranks.items ≡ map (rank_at boats.now places.now)
        (in_order boats.now places.now (range_with_len 0 (length boats.now)))) }
{
    let order = table_order(alloc, ranking, boats, places)?;
    let mut ranks = Vec::with_capacity(alloc, order.len())?;
    for k in 0..order.len() {
        let boat = order[k];
        ranks.push_reserved(boat_rank(boats.at(boat), places[boat]));
    }
    Ok(ranks)
}

impl Scoring {
    /// The races that count.
    pub(crate) fn races(&self) -> &[RaceNo]
        ensures { result.now ≡ self.now.races }
    {
        self.races.as_slice()
    }

    /// The ranks of all boats if only the first races that count did, as many as given, in the
    /// order of the table.
    pub(crate) fn ranks(
        &self,
        alloc: Global,
        kept: &Kept,
        rules: &Rules,
        many: usize,
    ) -> Result<Vec<BoatRank>, AllocError>
        requires kept { IsKept kept.now }
        requires scoring { IsScoring rules.now kept.now self.now }
        requires many { many ≤ length self.now.races }
        ensures { IfOk result (λ ranks. ranks.items ≡ map boat_rank_of
            (rows rules.now kept.now.sails
            (columns rules.now kept.now.sheets (take many (races_of kept.now.counts))))) }
    {
        let mut found = PerRace::new();
        push_columns(&mut found, &self.columns, &self.races()[..many]);
        let lines = whole_lines(alloc, &found, kept.boats(), rules)?;
        let ranking = Ranking::of(alloc, &lines)?;
        let places = ranking.places(alloc, &lines)?;
        let ranks = sorted_ranks(alloc, ranking.order(), kept.entry_list(), places.as_slice())?;
        Ok(ranks)
    }
}
