//! The ranks after each race that counts.

ghost use Rattle.std.specs.Prelude.{◌≡◌, length, map, zip, IfOk};
ghost use Rattle.regatta_scores.specs.Journal.{scored};
ghost use Rattle.regatta_explain.specs.Explained.{ranks_after as ranks_after_of};
ghost use Rattle.regatta_explain.specs.AfterRaces.{after_by, rank_by};

use crate::parts::{RankPart, RanksAfter};
use regatta_board::{Board, BoatRank};
use regatta_scores::Items;
use regatta_terms::RaceNo;
use std::alloc::{AllocError, Global};

/// A boat's rank, as the document has it.
fn rank_part(rank: &BoatRank) -> RankPart
    ensures { result ≡ rank_by rank.now }
{
    RankPart {
        sail: rank.sail,
        rank: rank.rank,
        tied: rank.tied,
    }
}

fn rank_parts(alloc: Global, ranks: &[BoatRank]) -> Result<Vec<RankPart>, AllocError>
    ensures { IfOk result (λ parts. parts.items ≡ map rank_by ranks.now) }
{
    let mut parts = Vec::with_capacity(alloc, ranks.len())?;
    for rank in ranks {
        parts.push(rank_part(rank))?;
    }
    Ok(parts)
}

/// The ranks after a race, as the document has them.
fn ranks_after(alloc: Global, race: RaceNo, ranks: &[BoatRank]) -> Result<RanksAfter, AllocError>
    ensures { IfOk result (λ after. after ≡ after_by (race, ranks.now)) }
{
    let parts = rank_parts(alloc, ranks)?;
    Ok(RanksAfter {
        race,
        ranks: Items::new(parts),
    })
}

/// The ranks after each of these races, as the document has them.
fn after_each(
    alloc: Global,
    races: &[RaceNo],
    ranks: &[Items<BoatRank>],
) -> Result<Vec<RanksAfter>, AllocError>
    requires { length races.now ≡ length ranks.now }
    ensures { IfOk result (λ all. all.items ≡ map after_by (zip races.now ranks.now)) }
{
    let mut all = Vec::with_capacity(alloc, races.len())?;
    for i in 0..races.len() {
        all.push(ranks_after(alloc, races[i], ranks[i].as_slice())?)?;
    }
    Ok(all)
}

/// The ranks after each of the races that count.
pub(crate) fn all_ranks(
    alloc: Global,
    board: &Board,
    races: &[RaceNo],
) -> Result<Items<RanksAfter>, AllocError>
    requires { races.now ≡ scored board.now.entries }
    ensures { IfOk result (λ all. all
        ≡ map (ranks_after_of board.now.rules board.now.entries) races.now) }
{
    let ranks = board.ranks_after_each(alloc)?;
    let all = after_each(alloc, races, ranks.as_slice())?;
    Ok(Items::new(all))
}
