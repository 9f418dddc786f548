//! The whole document.

ghost use Rattle.regatta_json.specs.Pushed.{Pushed, Written};
ghost use Rattle.regatta_json.specs.Rows.{rows, values};
ghost use Rattle.regatta_explain.specs.Rows.{group_text, held_text, score_text, neighbour_text};
ghost use Rattle.regatta_explain.specs.Rows.{rank_text};
ghost use Rattle.regatta_explain.specs.Documents.{race_groups, race_boats, race_rows, boat_rows};
ghost use Rattle.regatta_explain.specs.Documents.{after_row, head_text, races_text, boats_text};
ghost use Rattle.regatta_explain.specs.Documents.{neighbours_text, after_text, document_text};

use crate::boats::{push_boat, push_score};
use crate::parts::{
    BoatRows, Document, GroupPart, HeldPart, NeighbourPart, RaceRows, RankPart, RanksAfter,
    ScorePart,
};
use crate::races::{push_group, push_held, push_race};
use crate::series::push_rules;
use crate::ties::{push_neighbour, push_rank};
use regatta_json::{
    ItemWriter, push_number, push_pieces, push_race_no, push_rows, push_values, settle,
};
use regatta_scores::Items;
use std::alloc::AllocError;

/// Appends the document.
///
/// # Errors
///
/// `AllocError` if an allocation fails, and never if `out` has room for the text. After an error
/// `out` has its old contents; its capacity is never less.
pub fn write_document(document: &Document, out: &mut Vec<u8>) -> Result<(), AllocError>
    ensures { Written (document_text document.now) out.old out.new result }
{
    let start = out.len();
    let pushed = push_document(document, out);
    settle(out, start, pushed)
}

/// Appends the same text, but an `Err` leaves some first part of it.
#[tactic(auto, unfolding(crate::specs::Documents::document_text))]
fn push_document(document: &Document, out: &mut Vec<u8>) -> Result<(), AllocError>
    ensures { Pushed (document_text document.now) out.old out.new result }
{
    push_head(document, out)?;
    push_races(document, out)?;
    push_boats(document, out)?;
    push_neighbours(document, out)?;
    push_after(document, out)?;
    Ok(())
}

/// Appends the rules, and the last entry on which the table depends.
#[tactic(auto, unfolding(crate::specs::Documents::head_text))]
fn push_head(document: &Document, out: &mut Vec<u8>) -> Result<(), AllocError>
    ensures { Pushed (head_text document.now) out.old out.new result }
{
    push_pieces(out, &[b"{\"rules\":"])?;
    push_rules(&document.rules, out)?;
    push_number(b",\n\"last_entry\":", document.last_entry, out)?;
    Ok(())
}

/// Appends the races of which something is recorded.
#[tactic(auto, unfolding(crate::specs::Documents::races_text))]
fn push_races(document: &Document, out: &mut Vec<u8>) -> Result<(), AllocError>
    ensures { Pushed (races_text document.now) out.old out.new result }
{
    push_pieces(out, &[b",\n\"races\":[\n"])?;
    push_all_races(&document.races, out)?;
    Ok(())
}

/// Appends the boats in the order of the table.
#[tactic(auto, unfolding(crate::specs::Documents::boats_text))]
fn push_boats(document: &Document, out: &mut Vec<u8>) -> Result<(), AllocError>
    ensures { Pushed (boats_text document.now) out.old out.new result }
{
    push_pieces(out, &[b"\n],\n\"boats\":[\n"])?;
    push_all_boats(&document.boats, out)?;
    Ok(())
}

/// Appends neighbours with the same series score.
#[tactic(auto, unfolding(crate::specs::Documents::neighbours_text))]
fn push_neighbours(document: &Document, out: &mut Vec<u8>) -> Result<(), AllocError>
    ensures { Pushed (neighbours_text document.now) out.old out.new result }
{
    push_pieces(out, &[b"\n],\n\"neighbours\":[\n"])?;
    push_all_neighbours(&document.neighbours, out)?;
    Ok(())
}

/// Appends ranks after each race that counts.
#[tactic(auto, unfolding(crate::specs::Documents::after_text))]
fn push_after(document: &Document, out: &mut Vec<u8>) -> Result<(), AllocError>
    ensures { Pushed (after_text document.now) out.old out.new result }
{
    push_pieces(out, &[b"\n],\n\"after_each\":[\n"])?;
    push_all_ranks(&document.after_each, out)?;
    push_pieces(out, &[b"\n]}\n"])?;
    Ok(())
}

/// Appends the rows of a race.
#[tactic(auto, unfolding(crate::specs::Documents::race_rows))]
fn push_race_rows(race: &RaceRows, out: &mut Vec<u8>) -> Result<(), AllocError>
    ensures { Pushed (race_rows race.now) out.old out.new result }
{
    push_race_groups(race, out)?;
    push_race_boats(race, out)?;
    Ok(())
}

/// Appends what a race is scored by, and its groups.
#[tactic(auto, unfolding(crate::specs::Documents::race_groups))]
fn push_race_groups(race: &RaceRows, out: &mut Vec<u8>) -> Result<(), AllocError>
    ensures { Pushed (race_groups race.now) out.old out.new result }
{
    push_race(&race.race, out)?;
    push_pieces(out, &[b",\"groups\":[\n"])?;
    push_groups(&race.groups, out)?;
    push_pieces(out, &[b"\n],\"boats\":[\n"])?;
    Ok(())
}

/// Appends what each boat has in a race.
#[tactic(auto, unfolding(crate::specs::Documents::race_boats))]
fn push_race_boats(race: &RaceRows, out: &mut Vec<u8>) -> Result<(), AllocError>
    ensures { Pushed (race_boats race.now) out.old out.new result }
{
    push_all_held(&race.boats, out)?;
    push_pieces(out, &[b"\n]}"])?;
    Ok(())
}

/// Appends the rows of a boat.
#[tactic(auto, unfolding(crate::specs::Documents::boat_rows))]
fn push_boat_rows(boat: &BoatRows, out: &mut Vec<u8>) -> Result<(), AllocError>
    ensures { Pushed (boat_rows boat.now) out.old out.new result }
{
    push_boat(&boat.boat, out)?;
    push_pieces(out, &[b",\"scores\":[\n"])?;
    push_scores(&boat.scores, out)?;
    push_pieces(out, &[b"\n]}"])?;
    Ok(())
}

/// Appends the ranks after a race that counts.
#[tactic(auto, unfolding(crate::specs::Documents::after_row))]
fn push_after_row(after: &RanksAfter, out: &mut Vec<u8>) -> Result<(), AllocError>
    ensures { Pushed (after_row after.now) out.old out.new result }
{
    push_race_no(b"{\"race\":", after.race, out)?;
    push_pieces(out, &[b",\"ranks\":["])?;
    push_ranks(&after.ranks, out)?;
    push_pieces(out, &[b"]}"])?;
    Ok(())
}

/// Groups as rows.
struct Groups;

impl ItemWriter<GroupPart> for Groups {
    ghost use Rattle.regatta_explain.specs.Rows.{group_text as text_of};

    ghost text = { λ _ item. text_of item };

    fn push_item(&self, item: &GroupPart, out: &mut Vec<u8>) -> Result<(), AllocError> {
        push_group(item, out)
    }
}

/// Appends groups as rows.
fn push_groups(items: &Items<GroupPart>, out: &mut Vec<u8>) -> Result<(), AllocError>
    ensures { Pushed (rows group_text items.now) out.old out.new result }
{
    push_rows(&Groups, items.as_slice(), out)
}

/// What boats have in a race, as rows.
struct AllHeld;

impl ItemWriter<HeldPart> for AllHeld {
    ghost use Rattle.regatta_explain.specs.Rows.{held_text as text_of};

    ghost text = { λ _ item. text_of item };

    fn push_item(&self, item: &HeldPart, out: &mut Vec<u8>) -> Result<(), AllocError> {
        push_held(item, out)
    }
}

/// Appends what boats have in a race, as rows.
fn push_all_held(items: &Items<HeldPart>, out: &mut Vec<u8>) -> Result<(), AllocError>
    ensures { Pushed (rows held_text items.now) out.old out.new result }
{
    push_rows(&AllHeld, items.as_slice(), out)
}

/// Scores as rows.
struct Scores;

impl ItemWriter<ScorePart> for Scores {
    ghost use Rattle.regatta_explain.specs.Rows.{score_text as text_of};

    ghost text = { λ _ item. text_of item };

    fn push_item(&self, item: &ScorePart, out: &mut Vec<u8>) -> Result<(), AllocError> {
        push_score(item, out)
    }
}

/// Appends scores as rows.
fn push_scores(items: &Items<ScorePart>, out: &mut Vec<u8>) -> Result<(), AllocError>
    ensures { Pushed (rows score_text items.now) out.old out.new result }
{
    push_rows(&Scores, items.as_slice(), out)
}

/// Ranks as values.
struct Ranks;

impl ItemWriter<RankPart> for Ranks {
    ghost use Rattle.regatta_explain.specs.Rows.{rank_text as text_of};

    ghost text = { λ _ item. text_of item };

    fn push_item(&self, item: &RankPart, out: &mut Vec<u8>) -> Result<(), AllocError> {
        push_rank(item, out)
    }
}

/// Appends ranks as values.
fn push_ranks(items: &Items<RankPart>, out: &mut Vec<u8>) -> Result<(), AllocError>
    ensures { Pushed (values rank_text items.now) out.old out.new result }
{
    push_values(&Ranks, items.as_slice(), out)
}

/// Races as rows.
struct Races;

impl ItemWriter<RaceRows> for Races {
    ghost use Rattle.regatta_explain.specs.Documents.{race_rows as text_of};

    ghost text = { λ _ item. text_of item };

    fn push_item(&self, item: &RaceRows, out: &mut Vec<u8>) -> Result<(), AllocError> {
        push_race_rows(item, out)
    }
}

/// Appends races as rows.
fn push_all_races(items: &Items<RaceRows>, out: &mut Vec<u8>) -> Result<(), AllocError>
    ensures { Pushed (rows race_rows items.now) out.old out.new result }
{
    push_rows(&Races, items.as_slice(), out)
}

/// Boats as rows.
struct Boats;

impl ItemWriter<BoatRows> for Boats {
    ghost use Rattle.regatta_explain.specs.Documents.{boat_rows as text_of};

    ghost text = { λ _ item. text_of item };

    fn push_item(&self, item: &BoatRows, out: &mut Vec<u8>) -> Result<(), AllocError> {
        push_boat_rows(item, out)
    }
}

/// Appends boats as rows.
fn push_all_boats(items: &Items<BoatRows>, out: &mut Vec<u8>) -> Result<(), AllocError>
    ensures { Pushed (rows boat_rows items.now) out.old out.new result }
{
    push_rows(&Boats, items.as_slice(), out)
}

/// Neighbours as rows.
struct Neighbours;

impl ItemWriter<NeighbourPart> for Neighbours {
    ghost use Rattle.regatta_explain.specs.Rows.{neighbour_text as text_of};

    ghost text = { λ _ item. text_of item };

    fn push_item(&self, item: &NeighbourPart, out: &mut Vec<u8>) -> Result<(), AllocError> {
        push_neighbour(item, out)
    }
}

/// Appends neighbours as rows.
fn push_all_neighbours(items: &Items<NeighbourPart>, out: &mut Vec<u8>) -> Result<(), AllocError>
    ensures { Pushed (rows neighbour_text items.now) out.old out.new result }
{
    push_rows(&Neighbours, items.as_slice(), out)
}

/// Ranks after each race, as rows.
struct AllRanks;

impl ItemWriter<RanksAfter> for AllRanks {
    ghost use Rattle.regatta_explain.specs.Documents.{after_row as text_of};

    ghost text = { λ _ item. text_of item };

    fn push_item(&self, item: &RanksAfter, out: &mut Vec<u8>) -> Result<(), AllocError> {
        push_after_row(item, out)
    }
}

/// Appends ranks after each race, as rows.
fn push_all_ranks(items: &Items<RanksAfter>, out: &mut Vec<u8>) -> Result<(), AllocError>
    ensures { Pushed (rows after_row items.now) out.old out.new result }
{
    push_rows(&AllRanks, items.as_slice(), out)
}
