//! The sheets of the races of a series.
ghost use Rattle.std.specs.Prelude.{◌≡◌, ◌<◌, length, map, replicate, slice_index_or, slice_set};
ghost use Rattle.std.specs.Prelude.{All, IfOk, IfSome, None};
ghost use Rattle.std.specs.Option.{option_map};
ghost use Rattle.regatta_terms.specs.declared.limits.TheConstants.{MAX_RACES};
ghost use Rattle.regatta_scores.specs.declared.sheet.Change.TheVariants.{AddBoat};
ghost use Rattle.regatta_scores.specs.Sheet.{boats, empty_sheet};
ghost use Rattle.regatta_scores.specs.Changes.{after};
ghost use Rattle.regatta_board.specs.Refusals.{limits};

use regatta_scores::{Change, RACES, RaceSheet};
use std::alloc::{AllocError, Global};
use std::marker::Model;

/// The sheet of each race, by its index from 0. Races whose sheet was never changed share a blank
/// one, so entering a boat costs nothing for them.
#[derive(Drop)]
pub(crate) struct Sheets {
    blank: RaceSheet,
    changed: Vec<Option<RaceSheet>>,
}

impl Model for Sheets {
    ghost use Rattle.std.specs.Prelude.{List};
    ghost use Rattle.regatta_scores.specs.Sheet.{Sheet};
    ghost use Rattle.regatta_board.specs.SheetList.{sheets_of, AreAlike};

    ghost Value = { List Sheet };

    ghost view = { λ s. sheets_of s.blank s.changed.items };

    ghost invariant = { λ s. AreAlike s.blank (sheets_of s.blank s.changed.items) };
}

fn unchanged(alloc: Global) -> Result<Vec<Option<RaceSheet>>, AllocError>
    ensures { IfOk result (λ changed. changed.items ≡ replicate MAX_RACES None) }
{
    let mut changed = Vec::with_capacity(alloc, RACES)?;
    while changed.len() < RACES {
        changed.push(None)?;
    }
    Ok(changed)
}

fn with_boat(sheet: &Option<RaceSheet>) -> Result<Option<RaceSheet>, AllocError>
    requires { IfSome sheet.now (λ found. boats found < limits.boats) }
    ensures { IfOk result (λ new. new ≡ option_map (λ found. after found AddBoat) sheet.now) }
{
    match sheet {
        Some(sheet) => {
            let new = sheet.after(Change::AddBoat)?;
            Ok(Some(new))
        }
        None => Ok(None),
    }
}

fn each_with_boat(
    alloc: Global,
    sheets: &[Option<RaceSheet>],
) -> Result<Vec<Option<RaceSheet>>, AllocError>
    requires { All (λ sheet. IfSome sheet (λ found. boats found < limits.boats)) sheets.now }
    ensures { IfOk result (λ new.
        new.items ≡ map (option_map (λ found. after found AddBoat)) sheets.now) }
{
    let mut new = Vec::with_capacity(alloc, sheets.len())?;
    for sheet in sheets {
        new.push(with_boat(sheet)?)?;
    }
    Ok(new)
}

impl Sheets {
    /// Blank sheets for all races, without boats.
    #[tactic(auto, using(crate::proofs::BlankSheets::blank_facts))]
    pub(crate) fn new(alloc: Global) -> Result<Sheets, AllocError>
        ensures { IfOk result (λ sheets. sheets ≡ replicate MAX_RACES (empty_sheet 0)) }
    {
        let blank = RaceSheet::new(alloc, 0)?;
        let changed = unchanged(alloc)?;
        Ok(Sheets { blank, changed })
    }

    pub(crate) fn at(&self, at: usize) -> &RaceSheet
        requires { at < length self.now }
        ensures { result.now ≡ slice_index_or self.now at (empty_sheet 0) }
    {
        match &self.changed[at] {
            Some(sheet) => sheet,
            None => &self.blank,
        }
    }

    /// Copies the sheets, each with one more boat.
    pub(crate) fn with_boat(&self, alloc: Global) -> Result<Sheets, AllocError>
        requires some { 0 < length self.now }
        requires few { All (λ sheet. boats sheet < limits.boats) self.now }
        ensures { IfOk result (λ new. new ≡ map (λ sheet. after sheet AddBoat) self.now) }
    {
        let blank = self.blank.after(Change::AddBoat)?;
        let changed = each_with_boat(alloc, &self.changed)?;
        Ok(Sheets { blank, changed })
    }

    pub(crate) fn put(&mut self, at: usize, sheet: RaceSheet)
        requires within { at < length self.old }
        requires alike { boats sheet ≡ boats (slice_index_or self.old at (empty_sheet 0)) }
        ensures { self.new ≡ slice_set self.old at sheet }
    {
        self.changed[at] = Some(sheet);
    }
}
