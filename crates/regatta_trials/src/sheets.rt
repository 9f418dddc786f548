//! Sheets of races, made by a list of changes.
ghost use Rattle.std.specs.Prelude.{◌≡◌, ◌≤◌, IfOk, IfSome, IsTrue};
ghost use Rattle.regatta_terms.specs.declared.limits.TheConstants.{MAX_BOATS};
ghost use Rattle.regatta_scores.specs.Sheet.{boats};
ghost use Rattle.regatta_scores.specs.SheetFacts.{Allows, IsPlaced, IsUnplaced};
ghost use Rattle.regatta_scores.specs.Changes.{after};

use regatta_scores::{Change, RaceSheet};
use regatta_terms::MAX_PENALTIES;
use std::alloc::{AllocError, Global};

/// Whether a boat is one of the sheet's `count` boats, and not in the finishing order.
fn is_unplaced(sheet: &RaceSheet, count: u16, boat: u16) -> bool
    requires { boats sheet.now ≡ count }
    ensures { IsTrue result → IsUnplaced sheet.now boat }
{
    boat < count && !sheet.placed(boat)
}

/// Whether a boat is one of the sheet's `count` boats, and in the finishing order.
fn is_placed(sheet: &RaceSheet, count: u16, boat: u16) -> bool
    requires { boats sheet.now ≡ count }
    ensures { IsTrue result → IsPlaced sheet.now boat }
{
    boat < count && sheet.placed(boat)
}

/// Whether the sheet of `count` boats allows a change that adds no boat.
fn allows(sheet: &RaceSheet, count: u16, change: &Change) -> bool
    requires { boats sheet.now ≡ count }
    ensures allowed { IsTrue result → Allows sheet.now change.now }
    ensures kept { IsTrue result → boats (after sheet.now change.now) ≡ boats sheet.now }
{
    match *change {
        Change::AddBoat => false,
        Change::Last { boat } | Change::Timed { boat, .. } => is_unplaced(sheet, count, boat),
        Change::Join { boat, other } | Change::Ahead { boat, other } => {
            is_unplaced(sheet, count, boat) && is_placed(sheet, count, other)
        }
        Change::Out { boat } => is_placed(sheet, count, boat),
        Change::Hold { boat, held } => {
            boat < count && held.zfp <= MAX_PENALTIES && held.scp <= MAX_PENALTIES
        }
    }
}

/// The sheet after a change that adds no boat, or none if the sheet doesn't allow it.
fn changed(sheet: &RaceSheet, count: u16, change: &Change) -> Result<Option<RaceSheet>, AllocError>
    requires { boats sheet.now ≡ count }
    ensures { IfOk result (λ next. IfSome next (λ next. boats next ≡ count)) }
{
    if !allows(sheet, count, change) {
        return Ok(None);
    }
    Ok(Some(sheet.after(*change)?))
}

/// A sheet of `count` boats after these changes, none of which adds a boat; none if one of them
/// isn't allowed.
///
/// # Errors
///
/// If an allocation fails.
pub fn sheet_after(
    alloc: Global,
    count: u16,
    changes: &[Change],
) -> Result<Option<RaceSheet>, AllocError>
    requires { count ≤ MAX_BOATS }
    ensures { IfOk result (λ sheet. IfSome sheet (λ sheet. boats sheet ≡ count)) }
{
    let mut sheet = RaceSheet::new(alloc, count)?;
    for change in changes {
        match changed(&sheet, count, change)? {
            Some(next) => sheet = next,
            None => return Ok(None),
        }
    }
    Ok(Some(sheet))
}
