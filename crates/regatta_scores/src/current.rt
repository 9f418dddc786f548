//! The lines of all boats, after new ones replace some of them.
ghost use Rattle.std.specs.Prelude.{◌≡◌, ◌<◌, length, replicate, IfOk};
ghost use Rattle.regatta_scores.specs.Current.{with_changed, AreFlagged, AreStill, AreWithin};
ghost use Rattle.regatta_scores.specs.Current.{with_positions};
ghost use Rattle.regatta_scores.specs.KeptRanking.{is_new, line_of};

use crate::ranking::BoatLine;
use std::alloc::{AllocError, Global};
use std::marker::Model;

/// A boat's line that replaces the one before.
#[derive(Drop)]
pub struct NewLine {
    /// The boat's number.
    pub boat: u16,
    /// Her line.
    pub line: BoatLine,
}

/// Stands for a position if a boat has no new line.
const NO_LINE: u16 = u16::MAX;

/// The lines of all boats, after new ones replace some of them, and which are new.
#[derive(Drop)]
pub(crate) struct CurrentLines<'a> {
    old: &'a [BoatLine],
    new: &'a [NewLine],
    /// For each boat, the position of her new line, or [`NO_LINE`].
    positions: Vec<u16>,
}

impl<'a> Model for CurrentLines<'a> {
    ghost use Rattle.std.specs.Prelude.{◌≡◌, length};
    ghost use Rattle.regatta_scores.specs.Current.{Lines, looked_up, flags};

    ghost Value = { Lines };

    ghost view = { λ c. record {
      lines = looked_up c.new.now c.old.now c.positions.items;
      new = flags c.new.now c.positions.items;
    } };

    ghost invariant = { λ c. length c.positions.items ≡ length c.old.now };
}

/// For each boat, the position of her new line, or [`NO_LINE`].
fn positions_of(alloc: Global, boats: usize, new: &[NewLine]) -> Result<Vec<u16>, AllocError>
    requires each { AreWithin boats new.now }
    requires few { length new.now < 65535 }
    ensures { IfOk result (λ positions.
        positions.items ≡ with_positions (replicate boats 65535) 0 new.now) }
{
    let mut positions = vec![in alloc; NO_LINE; boats]?;
    for k in 0..new.len() {
        positions[usize::from(new[k].boat)] = k as u16;
    }
    Ok(positions)
}

impl<'a> CurrentLines<'a> {
    /// The old lines, after these new ones replace some of them.
    pub(crate) fn of(
        alloc: Global,
        old: &'a [BoatLine],
        new: &'a [NewLine],
    ) -> Result<CurrentLines<'a>, AllocError>
        requires each { AreWithin (length old.now) new.now }
        requires few { length new.now < 65535 }
        ensures lines { IfOk result (λ current. current.lines ≡ with_changed old.now new.now) }
        ensures flagged { IfOk result (λ current. length current.new ≡ length old.now) }
        ensures still { IfOk result (λ current. AreStill old.now current) }
        ensures new { IfOk result (λ current. AreFlagged new.now current) }
    {
        let positions = positions_of(alloc, old.len(), new)?;
        Ok(CurrentLines {
            old,
            new,
            positions,
        })
    }

    /// How many boats there are.
    pub(crate) fn len(&self) -> usize
        ensures { result ≡ length self.now.lines }
    {
        self.old.len()
    }

    /// Whether the line of this boat is new.
    pub(crate) fn is_new(&self, boat: usize) -> bool
        requires { boat < length self.now.new }
        ensures { result ≡ is_new self.now.new boat }
    {
        usize::from(self.positions[boat]) < self.new.len()
    }

    /// The line of the boat with this number.
    pub(crate) fn line(&self, boat: usize) -> &BoatLine
        requires { boat < length self.now.lines }
        ensures { result.now ≡ line_of self.now.lines boat }
    {
        let (old, new) = (self.old, self.new);
        let at = usize::from(self.positions[boat]);
        if at < new.len() {
            &new[at].line
        } else {
            &old[boat]
        }
    }
}
