//! The preview of a text, on a board that stays as it is.

ghost use Rattle.std.specs.Prelude.{◌≡◌, ◌++◌, IfOk, OnOk};
ghost use Rattle.regatta_preview.specs.Previews.{preview, previewed};

use crate::changes::changes_since;
use crate::documents::write_document;
use crate::moves::moves_since;
use crate::parts::Preview;
use crate::talks::take_lines;
use regatta_board::{Board, replayed};
use regatta_scores::Items;
use regatta_terms::Role;
use std::alloc::{AllocError, Global};

/// What the lines of a text would do to the journal of this board. They are taken by a second board
/// with the same journal. The first line is sent in this role.
///
/// # Errors
///
/// If memory runs out.
#[tactic(auto, unfolding(crate::specs::Previews::preview))]
pub fn preview_of(
    alloc: Global,
    first: &Board,
    role: Role,
    text: &[u8],
) -> Result<Preview, AllocError>
    ensures { IfOk result (λ made. made
        ≡ preview first.now.rules first.now.entries role text.now) }
{
    let Ok(mut last) = replayed(alloc, first.rules(), first.entries()) else {
        return Err(AllocError);
    };
    let replies = take_lines(alloc, &mut last, role, text)?;
    let moves = moves_since(alloc, first, &last)?;
    let changes = changes_since(alloc, first, &last)?;
    Ok(Preview {
        role,
        replies: Items::new(replies),
        moves,
        changes,
    })
}

/// Appends the document of what the lines of a text would do.
///
/// # Errors
///
/// If memory runs out.
pub fn write_preview(
    alloc: Global,
    first: &Board,
    role: Role,
    text: &[u8],
    out: &mut Vec<u8>,
) -> Result<(), AllocError>
    ensures { OnOk result (out.new.items ≡ out.old.items
        ++ previewed first.now.rules first.now.entries role text.now) }
{
    let made = preview_of(alloc, first, role, text)?;
    write_document(&made, out)?;
    Ok(())
}
