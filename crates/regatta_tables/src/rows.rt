//! A boat's row of a table.

ghost use Rattle.std.specs.Prelude.{◌≡◌, ◌≤◌, ◌<◌, ◌++◌, ◌+◌, ◌∷◌, [], map, take, length, vec_len};
ghost use Rattle.std.specs.Prelude.{vec_capacity, OnErr, IfOk};
ghost use Rattle.std.specs.List.{join_with_byte};
ghost use Rattle.regatta_terms.specs.Entries.{points_text};
ghost use Rattle.regatta_terms.specs.Words.{spaced};
ghost use Rattle.regatta_tables.specs.Lines.{line};
ghost use Rattle.regatta_tables.specs.TableTexts.{row_words, cell_text, rank_text};
ghost use Rattle.regatta_tables.specs.Written.{Lengthened, Pushed};

use crate::cells::{CELL_ROOM, put_cell};
use crate::page::{put, put_number, put_piece, put_points};
use crate::pieces::rank_word;
use regatta_scores::{Cell, Row};
use regatta_terms::points_word;
use std::alloc::AllocError;

/// The most bytes of a row before its scores.
const HEAD_ROOM: usize = 31;

/// The most bytes of a score, with a space before it and a line feed after it.
const NEXT_ROOM: usize = CELL_ROOM + 2;

/// The bytes of a page: room for a row of a full series.
pub(crate) const PAGE_ROOM: usize = 600;

/// Puts a rank, followed by `=` if it is tied.
#[inline(always)]
pub(crate) fn put_rank(page: &mut [u8], at: usize, rank: u16, tied: bool) -> usize
    requires room { at + 6 ≤ length page.old }
    ensures text { take result page.new ≡ take at page.old ++ rank_text rank tied }
    ensures most { result ≤ at + 6 }
    ensures same { length page.new ≡ length page.old }
{
    if rank >= 10000 {
        let mut word = [0; 6];
        return put_piece(page, at, rank_word(&mut word, rank, tied));
    }
    let at = put_number(page, at, u32::from(rank));
    if tied { put(page, at, b'=') } else { at }
}

/// Puts a net.
#[inline(always)]
pub(crate) fn put_net(page: &mut [u8], at: usize, net: u32) -> usize
    requires room { at + 11 ≤ length page.old }
    ensures text { take result page.new ≡ take at page.old ++ points_text net }
    ensures most { result ≤ at + 11 }
    ensures same { length page.new ≡ length page.old }
{
    if net < 100000 {
        return put_points(page, at, net);
    }
    let mut word = [0; 11];
    put_piece(page, at, points_word(&mut word, net))
}

/// Puts what is before the scores of a row.
fn put_head(page: &mut [u8], row: &Row) -> usize
    requires room { HEAD_ROOM ≤ length page.old }
    ensures text { take result page.new ≡ join_with_byte 32
        (rank_text row.now.rank row.now.tied ∷ row.now.sail ∷ points_text row.now.net ∷ []) }
    ensures most { result ≤ HEAD_ROOM }
    ensures same { length page.new ≡ length page.old }
{
    let at = put_rank(page, 0, row.rank, row.tied);
    let at = put(page, at, b' ');
    let at = put_piece(page, at, row.sail.as_bytes());
    let at = put(page, at, b' ');
    put_net(page, at, row.net)
}

/// Where the next score comes in the page. If there is no room for one, the text so far is appended
/// to `out`, and the page starts empty.
fn next_place(page: &[u8], at: usize, out: &mut Vec<u8>) -> Result<usize, AllocError>
    requires page { length page.now ≡ PAGE_ROOM }
    requires within { at ≤ PAGE_ROOM }
    ensures ok { IfOk result (λ place. out.new.items ++ take place page.now
        ≡ out.old.items ++ take at page.now) }
    ensures way { IfOk result (λ place. place + NEXT_ROOM ≤ PAGE_ROOM) }
    ensures longer { Lengthened out.old out.new }
    ensures full { OnErr result (vec_capacity out.old < vec_len out.old + at) }
{
    if at <= PAGE_ROOM - NEXT_ROOM {
        return Ok(at);
    }
    out.extend_from_slice(&page[..at])?;
    Ok(0)
}

/// Puts a boat's scores, each preceded by a space. What the page has no room for is appended to
/// `out`.
fn put_cells(
    cells: &[Cell],
    page: &mut [u8],
    from: usize,
    out: &mut Vec<u8>,
) -> Result<usize, AllocError>
    requires page { length page.old ≡ PAGE_ROOM }
    requires within { from < PAGE_ROOM }
    ensures ok { IfOk result (λ end. out.new.items ++ take end page.new
        ≡ (out.old.items ++ take from page.old) ++ spaced (map cell_text cells.now)) }
    ensures within { IfOk result (λ end. end < PAGE_ROOM) }
    ensures longer { Lengthened out.old out.new }
    ensures same { length page.new ≡ length page.old }
    ensures full { OnErr result (vec_capacity out.old
        < vec_len out.old + from + length (spaced (map cell_text cells.now))) }
{
    let mut at = from;
    for cell in cells {
        let place = next_place(page, at, out)?;
        let place = put(page, place, b' ');
        at = put_cell(page, place, cell);
    }
    Ok(at)
}

/// Appends a boat's row, which is made on the page.
pub(crate) fn push_row(row: &Row, page: &mut [u8], out: &mut Vec<u8>) -> Result<(), AllocError>
    requires page { length page.old ≡ PAGE_ROOM }
    ensures pushed { Pushed (line (row_words row.now)) out.old out.new result }
    ensures same { length page.new ≡ length page.old }
{
    let at = put_head(page, row);
    let at = put_cells(row.cells.as_slice(), page, at, out)?;
    let at = put(page, at, b'\n');
    out.extend_from_slice(&page[..at])
}
