//! Rows of neighbours with the same series score, and ranks after a race.

ghost use Rattle.std.specs.Prelude.{◌++◌, decimal};
ghost use Rattle.regatta_json.specs.Pushed.{Pushed};
ghost use Rattle.regatta_explain.specs.Rows.{compared_text, separation_text, neighbour_text};
ghost use Rattle.regatta_explain.specs.Rows.{rank_text};

use crate::parts::{Compared, NeighbourPart, RankPart, Separation};
use regatta_json::{push_count, push_flag, push_number, push_pieces, push_tenths, push_word};
use std::alloc::AllocError;

/// Appends where two scores are compared.
fn push_at(at: u8, out: &mut Vec<u8>) -> Result<(), AllocError>
    ensures { Pushed (decimal at) out.old out.new result }
{
    push_number(b"", u32::from(at), out)
}

/// Appends two scores, and where they are compared.
#[tactic(auto, unfolding(crate::specs::Rows::compared_text))]
fn push_compared(compared: &Compared, out: &mut Vec<u8>) -> Result<(), AllocError>
    ensures { Pushed (compared_text compared.now) out.old out.new result }
{
    push_at(compared.at, out)?;
    push_tenths(b",\"scores\":[", compared.first, out)?;
    push_tenths(b",", compared.second, out)?;
    push_pieces(out, &[b"]}"])?;
    Ok(())
}

/// Appends the words before two scores that are compared, and then these.
fn push_by(words: &[u8], compared: &Compared, out: &mut Vec<u8>) -> Result<(), AllocError>
    ensures { Pushed (words.now ++ compared_text compared.now) out.old out.new result }
{
    push_pieces(out, &[words])?;
    push_compared(compared, out)?;
    Ok(())
}

/// Appends what separates two boats.
#[tactic(auto, unfolding(crate::specs::Rows::separation_text))]
fn push_separation(rule: &Separation, out: &mut Vec<u8>) -> Result<(), AllocError>
    ensures { Pushed (separation_text rule.now) out.old out.new result }
{
    match rule {
        Separation::ByBest(compared) => push_by(b"\"A8.1\",\"position\":", compared, out),
        Separation::ByLast(compared) => push_by(b"\"A8.2\",\"race\":", compared, out),
        Separation::ByNothing => push_pieces(out, &[b"null}"]),
    }
}

/// Appends the row of two neighbours.
#[tactic(auto, unfolding(crate::specs::Rows::neighbour_text))]
pub(crate) fn push_neighbour(part: &NeighbourPart, out: &mut Vec<u8>) -> Result<(), AllocError>
    ensures { Pushed (neighbour_text part.now) out.old out.new result }
{
    push_word(b"{\"first\":\"", part.first.as_bytes(), out)?;
    push_word(b"\",\"second\":\"", part.second.as_bytes(), out)?;
    push_pieces(out, &[b"\",\"rule\":"])?;
    push_separation(&part.rule, out)?;
    Ok(())
}

/// Appends a boat's rank after a race.
#[tactic(auto, unfolding(crate::specs::Rows::rank_text))]
pub(crate) fn push_rank(part: &RankPart, out: &mut Vec<u8>) -> Result<(), AllocError>
    ensures { Pushed (rank_text part.now) out.old out.new result }
{
    push_word(b"[\"", part.sail.as_bytes(), out)?;
    push_count(b"\",", part.rank, out)?;
    push_flag(b",", part.tied, out)?;
    push_pieces(out, &[b"]"])?;
    Ok(())
}
