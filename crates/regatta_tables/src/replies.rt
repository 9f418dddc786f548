//! Replies as text.

ghost use Rattle.std.specs.Prelude.{◌≡◌, ◌≤◌, ◌++◌, ◌+◌, ◌∷◌, decimal, length, take, vec_len};
ghost use Rattle.std.specs.Prelude.{vec_capacity, codes, []};
ghost use Rattle.regatta_terms.specs.Entries.{points_text};
ghost use Rattle.regatta_terms.specs.Words.{spaced};
ghost use Rattle.regatta_tables.specs.TableTexts.{rank_text};
ghost use Rattle.regatta_tables.specs.Lines.{line};
ghost use Rattle.regatta_tables.specs.ReplyTexts.{reply_text, named_words};
ghost use Rattle.regatta_tables.specs.Written.{Replied};

use crate::page::{put, put_number, put_piece};
use crate::pieces::{make_room, push_piece};
use crate::rows::{put_net, put_rank};
use itoa::Buffer;
use regatta_terms::{Answer, Reply, Role, Touched};
use std::alloc::AllocError;

/// The most bytes that a reply has, with its line feed.
pub const REPLY_ROOM: usize = 64;

/// The most bytes of a reply that is a number.
const NUMBER_ROOM: usize = 7;

/// Appends a reply, a line that ends in a line feed. If the capacity has [`REPLY_ROOM`] bytes left,
/// it never fails and the capacity stays.
pub fn write_reply(reply: &Reply, out: &mut Vec<u8>) -> Result<(), AllocError>
    ensures { Replied (reply_text reply.now) out.old out.new result }
{
    match reply {
        Reply::Done(answer) => write_answer(answer, out),
        Reply::Refused(refusal) => write_number(refusal.number(), out),
        Reply::Fault(fault) => write_number(fault.number(), out),
        Reply::RoleSet(role) => write_text(role_line(*role), out),
        Reply::Ranked(touched) => write_ranked(touched, out),
        Reply::Bye => write_text(b"BYE\n", out),
        Reply::Busy => write_text(b"BUSY\n", out),
        Reply::Closed => write_text(b"CLOSED\n", out),
    }
}

/// Appends a short text unchanged.
fn write_text(text: &[u8], out: &mut Vec<u8>) -> Result<(), AllocError>
    requires { length text.now ≤ REPLY_ROOM }
    ensures { Replied text.now out.old out.new result }
{
    push_piece(out, text)
}

/// The line that says which role was set.
fn role_line(role: Role) -> &'static [u8]
    ensures text { result.now ≡ reply_text (Reply.RoleSet role) }
    ensures short { length result.now ≤ REPLY_ROOM }
{
    match role {
        Role::Finish => b"ROLE FINISH\n",
        Role::Jury => b"ROLE JURY\n",
        Role::Scorer => b"ROLE SCORER\n",
    }
}

/// Puts a boat's rank and net.
fn put_touched(page: &mut [u8], at: usize, touched: &Touched) -> usize
    requires room { at + 18 ≤ length page.old }
    ensures text { take result page.new ≡ take at page.old
        ++ (rank_text touched.now.rank touched.now.tied ++ 32 ∷ points_text touched.now.net) }
    ensures most { result ≤ at + 18 }
    ensures same { length page.new ≡ length page.old }
{
    let at = put_rank(page, at, touched.rank, touched.tied);
    let at = put(page, at, b' ');
    put_net(page, at, touched.net)
}

/// Puts a boat's rank and net after a space, if a command names her.
fn put_named(page: &mut [u8], at: usize, touched: &Option<Touched>) -> usize
    requires room { at + 19 ≤ length page.old }
    ensures text { take result page.new ≡ take at page.old ++ spaced (named_words touched.now) }
    ensures most { result ≤ at + 19 }
    ensures same { length page.new ≡ length page.old }
{
    match touched {
        None => at,
        Some(touched) => {
            let at = put(page, at, b' ');
            put_touched(page, at, touched)
        }
    }
}

/// Puts the place of an entry.
fn put_place(page: &mut [u8], at: usize, place: u32) -> usize
    requires room { at + 10 ≤ length page.old }
    ensures text { take result page.new ≡ take at page.old ++ decimal place }
    ensures most { result ≤ at + 10 }
    ensures same { length page.new ≡ length page.old }
{
    if place < 10000 {
        return put_number(page, at, place);
    }
    let mut number = Buffer::new();
    put_piece(page, at, number.format(place).as_bytes())
}

/// Puts the answer to an accepted command.
fn put_answer(page: &mut [u8], answer: &Answer) -> usize
    requires room { REPLY_ROOM ≤ length page.old }
    ensures text { take result page.new ≡ reply_text (Reply.Done answer.now) }
    ensures most { result ≤ REPLY_ROOM }
    ensures same { length page.new ≡ length page.old }
{
    let at = put_piece(page, 0, b"OK ");
    let at = put_place(page, at, answer.place);
    let at = put_named(page, at, &answer.touched);
    put(page, at, b'\n')
}

/// Appends the answer to an accepted command.
fn write_answer(answer: &Answer, out: &mut Vec<u8>) -> Result<(), AllocError>
    ensures { Replied (reply_text (Reply.Done answer.now)) out.old out.new result }
{
    let mut page = [0; REPLY_ROOM];
    let end = put_answer(&mut page, answer);
    push_piece(out, &page[..end])
}

/// Puts the rank and net of a boat, in a line.
fn put_ranked(page: &mut [u8], touched: &Touched) -> usize
    requires room { REPLY_ROOM ≤ length page.old }
    ensures text { take result page.new ≡ reply_text (Reply.Ranked touched.now) }
    ensures most { result ≤ REPLY_ROOM }
    ensures same { length page.new ≡ length page.old }
{
    let at = put_piece(page, 0, b"RANK ");
    let at = put_touched(page, at, touched);
    put(page, at, b'\n')
}

/// Appends the rank and net of a boat.
fn write_ranked(touched: &Touched, out: &mut Vec<u8>) -> Result<(), AllocError>
    ensures { Replied (reply_text (Reply.Ranked touched.now)) out.old out.new result }
{
    let mut page = [0; REPLY_ROOM];
    let end = put_ranked(&mut page, touched);
    push_piece(out, &page[..end])
}

/// Appends a number that there is room for.
#[tactic(auto, using(crate::proofs::DigitFacts::number_of_one, crate::proofs::DigitFacts::number_of_two, crate::proofs::DigitFacts::number_of_three))]
fn push_number(out: &mut Vec<u8>, number: u8)
    requires room { vec_len out.old + 3 ≤ vec_capacity out.old }
    ensures items { out.new.items ≡ out.old.items ++ decimal number }
    ensures most { vec_len out.new ≤ vec_len out.old + 3 }
    ensures stays { vec_capacity out.new ≡ vec_capacity out.old }
{
    let ones = b'0' + number % 10;
    if number < 10 {
        out.push_reserved(ones);
        return;
    }
    let tens = b'0' + number / 10 % 10;
    if number < 100 {
        out.push_reserved(tens);
        out.push_reserved(ones);
        return;
    }
    out.push_reserved(b'0' + number / 100);
    out.push_reserved(tens);
    out.push_reserved(ones);
}

/// Appends the number of a refusal or a fault.
fn write_number(number: u8, out: &mut Vec<u8>) -> Result<(), AllocError>
    ensures { Replied (line (codes "NO" ∷ decimal number ∷ [])) out.old out.new result }
{
    make_room(out, NUMBER_ROOM)?;
    out.push_reserved(b'N');
    out.push_reserved(b'O');
    out.push_reserved(b' ');
    push_number(out, number);
    out.push_reserved(b'\n');
    Ok(())
}
