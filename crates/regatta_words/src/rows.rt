//! The rows of the document.

ghost use Rattle.regatta_json.specs.Pushed.{Pushed};
ghost use Rattle.regatta_words.specs.WordsText.{by_role, code_head, code_score, code_givers};
ghost use Rattle.regatta_words.specs.WordsText.{role_row, form_row, numbered_row, refusal_row};
ghost use Rattle.regatta_words.specs.WordsText.{fault_row};

use crate::codes::{
    came, is_breach, is_excludable, kind_meaning, kind_rule, meaning, rule, scores_as,
};
use crate::forms::Form;
use crate::senders::{Example, gives, sends};
use crate::sentences::{
    meaning_of_role, name_of_fault, name_of_refusal, sentence_of_fault, sentence_of_refusal,
};
use itoa::Buffer;
use regatta_json::{ItemWriter, flag, push_pieces};
use regatta_terms::{Code, LineFault, PenaltyKind, Refusal, Role};
use std::alloc::AllocError;

/// Appends, for each role, whether something holds for it.
#[tactic(auto, unfolding(crate::specs::WordsText::by_role))]
fn push_by_role(finish: bool, jury: bool, scorer: bool, out: &mut Vec<u8>) -> Result<(), AllocError>
    ensures { Pushed (by_role finish jury scorer) out.old out.new result }
{
    push_pieces(
        out,
        &[
            b"{\"FINISH\":",
            flag(finish),
            b",\"JURY\":",
            flag(jury),
            b",\"SCORER\":",
            flag(scorer),
            b"}",
        ],
    )
}

/// Appends the first part of a code's row.
#[tactic(auto, unfolding(crate::specs::WordsText::code_head))]
fn push_code_head(code: Code, out: &mut Vec<u8>) -> Result<(), AllocError>
    ensures { Pushed (code_head code) out.old out.new result }
{
    push_pieces(
        out,
        &[
            b"{\"code\":\"",
            code.text().as_bytes(),
            b"\",\"meaning\":\"",
            meaning(code),
            b"\",\"rule\":\"",
            rule(code),
            b"\",\"hearing\":",
            flag(code.takes_hearing()),
            b",\"breach\":",
            flag(is_breach(code)),
            b",\"came\":",
            flag(came(code)),
        ],
    )
}

/// Appends the code whose points a code has, and whether the score can be excluded.
#[tactic(auto, unfolding(crate::specs::WordsText::code_score))]
fn push_code_score(code: Code, out: &mut Vec<u8>) -> Result<(), AllocError>
    ensures { Pushed (code_score code) out.old out.new result }
{
    push_pieces(
        out,
        &[
            b",\"scores_as\":\"",
            scores_as(code),
            b"\",\"excludable\":",
            flag(is_excludable(code)),
        ],
    )
}

/// Appends who gives a code.
#[tactic(auto, unfolding(crate::specs::WordsText::code_givers))]
fn push_code_givers(code: Code, of: &Example, out: &mut Vec<u8>) -> Result<(), AllocError>
    ensures { Pushed (code_givers code) out.old out.new result }
{
    let (finish, jury) = (gives(Role::Finish, code, of), gives(Role::Jury, code, of));
    let scorer = gives(Role::Scorer, code, of);
    push_pieces(out, &[b",\"given_by\":"])?;
    push_by_role(finish, jury, scorer, out)?;
    push_pieces(out, &[b"}"])?;
    Ok(())
}

/// Rows of codes.
#[derive(Drop)]
pub(crate) struct CodeRows<'a>(pub(crate) &'a Example);

impl ItemWriter<Code> for CodeRows<'_> {
    ghost use Rattle.regatta_words.specs.WordsText.{code_row as row_of_code};

    ghost text = { λ _ code. row_of_code code };

    #[tactic(auto, unfolding(crate::specs::WordsText::code_row))]
    fn push_item(&self, item: &Code, out: &mut Vec<u8>) -> Result<(), AllocError> {
        push_code_head(*item, out)?;
        push_code_score(*item, out)?;
        push_code_givers(*item, self.0, out)?;
        Ok(())
    }
}

/// Rows of kinds of penalty.
pub(crate) struct KindRows;

impl ItemWriter<PenaltyKind> for KindRows {
    ghost use Rattle.regatta_words.specs.WordsText.{kind_row as row_of_kind};

    ghost text = { λ _ kind. row_of_kind kind };

    #[tactic(auto, unfolding(crate::specs::WordsText::kind_row))]
    fn push_item(&self, item: &PenaltyKind, out: &mut Vec<u8>) -> Result<(), AllocError> {
        push_pieces(
            out,
            &[
                b"{\"kind\":\"",
                item.text().as_bytes(),
                b"\",\"meaning\":\"",
                kind_meaning(*item),
                b"\",\"rule\":\"",
                kind_rule(*item),
                b"\"}",
            ],
        )
    }
}

/// Rows of roles.
pub(crate) struct RoleRows;

impl ItemWriter<Role> for RoleRows {
    ghost use Rattle.regatta_words.specs.WordsText.{role_row as row_of_role};

    ghost text = { λ _ role. row_of_role role };

    #[tactic(auto, unfolding(crate::specs::WordsText::role_row))]
    fn push_item(&self, item: &Role, out: &mut Vec<u8>) -> Result<(), AllocError> {
        push_pieces(
            out,
            &[
                b"{\"role\":\"",
                item.text().as_bytes(),
                b"\",\"meaning\":\"",
                meaning_of_role(*item),
                b"\"}",
            ],
        )
    }
}

/// Rows of forms of lines.
#[derive(Drop)]
pub(crate) struct FormRows<'a>(pub(crate) &'a Example);

impl ItemWriter<Form> for FormRows<'_> {
    ghost use Rattle.regatta_words.specs.WordsText.{form_row as row_of_form};

    ghost text = { λ _ form. row_of_form form };

    #[tactic(auto, unfolding(crate::specs::WordsText::form_row))]
    fn push_item(&self, item: &Form, out: &mut Vec<u8>) -> Result<(), AllocError> {
        let (finish, jury) = (
            sends(Role::Finish, *item, self.0),
            sends(Role::Jury, *item, self.0),
        );
        let scorer = sends(Role::Scorer, *item, self.0);
        push_pieces(
            out,
            &[
                b"{\"line\":\"",
                item.text(),
                b"\",\"text\":\"",
                item.sentence(),
                b"\",\"sent_by\":",
            ],
        )?;
        push_by_role(finish, jury, scorer, out)?;
        push_pieces(out, &[b"}"])?;
        Ok(())
    }
}

/// Appends the row of something with a number.
#[tactic(auto, unfolding(crate::specs::WordsText::numbered_row))]
fn push_numbered(
    number: u8,
    name: &[u8],
    sentence: &[u8],
    out: &mut Vec<u8>,
) -> Result<(), AllocError>
    ensures { Pushed (numbered_row number name.now sentence.now) out.old out.new result }
{
    let mut digits = Buffer::new();
    push_pieces(
        out,
        &[
            b"{\"number\":",
            digits.format(number).as_bytes(),
            b",\"name\":\"",
            name,
            b"\",\"text\":\"",
            sentence,
            b"\"}",
        ],
    )
}

/// Rows of refusals.
pub(crate) struct RefusalRows;

impl ItemWriter<Refusal> for RefusalRows {
    ghost use Rattle.regatta_words.specs.WordsText.{refusal_row as row_of_refusal};

    ghost text = { λ _ refusal. row_of_refusal refusal };

    fn push_item(&self, item: &Refusal, out: &mut Vec<u8>) -> Result<(), AllocError> {
        push_numbered(
            item.number(),
            name_of_refusal(*item),
            sentence_of_refusal(*item),
            out,
        )
    }
}

/// Rows of faults.
pub(crate) struct FaultRows;

impl ItemWriter<LineFault> for FaultRows {
    ghost use Rattle.regatta_words.specs.WordsText.{fault_row as row_of_fault};

    ghost text = { λ _ fault. row_of_fault fault };

    fn push_item(&self, item: &LineFault, out: &mut Vec<u8>) -> Result<(), AllocError> {
        push_numbered(
            item.number(),
            name_of_fault(*item),
            sentence_of_fault(*item),
            out,
        )
    }
}
