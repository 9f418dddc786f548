//! Names of fields, each followed by a value of the explanation's own.

ghost use Rattle.std.specs.Prelude.{◌≡◌, decimal};
ghost use Rattle.regatta_json.specs.Fields.{field, number_value, quoted};
ghost use Rattle.regatta_json.specs.Pushed.{Pushed};
ghost use Rattle.regatta_json.specs.Rows.{values};
ghost use Rattle.regatta_explain.specs.Rows.{status_word, code_value, given_value, redress_value};

use regatta_json::{
    ItemWriter, push_number, push_points, push_quoted, push_string, push_value, push_values,
    push_word,
};
use regatta_scores::Items;
use regatta_terms::{Code, RaceNo, Redress, Sail, Seconds};
use std::alloc::AllocError;

/// The word for how a boat is scored.
fn status(code: Option<Code>) -> &'static [u8]
    ensures { result.now ≡ status_word code }
{
    match code {
        Some(code) => code.text().as_bytes(),
        None => b"FIN",
    }
}

/// Appends a name, and how a boat is scored.
pub(crate) fn push_status(
    name: &[u8],
    code: Option<Code>,
    out: &mut Vec<u8>,
) -> Result<(), AllocError>
    ensures { Pushed (field name.now (status_word code)) out.old out.new result }
{
    push_word(name, status(code), out)
}

/// Appends a name and a code, or null.
#[tactic(auto, unfolding(crate::specs::Rows::code_value))]
pub(crate) fn push_code(
    name: &[u8],
    code: Option<Code>,
    out: &mut Vec<u8>,
) -> Result<(), AllocError>
    ensures { Pushed (field name.now (code_value code)) out.old out.new result }
{
    match code {
        Some(code) => push_string(name, code.text().as_bytes(), out),
        None => push_word(name, b"null", out),
    }
}

/// Appends a name and a time, or null.
pub(crate) fn push_seconds(
    name: &[u8],
    seconds: Option<Seconds>,
    out: &mut Vec<u8>,
) -> Result<(), AllocError>
    ensures { Pushed (field name.now (number_value seconds)) out.old out.new result }
{
    push_value(name, seconds.map(Seconds::get), out)
}

/// Appends a name and redress.
#[tactic(auto, unfolding(crate::specs::Rows::given_value))]
fn push_given(name: &[u8], redress: Redress, out: &mut Vec<u8>) -> Result<(), AllocError>
    ensures { Pushed (field name.now (given_value redress)) out.old out.new result }
{
    match redress {
        Redress::Points(award) => push_points(name, award.get(), out),
        Redress::AllRaces => push_word(name, b"\"ALL\"", out),
        Redress::RacesBefore => push_word(name, b"\"PRIOR\"", out),
    }
}

/// Appends a name and redress, or null.
#[tactic(auto, unfolding(crate::specs::Rows::redress_value))]
pub(crate) fn push_redress(
    name: &[u8],
    redress: Option<Redress>,
    out: &mut Vec<u8>,
) -> Result<(), AllocError>
    ensures { Pushed (field name.now (redress_value redress)) out.old out.new result }
{
    match redress {
        Some(redress) => push_given(name, redress, out),
        None => push_word(name, b"null", out),
    }
}

/// Sails as values.
struct Sails;

impl ItemWriter<Sail> for Sails {
    ghost use Rattle.regatta_json.specs.Fields.{quoted as in_quotes};

    ghost text = { λ _ sail. in_quotes sail };

    fn push_item(&self, item: &Sail, out: &mut Vec<u8>) -> Result<(), AllocError> {
        push_quoted(item.as_bytes(), out)
    }
}

/// Races as values.
struct Races;

impl ItemWriter<RaceNo> for Races {
    ghost use Rattle.std.specs.Prelude.{decimal as in_digits};

    ghost text = { λ _ race. in_digits race };

    fn push_item(&self, item: &RaceNo, out: &mut Vec<u8>) -> Result<(), AllocError> {
        push_number(b"", u32::from(item.get()), out)
    }
}

/// Appends sails as values.
pub(crate) fn push_sails(sails: &Items<Sail>, out: &mut Vec<u8>) -> Result<(), AllocError>
    ensures { Pushed (values quoted sails.now) out.old out.new result }
{
    push_values(&Sails, sails.as_slice(), out)
}

/// Appends races as values.
pub(crate) fn push_races(races: &Items<RaceNo>, out: &mut Vec<u8>) -> Result<(), AllocError>
    ensures { Pushed (values decimal races.now) out.old out.new result }
{
    push_values(&Races, races.as_slice(), out)
}
