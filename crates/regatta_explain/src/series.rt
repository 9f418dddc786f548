//! The rules of a series, and the numbers of its document.

ghost use Rattle.std.specs.Prelude.{◌≡◌, decimal};
ghost use Rattle.regatta_json.specs.Pushed.{Pushed};
ghost use Rattle.regatta_json.specs.Rows.{values};
ghost use Rattle.regatta_json.specs.Fields.{field, number_value};
ghost use Rattle.regatta_explain.specs.Rows.{absent_word, rules_text};

use crate::parts::RulesPart;
use regatta_json::{
    ItemWriter, push_flag, push_number, push_pieces, push_value, push_values, push_word,
};
use regatta_scores::Items;
use regatta_terms::Absent;
use std::alloc::AllocError;

/// The rule by which boats that don't finish are scored.
fn rule_of(absent: Absent) -> &'static [u8]
    ensures { result.now ≡ absent_word absent }
{
    match absent {
        Absent::A52 => b"A5.2",
        Absent::A53 => b"A5.3",
    }
}

/// Appends a name, and the rule by which boats that don't finish are scored.
fn push_absent(name: &[u8], absent: Absent, out: &mut Vec<u8>) -> Result<(), AllocError>
    ensures { Pushed (field name.now (absent_word absent)) out.old out.new result }
{
    push_word(name, rule_of(absent), out)
}

/// Appends a name and an amount of points, or null.
fn push_amount(name: &[u8], amount: Option<u8>, out: &mut Vec<u8>) -> Result<(), AllocError>
    ensures { Pushed (field name.now (number_value amount)) out.old out.new result }
{
    push_value(name, amount.map(u32::from), out)
}

/// Thresholds as values.
struct Thresholds;

impl ItemWriter<u8> for Thresholds {
    ghost use Rattle.std.specs.Prelude.{decimal as in_digits};

    ghost text = { λ _ number. in_digits number };

    fn push_item(&self, item: &u8, out: &mut Vec<u8>) -> Result<(), AllocError> {
        push_number(b"", u32::from(*item), out)
    }
}

/// Appends thresholds as values.
fn push_thresholds(thresholds: &Items<u8>, out: &mut Vec<u8>) -> Result<(), AllocError>
    ensures { Pushed (values decimal thresholds.now) out.old out.new result }
{
    push_values(&Thresholds, thresholds.as_slice(), out)
}

/// Appends a name and thresholds.
fn push_named_thresholds(
    name: &[u8],
    thresholds: &Items<u8>,
    out: &mut Vec<u8>,
) -> Result<(), AllocError>
    ensures { Pushed (field name.now (values decimal thresholds.now)) out.old out.new result }
{
    push_pieces(out, &[name])?;
    push_thresholds(thresholds, out)?;
    Ok(())
}

/// Appends the rules of a series.
#[tactic(auto, unfolding(crate::specs::Rows::rules_text))]
pub(crate) fn push_rules(rules: &RulesPart, out: &mut Vec<u8>) -> Result<(), AllocError>
    ensures { Pushed (rules_text rules.now) out.old out.new result }
{
    push_absent(b"{\"absent\":\"", rules.absent, out)?;
    push_amount(b"\",\"scp\":", rules.scp, out)?;
    push_named_thresholds(b",\"exclude\":[", &rules.thresholds, out)?;
    push_flag(b"],\"handicap\":", rules.handicap, out)?;
    push_pieces(out, &[b"}"])?;
    Ok(())
}
