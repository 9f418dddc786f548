//! Which role sends which line, and gives which code.

ghost use Rattle.std.specs.Prelude.{◌≡◌};
ghost use Rattle.regatta_words.specs.Senders.{gives as may_give, sends as may_send_form};

use crate::forms::Form;
use regatta_terms::{Code, Command, PenaltyKind, RaceNo, Redress, Role, Sail, Seconds, may};

/// A race and a boat that commands are about. Who may send a command depends on neither.
#[derive(Clone, Copy)]
pub(crate) struct Example {
    pub(crate) race: RaceNo,
    pub(crate) sail: Sail,
    pub(crate) seconds: Seconds,
}

/// Such a race and boat.
pub(crate) fn an_example() -> Example {
    Example {
        race: RaceNo::new(1).unwrap(),
        sail: Sail::read(b"A").unwrap(),
        seconds: Seconds::new(0).unwrap(),
    }
}

/// Whether the role may give a boat the code.
pub(crate) fn gives(role: Role, code: Code, of: &Example) -> bool
    ensures { result ≡ may_give role code }
{
    let (race, sail) = (of.race, of.sail);
    may(role, &Command::Mark { race, sail, code })
}

/// Whether the role may give a boat some code.
fn gives_any(role: Role, of: &Example) -> bool
    ensures { result ≡ may_send_form role Form.Mark }
{
    Code::ALL.iter().any(|code| gives(role, *code, of))
}

/// Whether the role may send penalties of some kind.
fn penalises(role: Role, of: &Example) -> bool
    ensures { result ≡ may_send_form role Form.Penalty }
{
    let (race, sail) = (of.race, of.sail);
    [PenaltyKind::Zfp, PenaltyKind::Scp].iter().any(|kind| {
        may(
            role,
            &Command::Penalise {
                race,
                sail,
                kind: *kind,
            },
        )
    })
}

/// Whether the role may give redress.
fn redresses(role: Role, of: &Example) -> bool
    ensures { result ≡ may_send_form role Form.Redress }
{
    let (race, sail) = (of.race, of.sail);
    [Redress::AllRaces, Redress::RacesBefore]
        .iter()
        .any(|redress| {
            may(
                role,
                &Command::Redress {
                    race,
                    sail,
                    redress: *redress,
                },
            )
        })
}

/// Whether the role may send a line of the form.
pub(crate) fn sends(role: Role, form: Form, of: &Example) -> bool
    ensures { result ≡ may_send_form role form }
{
    let (race, sail, seconds) = (of.race, of.sail, of.seconds);
    match form {
        Form::Finish => may(role, &Command::Finish { race, sail }),
        Form::Tie => may(
            role,
            &Command::Tie {
                race,
                sail,
                other: sail,
            },
        ),
        Form::Before => may(
            role,
            &Command::Before {
                race,
                sail,
                other: sail,
            },
        ),
        Form::Time => may(
            role,
            &Command::Time {
                race,
                sail,
                seconds,
            },
        ),
        Form::Strike => may(role, &Command::Strike { race, sail }),
        Form::Mark => gives_any(role, of),
        Form::Penalty => penalises(role, of),
        Form::Redress => redresses(role, of),
        Form::Clear => may(role, &Command::Clear { race, sail }),
        Form::Enter => may(role, &Command::Enter { sail }),
        Form::Score => may(role, &Command::Score { race }),
        Form::Unscore => may(role, &Command::Unscore { race }),
        Form::Role | Form::Rank | Form::Show | Form::Quit => true,
    }
}
