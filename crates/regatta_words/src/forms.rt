//! The forms of lines.

ghost use Rattle.std.specs.Prelude.{◌≡◌};
ghost use Rattle.regatta_words.specs.Forms.{form_text, form_sentence};

/// The form of a line: its first word, and what follows it.
#[derive(Clone, Copy)]
pub(crate) enum Form {
    Finish,
    Tie,
    Before,
    Time,
    Strike,
    Mark,
    Penalty,
    Redress,
    Clear,
    Enter,
    Score,
    Unscore,
    Role,
    Rank,
    Show,
    Quit,
}

/// Every form.
pub(crate) const FORMS: [Form; 16] = [
    Form::Finish,
    Form::Tie,
    Form::Before,
    Form::Time,
    Form::Strike,
    Form::Mark,
    Form::Penalty,
    Form::Redress,
    Form::Clear,
    Form::Enter,
    Form::Score,
    Form::Unscore,
    Form::Role,
    Form::Rank,
    Form::Show,
    Form::Quit,
];

impl Form {
    /// The words of the line.
    pub(crate) fn text(self) -> &'static [u8]
        ensures { result.now ≡ form_text self }
    {
        match self {
            Form::Finish => b"FINISH race sail",
            Form::Tie => b"TIE race sail other",
            Form::Before => b"BEFORE race sail other",
            Form::Time => b"TIME race sail seconds",
            Form::Strike => b"STRIKE race sail",
            Form::Mark => b"MARK race sail code",
            Form::Penalty => b"PENALTY race sail kind",
            Form::Redress => b"REDRESS race sail how",
            Form::Clear => b"CLEAR race sail",
            Form::Enter => b"ENTER sail",
            Form::Score => b"SCORE race",
            Form::Unscore => b"UNSCORE race",
            Form::Role => b"ROLE role",
            Form::Rank => b"RANK sail",
            Form::Show => b"SHOW",
            Form::Quit => b"QUIT",
        }
    }

    /// What the line says or asks for.
    pub(crate) fn sentence(self) -> &'static [u8]
        ensures { result.now ≡ form_sentence self }
    {
        match self {
            Form::Finish => b"she finished, after all who have finished so far",
            Form::Tie => b"she finished level with the other (RRS A7)",
            Form::Before => b"she finished just ahead of the other",
            Form::Time => b"her corrected time, in a series by corrected time",
            Form::Strike => b"she leaves the finishing order",
            Form::Mark => b"she has this code, in place of any earlier one",
            Form::Penalty => b"one more ZFP or SCP",
            Form::Redress => b"ALL, PRIOR, or points as 2.5",
            Form::Clear => b"her code, penalties and redress in that race go",
            Form::Enter => b"she enters the series",
            Form::Score => b"the race counts",
            Form::Unscore => b"the race counts no longer",
            Form::Role => b"the lines after this one are sent in that role",
            Form::Rank => b"how she stands",
            Form::Show => b"the journal and the table",
            Form::Quit => b"the session ends",
        }
    }
}
