//! Why a line is no decision.

/// Why a line is no decision: the first fault that it has, in the order given here.
#[derive(Clone, Copy, Debug, PartialEq, Eq)]
pub enum DecisionFault {
    /// It has more than 60 words.
    TooLong,
    /// It doesn't begin with `race`, a number, a sail and one more word.
    BadForm,
    /// The race isn't one or two digits of value 1 to 40.
    BadRace,
    /// No word from the fourth on is a kind of decision.
    NoKind,
    /// The words before the kind, joined, aren't 1 to 12 letters, digits and dashes.
    BadSail,
    /// The kind doesn't take what is after it, or needs something.
    BadArgument,
    /// A percentage isn't 1 to 100.
    BadPercent,
    /// A penalty of no points, or a time limit of less than one.
    TooFew,
    /// An average names its own race.
    Itself,
    /// An average names a race twice, or one that isn't 1 to 40.
    BadRaces,
}
