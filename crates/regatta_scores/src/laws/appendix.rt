//! Appendix A as its own sentences.
ghost use Rattle.regatta_scores.specs.AppendixLaws.{AtMostOneFits, OnlyTheStandingFits};

/// At most one table fits the sentences of Appendix A, whatever the rules of the series and the
/// journal.
pub fn at_most_one_table_fits()
    ensures { AtMostOneFits }
{}

/// A table fits the sentences of Appendix A if and only if it is the standing of the journal.
pub fn only_the_standing_fits()
    ensures { OnlyTheStandingFits }
{}
