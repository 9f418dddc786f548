//! That no sentence of Appendix A follows from the others.
ghost use Rattle.regatta_scores.specs.Needed.{AllIsAppendixA, EachIsNeeded};

/// No sentence of Appendix A can be left out: for each there is a journal for which another table
/// than the standing fits all other sentences.
pub fn each_sentence_is_needed()
    ensures all { AllIsAppendixA }
    ensures needed { EachIsNeeded }
{}
