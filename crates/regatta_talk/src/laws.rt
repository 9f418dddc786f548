//! Laws of the lines of a text: each function here does nothing, and its contract is the law.
ghost use Rattle.regatta_talk.specs.Laws.{HeardReadsAsLine, LinesOfText};

/// A [`Cutter`](crate::Cutter) that gets a text byte by byte cuts it into the lines of the whole
/// text, each cut off at the limit. What is left of a line reads as the whole line does.
pub fn heard_lines_read_as_the_text()
    ensures lines { LinesOfText }
    ensures read { HeardReadsAsLine }
{}
