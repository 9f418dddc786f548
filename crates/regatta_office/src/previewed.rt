//! What lines would do to a series, as the program prints it.
ghost use Rattle.std.specs.Prelude.{OnOk};
ghost use Rattle.regatta_office.specs.Asked.{AtMostPreviewOf, IsPreviewOf};

use crate::complaint::Complaint;
use crate::options::PreviewOptions;
use crate::series::beginning_of;
use regatta_preview::preview;
use regatta_streams::{Sink, Source};
use std::fs::Files;

/// Prints the document of what the lines of the input would do to the journal that a series starts
/// with. Nothing is kept.
pub(crate) fn preview_series<H: Files + AllocGlobal, R: Source, W: Sink>(
    rt: &H,
    options: &PreviewOptions<'_>,
    input: &mut R,
    output: &mut W,
) -> Result<(), Complaint>
    ensures done { OnOk result (IsPreviewOf options.now (R.remaining input.old)
        (W.contents output.old) (W.contents output.new)) }
    ensures at_most { AtMostPreviewOf options.now (R.remaining input.old) (W.contents output.old)
        (W.contents output.new) }
{
    let alloc = rt.alloc();
    let begin = beginning_of(rt, &options.series)?;
    let start = begin.start.as_slice();
    preview(alloc, input, output, &begin.rules, start, options.role)?;
    Ok(())
}
