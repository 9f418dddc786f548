//! The vocabulary, as the program prints it.
ghost use Rattle.std.specs.Prelude.{◌≡◌, ◌+◌, OnOk, IsErrOf};
ghost use Rattle.std.specs.Io.KnownBytes.{Appends};
ghost use Rattle.regatta_streams.specs.Texts.{AppendsPrefix};
ghost use Rattle.regatta_words.specs.WordsText.{words_text};
ghost use Rattle.regatta_office.specs.Asked.{WritesAtMost};

use crate::complaint::Complaint;
use regatta_streams::{Sink, write_all};
use regatta_words::write_words;
use std::alloc::Global;

/// Prints the vocabulary: the text is made whole and then written.
///
/// # Errors
///
/// `Device` if the write fails: some first part of the text is written then, never all of it.
/// `NoMemory` if there is no memory for the text: nothing is written then.
pub(crate) fn print_words<W: Sink>(alloc: Global, output: &mut W) -> Result<(), Complaint>
    ensures wrote { OnOk result (Appends (W.contents output.old) (W.contents output.new)
        words_text) }
    ensures well { OnOk result (W.failures output.new ≡ W.failures output.old) }
    ensures write { IsErrOf result Complaint.Device →
        W.failures output.new ≡ W.failures output.old + 1 }
    ensures cut { IsErrOf result Complaint.Device → AppendsPrefix (W.contents output.old)
        (W.contents output.new) words_text }
    ensures silent { IsErrOf result Complaint.NoMemory → output.new ≡ output.old }
    ensures at_most { WritesAtMost words_text (W.contents output.old) (W.contents output.new) }
{
    let mut text = Vec::new(alloc);
    if write_words(&mut text).is_err() {
        return Err(Complaint::NoMemory);
    }
    if write_all(output, &text).is_err() {
        return Err(Complaint::Device);
    }
    Ok(())
}
