//! What the program says of an end that it cut off a kept file.
ghost use Rattle.std.specs.Prelude.{◌≡◌, ◌++◌, ◌∷◌, [], map, IfOk};
ghost use Rattle.regatta_office.specs.CutNotes.{shown_byte as shown_byte_of, shown_line};

use regatta_keep::Cut;
use regatta_streams::{Sink, write_all};
use std::alloc::{AllocError, Global};

/// A byte as it is shown: a question mark, unless it is printable ASCII.
fn shown_byte(byte: u8) -> u8
    ensures { result ≡ shown_byte_of byte }
{
    if b' ' <= byte && byte <= b'~' {
        byte
    } else {
        b'?'
    }
}

/// A line that shows these bytes.
fn shown(alloc: Global, bytes: &[u8]) -> Result<Vec<u8>, AllocError>
    ensures { IfOk result (λ line. line.items ≡ shown_line bytes.now) }
{
    let mut line = Vec::new(alloc);
    for byte in bytes {
        line.push(shown_byte(*byte))?;
    }
    line.push(b'\n')?;
    Ok(line)
}

/// Writes to standard error what was cut off, if anything was: how much of the file comes before it,
/// and a line with its bytes. If that can't be written, they are still saved beside the file.
pub(crate) fn note_cut<E: Sink>(alloc: Global, errors: &mut E, cut: Cut, torn: &[u8])
    ensures { cut.bytes ≡ 0 → errors.new ≡ errors.old }
{
    if cut.bytes == 0 {
        return;
    }
    let (bytes, lines) = (cut.bytes, cut.lines);
    let text = format!(in alloc; "regatta: keep cut {bytes} bytes after line {lines}\n");
    let (Ok(text), Ok(line)) = (text, shown(alloc, torn)) else {
        return;
    };
    if write_all(errors, text.as_bytes()).is_ok() {
        let _ = write_all(errors, &line);
    }
}
