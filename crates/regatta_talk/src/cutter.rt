//! The lines of a text that comes in pieces.
ghost use Rattle.std.specs.Prelude.{◌≡◌, [], if◌then◌else◌};
ghost use Rattle.std.specs.List.{fold};
ghost use Rattle.regatta_terms.specs.TextLines.{is_line_end};
ghost use Rattle.regatta_talk.specs.HeardLines.{heard_with};

use arrayvec::ArrayVec;
use regatta_terms::MAX_LINE;
use std::marker::Model;

/// The most bytes of a line that are buffered: a line's limit, a CR, and one more byte, which shows
/// that the line is too long.
const MAX_HEARD: usize = MAX_LINE + 2;

/// The current line, seen as its buffered bytes. At most [`MAX_HEARD`] bytes are buffered, so a
/// line allocates nothing, however long it is.
#[derive(Drop)]
pub struct Cutter {
    heard: ArrayVec<u8, MAX_HEARD>,
}

impl Model for Cutter {
    ghost use Rattle.std.specs.Prelude.{ℕ, List};

    ghost Value = { List ℕ };

    ghost view = { λ cutter. cutter.heard.items };
}

impl Cutter {
    /// A cutter at the start of a line.
    pub fn new() -> Cutter
        ensures { result ≡ [] }
    {
        Cutter {
            heard: ArrayVec::new(),
        }
    }

    /// Takes the next byte of the text, and returns whether it ends the line.
    pub fn take(&mut self, byte: u8) -> bool
        ensures ended { result ≡ is_line_end byte }
        ensures heard { self.new
            ≡ (if is_line_end byte then self.old else heard_with self.old byte) }
    {
        if byte == b'\n' {
            return true;
        }
        if !self.heard.is_full() {
            self.heard.push(byte);
        }
        false
    }

    /// Takes bytes of the text, none of which ends the line. Bytes that there is no room for are
    /// dropped.
    pub fn hear(&mut self, bytes: &[u8])
        ensures { self.new ≡ fold heard_with self.old bytes.now }
    {
        for byte in bytes {
            if self.heard.is_full() {
                return;
            }
            self.heard.push(*byte);
        }
    }

    /// The buffered bytes of the current line, without its LF.
    pub fn line(&self) -> &[u8]
        ensures { result.now ≡ self.now }
    {
        self.heard.as_slice()
    }

    /// Starts the next line.
    pub fn clear(&mut self)
        ensures { self.new ≡ [] }
    {
        self.heard.clear();
    }
}
