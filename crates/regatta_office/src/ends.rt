//! Where lines end in a piece of a text.
ghost use Rattle.std.specs.Prelude.{◌≡◌, ◌≤◌, ◌+◌, length, drop};
ghost use Rattle.std.specs.List.{list_any, position, position_or_len};
ghost use Rattle.regatta_terms.specs.TextLines.{is_line_end};

/// How many bytes are searched at a time.
const NEAR: usize = 32;

fn has_end(text: &[u8]) -> bool
    ensures { result ≡ list_any is_line_end text.now }
{
    text.contains(&b'\n')
}

/// Some first bytes of a text, none of which is a line feed: as many as were searched
/// [`NEAR`] at a time.
fn searched(text: &[u8]) -> usize
    ensures value { position_or_len is_line_end text.now
        ≡ result + position_or_len is_line_end (drop result text.now) }
    ensures within { result ≤ length text.now }
{
    let mut from = 0;
    while NEAR <= text.len() - from {
        if has_end(&text[from..from + NEAR]) {
            return from;
        }
        from += NEAR;
    }
    from
}

fn first_end(text: &[u8]) -> Option<usize>
    ensures { result ≡ position is_line_end text.now }
{
    text.iter().position(|byte| *byte == b'\n')
}

#[tactic(auto, using(crate::proofs::EndFacts::end_at, crate::proofs::EndFacts::no_end))]
fn near_end(text: &[u8]) -> usize
    ensures value { result ≡ position_or_len is_line_end text.now }
    ensures within { result ≤ length text.now }
{
    match first_end(text) {
        Some(end) => end,
        None => text.len(),
    }
}

/// The number of bytes before the first line feed, or of all bytes if there is none.
pub(crate) fn line_end(text: &[u8]) -> usize
    ensures value { result ≡ position_or_len is_line_end text.now }
    ensures within { result ≤ length text.now }
{
    let from = searched(text);
    from + near_end(&text[from..])
}
