//! Lines as words.

ghost use Rattle.std.specs.Prelude.{◌≡◌, ◌<◌, [], ◌∷◌, ◌==◌, ◌||◌, ◌≤◌, length, map, take, MatchOption};
ghost use Rattle.std.specs.Prelude.{IfSome, IsTrue, nat_le};
ghost use Rattle.std.specs.List.{concat, position, slice_split};
ghost use Rattle.std.specs.Str.{str_to_ascii_uppercase};
ghost use Rattle.regatta_terms.specs.Words.{says};
ghost use Rattle.regatta_rulings.specs.DecisionWords.{is_blank as is_blank_byte, words_of};
ghost use Rattle.regatta_rulings.specs.DecisionWords.{without_note as without_note_of};

use arrayvec::ArrayVec;

/// Whether a word is the keyword, in letters of any case.
pub(crate) fn is_keyword(word: &[u8], keyword: &[u8]) -> bool
    requires { str_to_ascii_uppercase keyword.now ≡ keyword.now }
    ensures { result ≡ says word.now keyword.now }
{
    word.eq_ignore_ascii_case(keyword)
}

fn find(text: &[u8], mark: u8) -> Option<usize>
    ensures { result ≡ position (λ b. b == mark) text.now }
{
    text.iter().position(|byte| *byte == mark)
}

/// The part before the first `mark`, and the part after it.
#[tactic(auto, using(regatta_terms::proofs::Cuts::cut_at, regatta_terms::proofs::Cuts::cut_nowhere))]
pub(crate) fn cut(text: &[u8], mark: u8) -> (&[u8], Option<&[u8]>)
    ensures parts { MatchOption result.1
        (slice_split (λ b. b == mark) text.now ≡ result.0.now ∷ [])
        (λ rest. slice_split (λ b. b == mark) text.now
        ≡ result.0.now ∷ slice_split (λ b. b == mark) rest.now) }
    ensures shorter { IfSome result.1 (λ rest. length rest.now < length text.now) }
{
    match find(text, mark) {
        Some(i) => (&text[..i], Some(&text[i + 1..])),
        None => (text, None),
    }
}

/// A line without its note, which begins with `#`.
#[tactic(auto, using(crate::proofs::WordFacts::before_note))]
pub(crate) fn without_note(line: &[u8]) -> &[u8]
    ensures { result.now ≡ without_note_of line.now }
{
    cut(line, b'#').0
}

/// A space, a tab or a carriage return.
fn is_blank(byte: u8) -> bool
    ensures { result ≡ is_blank_byte byte }
{
    byte == b' ' || byte == b'\t' || byte == b'\r'
}

fn find_blank(text: &[u8]) -> Option<usize>
    ensures { result ≡ position is_blank_byte text.now }
{
    text.iter().position(|byte| is_blank(*byte))
}

/// The part before the first blank, and the part after it.
#[tactic(auto, using(regatta_terms::proofs::Cuts::cut_at, regatta_terms::proofs::Cuts::cut_nowhere))]
fn cut_blank(text: &[u8]) -> (&[u8], Option<&[u8]>)
    ensures parts { MatchOption result.1
        (slice_split is_blank_byte text.now ≡ result.0.now ∷ [])
        (λ rest. slice_split is_blank_byte text.now
        ≡ result.0.now ∷ slice_split is_blank_byte rest.now) }
    ensures shorter { IfSome result.1 (λ rest. length rest.now < length text.now) }
{
    match find_blank(text) {
        Some(i) => (&text[..i], Some(&text[i + 1..])),
        None => (text, None),
    }
}

/// Puts the first 64 words of the text into the slots, or all if there are fewer. Returns how many.
pub(crate) fn first_words<'a>(text: &'a [u8], slots: &mut [&'a [u8]; 64]) -> usize
    ensures words { map (λ word. word.now) (take result slots.new) ≡ take 64 (words_of text.now) }
    ensures most { result ≤ 64 }
    ensures slots { length slots.new ≡ 64 }
{
    let mut count = 0;
    let mut rest = Some(text);
    while let Some(text) = rest {
        if count == 64 {
            break;
        }
        let (part, after) = cut_blank(text);
        if !part.is_empty() {
            slots[count] = part;
            count += 1;
        }
        rest = after;
    }
    count
}

/// How many bytes joined words may have.
pub(crate) const JOINED: usize = 160;

/// Words, without the blanks between them.
pub(crate) type Joined = ArrayVec<u8, JOINED>;

/// Joins words in an empty text, if they have at most [`JOINED`] bytes. Returns whether they have.
#[tactic(auto, using(crate::proofs::WordFacts::joined_more, crate::proofs::WordFacts::no_room))]
pub(crate) fn join(out: &mut Joined, words: &[&[u8]]) -> bool
    requires { out.old.items ≡ [] }
    ensures fits { result ≡ nat_le (length (concat (map (λ word. word.now) words.now))) 160 }
    ensures joined { IsTrue result → out.new.items ≡ concat (map (λ word. word.now) words.now) }
{
    for word in words {
        match out.try_extend_from_slice(word) {
            Ok(()) => {}
            Err(_) => return false,
        }
    }
    true
}
