//! Texts put into a page at a place: bytes, numbers and points. A page is a row of bytes; what is
//! before a place is the text so far.

ghost use Rattle.std.specs.Prelude.{◌≡◌, ◌≤◌, ◌<◌, ◌++◌, ◌+◌, ◌∷◌, [], ◌/◌, ◌%◌, decimal, length};
ghost use Rattle.std.specs.Prelude.{take};
ghost use Rattle.regatta_terms.specs.Entries.{points_text};

/// Each number from 0 to 99, in two digits.
static PAIRS: [u8; 200] = *b"\
00010203040506070809101112131415161718192021222324252627282930313233343536373839404142434445464748\
49505152535455565758596061626364656667686970717273747576777879808182838485868788899091929394959697\
9899";

/// Puts a byte at a place of the page. Returns the place after it.
pub(crate) fn put(page: &mut [u8], at: usize, byte: u8) -> usize
    requires room { at + 1 ≤ length page.old }
    ensures text { take result page.new ≡ take at page.old ++ byte ∷ [] }
    ensures end { result ≡ at + 1 }
    ensures same { length page.new ≡ length page.old }
{
    page[at] = byte;
    at + 1
}

/// Puts a piece.
pub(crate) fn put_piece(page: &mut [u8], at: usize, piece: &[u8]) -> usize
    requires room { at + length piece.now ≤ length page.old }
    ensures text { take result page.new ≡ take at page.old ++ piece.now }
    ensures end { result ≡ at + length piece.now }
    ensures same { length page.new ≡ length page.old }
{
    let end = at + piece.len();
    page[at..end].copy_from_slice(piece);
    end
}

#[tactic(auto, using(crate::proofs::DigitFacts::one_digit))]
fn put_digit(page: &mut [u8], at: usize, digit: u32) -> usize
    requires one { digit < 10 }
    requires room { at + 1 ≤ length page.old }
    ensures text { take result page.new ≡ take at page.old ++ decimal digit }
    ensures end { result ≡ at + 1 }
    ensures same { length page.new ≡ length page.old }
{
    put(page, at, b'0' + digit as u8)
}

/// Puts two digits, the first of which may be zero.
fn put_two(page: &mut [u8], at: usize, number: u32) -> usize
    requires two { number < 100 }
    requires room { at + 2 ≤ length page.old }
    ensures text { take result page.new
        ≡ take at page.old ++ (decimal (number / 10) ++ decimal (number % 10)) }
    ensures end { result ≡ at + 2 }
    ensures same { length page.new ≡ length page.old }
{
    let from = number as usize * 2;
    let (first, second) = (PAIRS[from], PAIRS[from + 1]);
    let at = put(page, at, first);
    put(page, at, second)
}

/// Puts a number of one or two digits.
#[tactic(auto, using(crate::proofs::DigitFacts::two_digits))]
fn put_short(page: &mut [u8], at: usize, number: u32) -> usize
    requires short { number < 100 }
    requires room { at + 2 ≤ length page.old }
    ensures text { take result page.new ≡ take at page.old ++ decimal number }
    ensures most { result ≤ at + 2 }
    ensures same { length page.new ≡ length page.old }
{
    if number < 10 {
        put_digit(page, at, number)
    } else {
        put_two(page, at, number)
    }
}

/// Puts a number of at most four digits.
#[tactic(auto, using(crate::proofs::DigitFacts::four_digits))]
pub(crate) fn put_number(page: &mut [u8], at: usize, number: u32) -> usize
    requires few { number < 10000 }
    requires room { at + 4 ≤ length page.old }
    ensures text { take result page.new ≡ take at page.old ++ decimal number }
    ensures most { result ≤ at + 4 }
    ensures same { length page.new ≡ length page.old }
{
    if number < 100 {
        put_short(page, at, number)
    } else {
        let at = put_short(page, at, number / 100);
        put_two(page, at, number % 100)
    }
}

/// Puts points with one decimal.
#[tactic(auto, using(crate::proofs::DigitFacts::digit_text))]
pub(crate) fn put_points(page: &mut [u8], at: usize, tenths: u32) -> usize
    requires few { tenths < 100000 }
    requires room { at + 6 ≤ length page.old }
    ensures text { take result page.new ≡ take at page.old ++ points_text tenths }
    ensures most { result ≤ at + 6 }
    ensures same { length page.new ≡ length page.old }
{
    let at = put_number(page, at, tenths / 10);
    let at = put(page, at, b'.');
    put_digit(page, at, tenths % 10)
}
