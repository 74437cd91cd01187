// A line of a report, set beside what it must be.
ghost use Rattle.std.specs.Prelude.{◌≡◌, ◌-◌, ◌^◌, ◌↔◌, IsTrue, min, ℕ, List, [], ◌∷◌, ◌++◌, option_map};
ghost use Rattle.report_text.specs.Order.{first_word as first_word_of, commit_number as number_of};

use scc_text::read_natural;

/// Whether a text is this line and a newline.
pub(crate) fn is_line(text: &[u8], line: &[u8]) -> bool
    ensures { IsTrue result ↔ (text.now ≡ line.now ++ 10 ∷ []) }
{
    match text.split_last() {
        Some((newline, front)) => *newline == b'\n' && is_same(front, line),
        None => false,
    }
}

// Whether two texts are the same.
fn is_same(text: &[u8], other: &[u8]) -> bool
    ensures { IsTrue result ↔ (text.now ≡ other.now) }
{
    text == other
}

/// The number that a line names behind `commit `, where it begins so; a greater one than 64 bits hold is answered as the greatest.
pub(crate) fn commit_number(line: &[u8]) -> Option<u64>
    ensures { result ≡ option_map (λ n. min n (2 ^ 64 - 1)) (number_of line.now) }
{
    if line.len() < 7 || &line[..7] != b"commit ".as_slice() {
        return None;
    }
    read_natural(first_word(&line[7..]))
}

// The bytes before the first blank.
fn first_word(bytes: &[u8]) -> &[u8]
    ensures { result.now ≡ first_word_of bytes.now }
{
    for i in 0..bytes.len() {
        if bytes[i] == b' ' {
            return &bytes[..i];
        }
    }
    bytes
}
