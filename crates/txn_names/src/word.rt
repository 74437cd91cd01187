// What a word of the program text is.
ghost use Rattle.std.specs.Prelude.{◌≡◌};
ghost use Rattle.std.specs.Char.{is_ascii_digit};
ghost use Rattle.std.specs.List.{list_all};
ghost use Rattle.std.specs.Str.{bytes_eq};
ghost use Rattle.txn_names.specs.Word as spec;

// Whether bytes may name a table in a program: a word that isn't reserved.
fn is_name(bytes: &[u8]) -> bool
    ensures { result ≡ spec.is_name bytes.now }
{
    is_word(bytes) && !is_reserved(bytes)
}

/// Whether a table may have this name: it is a name of 1 to 16 bytes.
pub fn is_table_name(bytes: &[u8]) -> bool
    ensures { result ≡ spec.is_table_name bytes.now }
{
    is_name(bytes) && bytes.len() <= 16
}

/// The number of the register that a word spells: `r0` to `r15` in exactly these spellings.
pub fn register_of(word: &[u8]) -> Option<u8>
    ensures { result ≡ spec.register_of word.now }
{
    match word {
        [b'r', digit] if digit.is_ascii_digit() => Some(*digit - b'0'),
        [b'r', b'1', digit] if (b'0'..=b'5').contains(digit) => Some(*digit - b'0' + 10),
        _ => None,
    }
}

// Whether a word means something of its own in a program.
fn is_keyword(word: &[u8]) -> bool
    ensures { result ≡ spec.is_keyword word.now }
{
    same_bytes(word, b"if")
        || same_bytes(word, b"else")
        || same_bytes(word, b"loop")
        || same_bytes(word, b"emit")
        || same_bytes(word, b"fail")
        || same_bytes(word, b"min")
        || same_bytes(word, b"max")
        || same_bytes(word, b"sum")
}

fn is_word(bytes: &[u8]) -> bool
    ensures { result ≡ spec.is_word bytes.now }
{
    match bytes {
        [] => false,
        [first, rest @ ..] => first.is_ascii_lowercase() && are_word_bytes(rest),
    }
}

fn are_word_bytes(bytes: &[u8]) -> bool
    ensures { result ≡ list_all spec.is_word_byte bytes.now }
{
    bytes.iter().all(|byte| is_word_byte(*byte))
}

fn are_digits(bytes: &[u8]) -> bool
    ensures { result ≡ list_all is_ascii_digit bytes.now }
{
    bytes.iter().all(|byte| byte.is_ascii_digit())
}

/// Whether a byte may stand in a word after its first byte.
pub fn is_word_byte(byte: u8) -> bool
    ensures { result ≡ spec.is_word_byte byte }
{
    byte.is_ascii_lowercase() || byte.is_ascii_digit() || byte == b'_'
}

/// Whether a word can't name a table: it means something of its own, or it is `r` and then digits alone.
pub fn is_reserved(word: &[u8]) -> bool
    ensures { result ≡ spec.is_reserved word.now }
{
    is_keyword(word) || is_numbered(word)
}

// Whether a word is `r` and then digits alone.
fn is_numbered(word: &[u8]) -> bool
    ensures { result ≡ spec.is_numbered word.now }
{
    match word {
        [] | [_] => false,
        [first, digits @ ..] => *first == b'r' && are_digits(digits),
    }
}

/// Whether two texts are the same bytes.
pub fn same_bytes(word: &[u8], text: &[u8]) -> bool
    ensures { result ≡ bytes_eq word.now text.now }
{
    word == text
}
