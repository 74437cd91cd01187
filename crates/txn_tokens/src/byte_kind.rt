// Kinds of bytes, and runs of one kind.
ghost use Rattle.std.specs.Prelude.{◌≡◌, ◌≤◌, length};
ghost use Rattle.std.specs.List.{prefix_len};
ghost use Rattle.txn_tokens.specs.Bytes.{is_of};

use txn_names::is_word_byte;

/// What a run of bytes is made of.
#[derive(Clone, Copy, Debug, PartialEq, Eq)]
pub enum ByteKind {
    /// What stands between two tokens: a tab, a carriage return or a space.
    Blank,
    /// A digit.
    Digit,
    /// What may stand in a word after its first byte.
    Word,
}

/// How many bytes at the front are of a kind.
pub fn run_len(bytes: &[u8], kind: ByteKind) -> usize
    ensures value { result ≡ prefix_len (is_of kind) bytes.now }
    ensures within { result ≤ length bytes.now }
{
    for (at, byte) in bytes.iter().enumerate() {
        if !is_of(*byte, kind) {
            return at;
        }
    }
    bytes.len()
}

fn is_of(byte: u8, kind: ByteKind) -> bool
    ensures { result ≡ is_of kind byte }
{
    match kind {
        ByteKind::Blank => byte == b'\t' || byte == b'\r' || byte == b' ',
        ByteKind::Digit => byte.is_ascii_digit(),
        ByteKind::Word => is_word_byte(byte),
    }
}
