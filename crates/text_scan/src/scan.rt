//! Sets of bytes, and runs of bytes of one set.
ghost use Rattle.std.specs.Prelude.{◌≡◌, ◌+◌, ◌≤◌, length, drop};
ghost use Rattle.std.specs.List.{prefix_len};
ghost use Rattle.text_scan.specs.ByteSets.{is_in};
ghost use Rattle.text_scan.specs.Text.{every, is_word};

/// A set of bytes.
#[derive(Clone, Copy)]
pub enum ByteSet {
    Space,
    Digit,
    Letter,
    NameByte,
    Inner,
    NotLineFeed,
    Blank,
    NotBlank,
}

impl ByteSet {
    /// Reports whether the byte is in the set.
    pub fn has(self, byte: u8) -> bool
        ensures { result ≡ is_in self byte }
    {
        match self {
            ByteSet::Space => matches!(byte, b' ' | b'\t' | b'\n' | b'\r'),
            ByteSet::Digit => matches!(byte, b'0'..=b'9'),
            ByteSet::Letter => matches!(byte, b'A'..=b'Z' | b'a'..=b'z' | b'_'),
            ByteSet::NameByte => matches!(byte, b'A'..=b'Z' | b'a'..=b'z' | b'_' | b'0'..=b'9'),
            ByteSet::Inner => matches!(byte, b' '..=b'~') && byte != b'"',
            ByteSet::NotLineFeed => byte != b'\n',
            ByteSet::Blank => matches!(byte, b' ' | b'\t'),
            ByteSet::NotBlank => !matches!(byte, b' ' | b'\t'),
        }
    }
}

/// Reports where the run of bytes of a set that begins at `from` ends. An empty run ends at `from`.
pub fn run_end(bytes: &[u8], from: usize, set: ByteSet) -> usize
    requires { from ≤ length bytes.now }
    ensures run { result ≡ from + prefix_len (is_in set) (drop from bytes.now) }
    ensures within { result ≤ length bytes.now }
{
    let mut at = from;
    while at < bytes.len() && set.has(bytes[at]) {
        at += 1;
    }
    at
}

/// Reports whether each byte of a text is in the set.
pub fn all_in(bytes: &[u8], set: ByteSet) -> bool
    ensures { result ≡ every (is_in set) bytes.now }
{
    for byte in bytes {
        if !set.has(*byte) {
            return false;
        }
    }
    true
}

/// Reports whether a text is a word: a name or a keyword, of any length.
pub fn is_word(text: &[u8]) -> bool
    ensures { result ≡ is_word text.now }
{
    match text {
        [first, rest @ ..] => ByteSet::Letter.has(*first) && all_in(rest, ByteSet::NameByte),
        [] => false,
    }
}
