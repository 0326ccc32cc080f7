// What the bytes of a text may be.

ghost use Rattle.std.specs.Prelude.{◌≡◌, ◌<◌, take_while, EachIndex, slice_index};
ghost use Rattle.std.specs.Char.{is_ascii_digit};
ghost use Rattle.text_lexer.specs.Bytes.{is_printable, is_quote, begins_name, goes_on_name, escaped};

/// Whether a byte may stand in a text outside comments, beside the ends of lines.
pub fn is_printable(byte: u8) -> bool
    ensures { result ≡ is_printable byte }
{
    byte >= b' ' && byte <= b'~'
}

/// Whether a byte begins a string.
pub fn is_quote(byte: u8) -> bool
    ensures { result ≡ is_quote byte }
{
    byte == b'"' || byte == b'\''
}

/// Whether a byte begins a name.
pub fn begins_name(byte: u8) -> bool
    ensures { result ≡ begins_name byte }
{
    byte.is_ascii_alphabetic() || byte == b'_'
}

/// Whether a name goes on with a byte.
pub fn goes_on_name(byte: u8) -> bool
    ensures { result ≡ goes_on_name byte }
{
    begins_name(byte) || byte.is_ascii_digit()
}

/// What a backslash and a byte stand for in a string.
pub fn escaped(byte: u8) -> Option<u8>
    ensures { result ≡ escaped byte }
{
    if byte == b'n' {
        Some(b'\n')
    } else if byte == b'\\' {
        Some(b'\\')
    } else if is_quote(byte) {
        Some(byte)
    } else {
        None
    }
}

/// The bytes at the front with which a name goes on.
pub fn name_at(bytes: &[u8]) -> &[u8]
    ensures value { result.now ≡ take_while goes_on_name bytes.now }
    ensures ascii { EachIndex result.now (λ k. slice_index result.now k < 0x80) }
{
    let mut count = 0;
    while count < bytes.len() && goes_on_name(bytes[count]) {
        count += 1;
    }
    &bytes[..count]
}

/// The digits at the front.
pub fn digits_at(bytes: &[u8]) -> &[u8]
    ensures { result.now ≡ take_while is_ascii_digit bytes.now }
{
    let mut count = 0;
    while count < bytes.len() && bytes[count].is_ascii_digit() {
        count += 1;
    }
    &bytes[..count]
}
