//! Kinds of bytes.

ghost use Rattle.std.specs.Prelude.{◌≡◌, length};
ghost use Rattle.std.specs.List.{take_while};
ghost use Rattle.core_reader.specs.Bytes.{is_space, is_lower, is_upper, is_digit, is_inner, is_in_line};

pub(crate) fn is_space(byte: u8) -> bool
    ensures { result ≡ is_space byte }
{
    byte == b' ' || byte == b'\t' || byte == b'\n' || byte == b'\r'
}

pub(crate) fn is_lower(byte: u8) -> bool
    ensures { result ≡ is_lower byte }
{
    (b'a' <= byte && byte <= b'z') || byte == b'_'
}

pub(crate) fn is_upper(byte: u8) -> bool
    ensures { result ≡ is_upper byte }
{
    b'A' <= byte && byte <= b'Z'
}

pub(crate) fn is_digit(byte: u8) -> bool
    ensures { result ≡ is_digit byte }
{
    b'0' <= byte && byte <= b'9'
}

pub(crate) fn is_inner(byte: u8) -> bool
    ensures { result ≡ is_inner byte }
{
    is_lower(byte) || is_upper(byte) || is_digit(byte) || byte == b'\''
}

/// How many bytes of a name go on.
pub(crate) fn inner_len(bytes: &[u8]) -> usize
    ensures { result ≡ length (take_while is_inner bytes.now) }
{
    bytes.iter().take_while(|b| is_inner(**b)).count()
}

pub(crate) fn digit_len(bytes: &[u8]) -> usize
    ensures { result ≡ length (take_while is_digit bytes.now) }
{
    bytes.iter().take_while(|b| is_digit(**b)).count()
}

/// How many bytes stand before the next line feed.
pub(crate) fn line_len(bytes: &[u8]) -> usize
    ensures { result ≡ length (take_while is_in_line bytes.now) }
{
    bytes.iter().take_while(|b| **b != b'\n').count()
}
