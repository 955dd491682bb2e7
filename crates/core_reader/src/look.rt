//! What stands at the front of a text.

ghost use Rattle.std.specs.Prelude.{◌≡◌};
ghost use Rattle.core_reader.specs.LookOf.{scanned_token, sign_of, further_sign_of};

use crate::bytes::{digit_len, inner_len, is_digit, is_lower, is_space, is_upper, line_len};
use crate::dialect::Dialect;

/// A sign.
#[derive(Clone, Copy, Debug, PartialEq, Eq)]
pub enum Sign {
    Semicolon,
    Equals,
    OpenBrace,
    CloseBrace,
    Open,
    Close,
    Arrow,
    Backslash,
    Bar,
    Colon,
}

/// A kind of token. Keywords are of the kind `Lower`.
#[derive(Clone, Copy, Debug, PartialEq, Eq)]
pub enum TokenKind {
    Lower,
    Upper,
    Digits,
    Sign(Sign),
}

/// What stands at the front, and how many bytes it has.
#[derive(Clone, Copy, Debug, PartialEq, Eq)]
pub enum Found {
    Gap(usize),
    Token(usize, TokenKind),
    Bad,
    End,
}

/// A sign that the dialect has besides those of Core.
fn further_sign_of(dialect: Dialect, byte: u8) -> Found
    ensures { result ≡ further_sign_of dialect byte }
{
    match dialect {
        Dialect::Core | Dialect::Modules => Found::Bad,
        Dialect::Lambdas => match byte {
            b'\\' => Found::Token(1, TokenKind::Sign(Sign::Backslash)),
            _ => Found::Bad,
        },
        Dialect::Types => match byte {
            b'|' => Found::Token(1, TokenKind::Sign(Sign::Bar)),
            b':' => Found::Token(1, TokenKind::Sign(Sign::Colon)),
            _ => Found::Bad,
        },
    }
}

fn sign_of(dialect: Dialect, byte: u8) -> Found
    ensures { result ≡ sign_of dialect byte }
{
    match byte {
        b';' => Found::Token(1, TokenKind::Sign(Sign::Semicolon)),
        b'=' => Found::Token(1, TokenKind::Sign(Sign::Equals)),
        b'{' => Found::Token(1, TokenKind::Sign(Sign::OpenBrace)),
        b'}' => Found::Token(1, TokenKind::Sign(Sign::CloseBrace)),
        b'(' => Found::Token(1, TokenKind::Sign(Sign::Open)),
        b')' => Found::Token(1, TokenKind::Sign(Sign::Close)),
        _ => further_sign_of(dialect, byte),
    }
}

/// The token, separator or comment that begins with the first byte.
pub(crate) fn look(dialect: Dialect, bytes: &[u8]) -> Found
    ensures { result ≡ scanned_token dialect bytes.now }
{
    let [b, rest @ ..] = bytes else {
        return Found::End;
    };
    if is_space(*b) {
        return Found::Gap(1);
    }
    if is_lower(*b) {
        return Found::Token(1 + inner_len(rest), TokenKind::Lower);
    }
    if is_upper(*b) {
        return Found::Token(1 + inner_len(rest), TokenKind::Upper);
    }
    if is_digit(*b) {
        return Found::Token(1 + digit_len(rest), TokenKind::Digits);
    }
    if *b != b'-' {
        return sign_of(dialect, *b);
    }
    let [c, tail @ ..] = rest else {
        return Found::Bad;
    };
    if *c == b'-' {
        return Found::Gap(2 + line_len(tail));
    }
    if *c == b'>' {
        return Found::Token(2, TokenKind::Sign(Sign::Arrow));
    }
    if is_digit(*c) {
        return Found::Token(2 + digit_len(tail), TokenKind::Digits);
    }
    Found::Bad
}
