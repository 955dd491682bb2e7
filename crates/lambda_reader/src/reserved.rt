//! Names that begin with `lift'`.

ghost use Rattle.std.specs.Prelude.{◌≡◌};
ghost use Rattle.core_reader.specs.LexedOf.{texts_of};
ghost use Rattle.lambda_reader.specs.Reserving.{is_reserved_token, first_reserved};

use core_reader::{Lexeme, Token};

/// Whether a token is a name that begins with `lift'`.
fn is_reserved(names: &[&[u8]], token: Token) -> bool
    ensures { result ≡ is_reserved_token (texts_of names.now) token }
{
    match token {
        Token::Name(name) => match names.get(name.0 as usize) {
            Some(text) => text.starts_with(b"lift'"),
            None => false,
        },
        _ => false,
    }
}

/// The place of the first name that begins with `lift'`.
pub fn first_reserved(names: &[&[u8]], lexemes: &[Lexeme]) -> Option<u32>
    ensures { result ≡ first_reserved (texts_of names.now) lexemes.now }
{
    for lexeme in lexemes {
        if is_reserved(names, lexeme.token) {
            return Some(lexeme.at);
        }
    }
    None
}
