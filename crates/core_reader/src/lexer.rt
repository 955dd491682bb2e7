//! A text as tokens, with the numbers of the names.

ghost use Rattle.std.specs.Prelude.{◌≡◌, ◌<◌, ◌≤◌, ◌^◌, ℕ, length, IfOk, IfSome, pos, neg_ℤ, true, false};
ghost use Rattle.indexmap.specs.IndexSet.{index_set_len};
ghost use Rattle.core_reader.specs.WordsOf.{digits_from, has_minus, keyword_of, further_keyword_of, written_number, sign_token};
ghost use Rattle.core_reader.specs.LexedOf.{texts_of, is_large, IsSize, IsSigned, IsNumberOf, IsTokenOf, IsLexed};

use crate::dialect::Dialect;
use crate::look::{Found, Sign, TokenKind, look};
use crate::syntax::NameId;
use crate::token::{Further, Lexeme, Token};
use indexmap::IndexSet;
use std::alloc::{AllocError, Global};

/// The tokens of a text up to the one behind which nothing is read, and the names among them.
#[derive(Drop)]
pub struct Lexed<'a> {
    /// The tokens with their places. The last one is the end of the text, a byte at which no token
    /// begins, or an integer that is out of the range.
    pub lexemes: Vec<Lexeme>,
    /// Each name once, in the order of first appearance.
    pub names: IndexSet<&'a [u8]>,
}

/// The largest magnitude of an integer, which only a negative one has.
const LARGEST: u64 = 2147483648;

/// The number that digits stand for, unless it is larger than any magnitude.
fn magnitude(digits: &[u8]) -> Option<u32>
    ensures { IsSize result (digits_from 0 digits.now) }
{
    let mut value: u64 = 0;
    for digit in digits {
        value = 10 * value + digit.saturating_sub(b'0') as u64;
        if value > LARGEST {
            return None;
        }
    }
    Some(value as u32)
}

/// The token of a number without `-`, from its magnitude.
fn plain_number(size: Option<u32>) -> Token
    ensures { (n : ℕ) → IsSize size n → IsSigned false (pos n) result }
{
    match size {
        Some(n) => {
            if (n as u64) < LARGEST {
                Token::Number(false, n as i32)
            } else {
                Token::Large(false)
            }
        }
        None => Token::Large(false),
    }
}

/// The token of a number behind a `-`, from its magnitude.
fn negative_number(size: Option<u32>) -> Token
    requires { IfSome size (λ n. n ≤ 2147483648) }
    ensures { (n : ℕ) → IsSize size n → IsSigned true (neg_ℤ (pos n)) result }
{
    match size {
        Some(n) => Token::Number(true, (-(n as i64)) as i32),
        None => Token::Large(true),
    }
}

/// The token of an integer.
fn number_token(word: &[u8]) -> Token
    ensures { IsSigned (has_minus word.now) (written_number word.now) result }
{
    let [first, digits @ ..] = word else {
        return Token::Number(false, 0);
    };
    if *first == b'-' {
        return negative_number(magnitude(digits));
    }
    plain_number(magnitude(word))
}

impl Sign {
    fn token(self) -> Token
        ensures { result ≡ sign_token self }
    {
        match self {
            Sign::Semicolon => Token::Semicolon,
            Sign::Equals => Token::Equals,
            Sign::OpenBrace => Token::OpenBrace,
            Sign::CloseBrace => Token::CloseBrace,
            Sign::Open => Token::Open,
            Sign::Close => Token::Close,
            Sign::Arrow => Token::Arrow,
            Sign::Backslash => Token::Further(Further::Backslash),
            Sign::Bar => Token::Further(Further::Bar),
            Sign::Colon => Token::Further(Further::Colon),
        }
    }
}

/// A keyword that the dialect has besides those of Core.
fn further_keyword(dialect: Dialect, word: &[u8]) -> Option<Token>
    ensures { result ≡ further_keyword_of dialect word.now }
{
    match dialect {
        Dialect::Core | Dialect::Lambdas => None,
        Dialect::Modules => match word {
            b"module" => Some(Token::Further(Further::Module)),
            b"export" => Some(Token::Further(Further::Export)),
            b"import" => Some(Token::Further(Further::Import)),
            _ => None,
        },
        Dialect::Types => match word {
            b"type" => Some(Token::Further(Further::TypeDecl)),
            b"sig" => Some(Token::Further(Further::Signature)),
            _ => None,
        },
    }
}

fn keyword(dialect: Dialect, word: &[u8]) -> Option<Token>
    ensures { result ≡ keyword_of dialect word.now }
{
    match word {
        b"data" => Some(Token::Data),
        b"let" => Some(Token::Let),
        b"in" => Some(Token::In),
        b"case" => Some(Token::Case),
        b"of" => Some(Token::Of),
        _ => further_keyword(dialect, word),
    }
}

impl Token {
    /// Whether nothing is read behind the token of an integer.
    fn is_large(self) -> bool
        ensures { result ≡ is_large self }
    {
        matches!(self, Token::Large(_))
    }
}

/// The number of a name, which is put at the end of the names where it is new.
fn name_id<'a>(names: &mut IndexSet<&'a [u8]>, word: &'a [u8]) -> Result<NameId, AllocError>
    requires { index_set_len names.old < 2 ^ 32 }
    ensures { IfOk result (λ id.
        IsNumberOf (texts_of names.old.keys) (texts_of names.new.keys) word.now id) }
{
    let (index, _) = names.insert_full(word)?;
    Ok(NameId(index as u32))
}

/// The token that the bytes are.
fn token_of<'a>(
    dialect: Dialect,
    names: &mut IndexSet<&'a [u8]>,
    word: &'a [u8],
    kind: TokenKind,
) -> Result<Token, AllocError>
    requires { index_set_len names.old < 2 ^ 32 }
    ensures { IfOk result (λ token.
        IsTokenOf dialect (texts_of names.old.keys) (texts_of names.new.keys) word.now kind token) }
{
    match kind {
        TokenKind::Lower => match keyword(dialect, word) {
            Some(token) => Ok(token),
            None => Ok(Token::Name(name_id(names, word)?)),
        },
        TokenKind::Upper => Ok(Token::Con(name_id(names, word)?)),
        TokenKind::Digits => Ok(number_token(word)),
        TokenKind::Sign(sign) => Ok(sign.token()),
    }
}

/// The longest-token reading of the text, to its end, to the first byte at which nothing begins, or
/// to the first integer that is out of the range.
pub fn lex<'a>(alloc: Global, dialect: Dialect, text: &'a [u8]) -> Result<Lexed<'a>, AllocError>
    requires { length text.now < 2 ^ 32 }
    ensures { IfOk result (λ l. IsLexed dialect text.now l.lexemes.items (texts_of l.names.keys)) }
{
    let mut names = IndexSet::new(alloc);
    let mut lexemes = Vec::new(alloc);
    let mut at = 0;
    loop {
        match look(dialect, &text[at..]) {
            Found::Gap(len) => at += len,
            Found::Token(len, kind) => {
                let token = token_of(dialect, &mut names, &text[at..at + len], kind)?;
                lexemes.push(Lexeme {
                    at: at as u32,
                    token,
                })?;
                if token.is_large() {
                    return Ok(Lexed { lexemes, names });
                }
                at += len;
            }
            Found::Bad => {
                lexemes.push(Lexeme {
                    at: at as u32,
                    token: Token::Bad,
                })?;
                return Ok(Lexed { lexemes, names });
            }
            Found::End => {
                lexemes.push(Lexeme {
                    at: at as u32,
                    token: Token::End,
                })?;
                return Ok(Lexed { lexemes, names });
            }
        }
    }
}
