//! The patterns of an equation.

ghost use Rattle.std.specs.Prelude.{◌≡◌, ◌<◌, ◌≤◌, true, false, length, OnOk};
ghost use Rattle.core_reader.specs.Machine.{front, starts_atom};
ghost use Rattle.core_reader.specs.declared.token.Token.TheVariants as word;
ghost use Rattle.match_compile.specs.Reading.{ReadsPat, ReadsPats};

use crate::source::Pat;
use core_reader::{Binder, Parser, ReadRefusal, Token};
use limits::MOST_OPEN;
use seq::Seq;

/// Whether a pattern begins with the token.
fn starts_pattern(token: Token) -> bool
    ensures { result ≡ starts_atom token }
{
    matches!(
        token,
        Token::Name(_) | Token::Con(_) | Token::Number(..) | Token::Large(_) | Token::Open
    )
}

#[cycle(patterns)]
fn pattern(parser: &mut Parser) -> Result<Pat, ReadRefusal>
    requires { starts_atom (front parser.old.rest.now).token ≡ true }
    ensures reads { ReadsPat parser.old.depth parser.old.rest.now parser.new.rest.now result }
    ensures shorter { OnOk result (length parser.new.rest.now < length parser.old.rest.now) }
    ensures depth { OnOk result (parser.new.depth ≡ parser.old.depth) }
{
    let next = parser.peek();
    match next.token {
        Token::Name(name) => {
            parser.advance();
            Ok(Pat::Name(Binder { name, at: next.at }))
        }
        Token::Con(name) => {
            parser.advance();
            Ok(Pat::Con(Binder { name, at: next.at }, Seq::new(parser.alloc)))
        }
        Token::Number(_, value) => {
            parser.advance();
            Ok(Pat::Int(value, next.at))
        }
        Token::Large(_) => Err(ReadRefusal::NumberRange(next.at)),
        Token::Open => bracket(parser, next.at),
        _ => Err(parser.refusal()),
    }
}

/// A constructor with patterns for its fields, in brackets.
#[cycle(patterns)]
fn bracket(parser: &mut Parser, at: u32) -> Result<Pat, ReadRefusal>
    requires opens { (front parser.old.rest.now).token ≡ word.Open }
    requires at { (front parser.old.rest.now).at ≡ at }
    ensures reads { ReadsPat parser.old.depth parser.old.rest.now parser.new.rest.now result }
    ensures shorter { OnOk result (length parser.new.rest.now < length parser.old.rest.now) }
    ensures depth { OnOk result (parser.new.depth ≡ parser.old.depth) }
{
    if parser.depth >= MOST_OPEN {
        return Err(ReadRefusal::TooDeep(at));
    }
    parser.advance();
    let next = parser.peek();
    match next.token {
        Token::Con(name) => {
            parser.advance();
            parser.depth += 1;
            let fields = patterns(parser)?;
            parser.depth -= 1;
            parser.take(Token::Close)?;
            Ok(Pat::Con(Binder { name, at: next.at }, Seq::from_vec(fields)))
        }
        _ => Err(parser.refusal()),
    }
}

/// All patterns that stand next.
#[cycle(patterns)]
pub fn patterns(parser: &mut Parser) -> Result<Vec<Pat>, ReadRefusal>
    ensures reads { ReadsPats parser.old.depth parser.old.rest.now parser.new.rest.now result }
    ensures whole { OnOk result (starts_atom (front parser.new.rest.now).token ≡ false) }
    ensures shorter { OnOk result (length parser.new.rest.now ≤ length parser.old.rest.now) }
    ensures depth { OnOk result (parser.new.depth ≡ parser.old.depth) }
{
    let mut pats = Vec::new(parser.alloc);
    while starts_pattern(parser.peek().token) {
        pats.push(pattern(parser)?)?;
    }
    Ok(pats)
}
