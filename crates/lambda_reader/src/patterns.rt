//! The patterns of alternatives.

ghost use Rattle.std.specs.Prelude.{◌≡◌, ◌<◌, true, length, OnOk};
ghost use Rattle.core_reader.specs.Machine.{front};
ghost use Rattle.core_reader.specs.declared.token.Token.TheVariants as word;
ghost use Rattle.lambda_reader.specs.Reads.{ReadsPattern};

use core_reader::{Binder, Parser, Pattern, ReadRefusal, Token};
use seq::Seq;

/// A pattern, with its arrow.
pub fn pattern(parser: &mut Parser) -> Result<Pattern, ReadRefusal>
    requires { (front parser.old.rest.now).token ≡ word.CloseBrace → ⊥ }
    ensures reads { ReadsPattern true parser.old.rest.now parser.new.rest.now result }
    ensures shorter { OnOk result (length parser.new.rest.now < length parser.old.rest.now) }
    ensures depth { parser.new.depth ≡ parser.old.depth }
{
    let next = parser.peek();
    match next.token {
        Token::Name(name) => {
            parser.advance();
            parser.take(Token::Arrow)?;
            Ok(Pattern::Default(Binder { name, at: next.at }))
        }
        Token::Number(_, value) => {
            parser.advance();
            parser.take(Token::Arrow)?;
            Ok(Pattern::Int(value, next.at))
        }
        Token::Large(_) => Err(ReadRefusal::NumberRange(next.at)),
        Token::Con(name) => {
            parser.advance();
            let names = parser.names()?;
            parser.take(Token::Arrow)?;
            Ok(Pattern::Con(Binder { name, at: next.at }, Seq::from_vec(names)))
        }
        _ => Err(parser.refusal()),
    }
}
