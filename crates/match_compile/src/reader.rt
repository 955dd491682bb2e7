//! A text of equations as its tree.

ghost use Rattle.std.specs.Prelude.{◌≡◌, ◌<◌, length, OnOk, IfOk, IfErr};
ghost use Rattle.core_reader.specs.Machine.{front};
ghost use Rattle.core_reader.specs.declared.token.Token.TheVariants as word;
ghost use Rattle.match_compile.specs.Grammar.{IsSourceText, BreaksNoReadingRule, IsReadCause};
ghost use Rattle.match_compile.specs.Rules.{IsUnbroken, IsCause};
ghost use Rattle.match_compile.specs.Faults.{IsFirstReserved};
ghost use Rattle.match_compile.specs.SourceOf.{equation_source_of};
ghost use Rattle.match_compile.specs.Reading.{ReadsCount, ReadsDecl, ReadsSource, data_decl, equation_decl};

use crate::patterns::patterns;
use crate::refusal::{MatchRefusal, refusal_of_reading};
use crate::rules::{first_fault, reserved};
use crate::source::{Equation, Source};
use core_reader::{Data, Dialect, NameId, Parser, ReadRefusal, Token, copied_names, lex};
use limits::MOST_BYTES;
use seq::Seq;
use std::alloc::Global;

/// The declarations of a text, each kind in text order.
#[derive(Drop)]
struct Parts {
    constructors: Vec<Data>,
    equations: Vec<Equation>,
}

/// A text that was read, and the first of its names that is reserved.
#[derive(Drop)]
struct Found {
    source: Source,
    reserved: Option<MatchRefusal>,
}

/// The equations that a text stands for, or the first rule that it breaks: of the rules 1 to 5, and
/// where it breaks none of these, of the others by place, and at one place by number. Want of
/// memory may come in place of each answer.
pub fn read_equations(alloc: Global, text: &[u8]) -> Result<Source, MatchRefusal>
    ensures found { IfOk result (λ c. IsSourceText text.now (equation_source_of c)) }
    ensures unbroken { OnOk result (IsUnbroken text.now) }
    ensures refused { IfErr result (IsCause text.now) }
{
    match read(alloc, text) {
        Err(refusal) => Err(refusal_of_reading(refusal)),
        Ok(found) => {
            let first = first_fault(alloc, &found.source, found.reserved)?;
            match first {
                Some(refusal) => Err(refusal),
                None => Ok(found.source),
            }
        }
    }
}

/// The equations that a text stands for, or the first of the rules 1 to 5 that it breaks.
fn read(alloc: Global, text: &[u8]) -> Result<Found, ReadRefusal>
    ensures found { IfOk result (λ f. IsSourceText text.now (equation_source_of f.source)) }
    ensures reserved { IfOk result (λ f. IsFirstReserved text.now f.reserved) }
    ensures unbroken { OnOk result (BreaksNoReadingRule text.now) }
    ensures refused { IfErr result (IsReadCause text.now) }
{
    if text.len() > MOST_BYTES as usize {
        return Err(ReadRefusal::TextTooLong);
    }
    let lexed = lex(alloc, Dialect::Core, text)?;
    let mut parser = Parser::new(alloc, lexed.lexemes.as_slice());
    let parts = declarations(&mut parser)?;
    let reserved = reserved(lexed.names.as_slice(), lexed.lexemes.as_slice());
    let source = Source {
        names: copied_names(alloc, &lexed.names)?,
        constructors: Seq::from_vec(parts.constructors),
        equations: Seq::from_vec(parts.equations),
    };
    Ok(Found { source, reserved })
}

/// The number of a constructor's fields.
fn count(parser: &mut Parser) -> Result<u32, ReadRefusal>
    ensures reads { ReadsCount parser.old.rest.now parser.new.rest.now result }
    ensures depth { parser.new.depth ≡ parser.old.depth }
    ensures shorter { OnOk result (length parser.new.rest.now < length parser.old.rest.now) }
{
    let next = parser.peek();
    match next.token {
        Token::Number(minus, value) => {
            if minus {
                return Err(parser.refusal());
            }
            if value < 0 {
                return Err(parser.refusal());
            }
            parser.advance();
            Ok(value as u32)
        }
        Token::Large(minus) => {
            if minus {
                return Err(parser.refusal());
            }
            Err(ReadRefusal::NumberRange(next.at))
        }
        _ => Err(parser.refusal()),
    }
}

/// A constructor's declaration, at its first word.
fn constructor(parser: &mut Parser) -> Result<Data, ReadRefusal>
    requires { (front parser.old.rest.now).token ≡ word.Data }
    ensures reads { ReadsDecl data_decl parser.old.rest.now parser.new.rest.now result }
    ensures depth { parser.new.depth ≡ parser.old.depth }
    ensures shorter { OnOk result (length parser.new.rest.now < length parser.old.rest.now) }
{
    parser.advance();
    let next = parser.peek();
    match next.token {
        Token::Con(name) => {
            parser.advance();
            let fields = count(parser)?;
            parser.take(Token::Semicolon)?;
            Ok(Data {
                name,
                fields,
                at: next.at,
            })
        }
        _ => Err(parser.refusal()),
    }
}

/// An equation, at its name.
fn equation(parser: &mut Parser, name: NameId, at: u32) -> Result<Equation, ReadRefusal>
    requires name { (front parser.old.rest.now).token ≡ word.Name name }
    requires at { (front parser.old.rest.now).at ≡ at }
    requires depth { parser.old.depth ≡ 0 }
    ensures reads { ReadsDecl equation_decl parser.old.rest.now parser.new.rest.now result }
    ensures depth { OnOk result (parser.new.depth ≡ 0) }
    ensures shorter { OnOk result (length parser.new.rest.now < length parser.old.rest.now) }
{
    parser.advance();
    let pats = patterns(parser)?;
    parser.take(Token::Equals)?;
    let body = parser.expr()?;
    parser.take(Token::Semicolon)?;
    Ok(Equation {
        name,
        at,
        pats: Seq::from_vec(pats),
        body,
    })
}

/// All declarations, to the end of the text.
fn declarations(parser: &mut Parser) -> Result<Parts, ReadRefusal>
    requires { parser.old.depth ≡ 0 }
    ensures { ReadsSource parser.old.rest.now result }
{
    let mut constructors = Vec::new(parser.alloc);
    let mut equations = Vec::new(parser.alloc);
    loop {
        let next = parser.peek();
        match next.token {
            Token::Data => constructors.push(constructor(parser)?)?,
            Token::Name(name) => equations.push(equation(parser, name, next.at)?)?,
            Token::End => {
                return Ok(Parts {
                    constructors,
                    equations,
                });
            }
            _ => return Err(parser.refusal()),
        }
    }
}
