//! Declarations, with lambdas and local functions in the bodies of functions.

ghost use Rattle.std.specs.Prelude.{◌≡◌, ◌<◌, length, OnOk};
ghost use Rattle.core_reader.specs.Machine.{front};
ghost use Rattle.core_reader.specs.declared.token.Token.TheVariants as word;
ghost use Rattle.lambda_reader.specs.Declaring.{ReadsCount, ReadsDecl, ReadsProgram, data_decl, function_decl};

use crate::expressions::expr;
use crate::syntax::Function;
use core_reader::{Data, NameId, Parser, ReadRefusal, Token};
use seq::Seq;

/// The declarations of a program, each kind in text order.
#[derive(Drop)]
pub struct Declarations {
    pub constructors: Vec<Data>,
    pub functions: Vec<Function>,
}

/// The number of a constructor's fields.
fn count(parser: &mut Parser) -> Result<u32, ReadRefusal>
    ensures reads { ReadsCount parser.old.rest.now parser.new.rest.now result }
    ensures depth { parser.new.depth ≡ parser.old.depth }
    ensures shorter { OnOk result (length parser.new.rest.now < length parser.old.rest.now) }
{
    let next = parser.peek();
    match next.token {
        Token::Number(minus, value) => {
            if minus {
                return Err(parser.refusal());
            }
            if value < 0 {
                return Err(parser.refusal());
            }
            parser.advance();
            Ok(value as u32)
        }
        Token::Large(minus) => {
            if minus {
                return Err(parser.refusal());
            }
            Err(ReadRefusal::NumberRange(next.at))
        }
        _ => Err(parser.refusal()),
    }
}

/// A constructor's declaration, at its first word.
fn constructor(parser: &mut Parser) -> Result<Data, ReadRefusal>
    requires { (front parser.old.rest.now).token ≡ word.Data }
    ensures reads { ReadsDecl data_decl parser.old.rest.now parser.new.rest.now result }
    ensures depth { parser.new.depth ≡ parser.old.depth }
    ensures shorter { OnOk result (length parser.new.rest.now < length parser.old.rest.now) }
{
    parser.advance();
    let next = parser.peek();
    match next.token {
        Token::Con(name) => {
            parser.advance();
            let fields = count(parser)?;
            parser.take(Token::Semicolon)?;
            Ok(Data {
                name,
                fields,
                at: next.at,
            })
        }
        _ => Err(parser.refusal()),
    }
}

/// A function's declaration, at its name.
fn function(parser: &mut Parser, name: NameId, at: u32) -> Result<Function, ReadRefusal>
    requires name { (front parser.old.rest.now).token ≡ word.Name name }
    requires at { (front parser.old.rest.now).at ≡ at }
    requires depth { parser.old.depth ≡ 0 }
    ensures reads { ReadsDecl function_decl parser.old.rest.now parser.new.rest.now result }
    ensures depth { OnOk result (parser.new.depth ≡ 0) }
    ensures shorter { OnOk result (length parser.new.rest.now < length parser.old.rest.now) }
{
    parser.advance();
    let params = parser.names()?;
    parser.take(Token::Equals)?;
    let body = expr(parser)?;
    parser.take(Token::Semicolon)?;
    Ok(Function {
        name,
        at,
        params: Seq::from_vec(params),
        body,
    })
}

/// All declarations, to the end of the text.
pub fn all_declarations(parser: &mut Parser) -> Result<Declarations, ReadRefusal>
    requires { parser.old.depth ≡ 0 }
    ensures { ReadsProgram parser.old.rest.now result }
{
    let mut constructors = Vec::new(parser.alloc);
    let mut functions = Vec::new(parser.alloc);
    loop {
        let next = parser.peek();
        match next.token {
            Token::Data => constructors.push(constructor(parser)?)?,
            Token::Name(name) => functions.push(function(parser, name, next.at)?)?,
            Token::End => {
                return Ok(Declarations {
                    constructors,
                    functions,
                });
            }
            _ => return Err(parser.refusal()),
        }
    }
}
