//! From tokens to a program with types.

ghost use Rattle.std.specs.Prelude.{◌≡◌, ◌<◌, ◌≤◌, false, length, OnOk};
ghost use Rattle.core_reader.specs.Machine.{front};
ghost use Rattle.core_reader.specs.declared.token.Token.TheVariants as word;
ghost use Rattle.core_reader.specs.declared.token.Further.TheVariants as further;
ghost use Rattle.core_types.specs.Source.{NoTypes};
ghost use Rattle.core_types.specs.SourceOf.{written};
ghost use Rattle.core_types.specs.Reading.{Opened, Arguments, Behind, starts_type, ReadsType, ReadsTypes, ReadsBracketedType, ReadsConstructor, ReadsConstructors, ReadsSignatureRest, ReadsDecl, ReadsSource, type_decl, signature_decl, function_decl};

use crate::source::{Constructor, Signature, TypeDecl, Written};
use core_reader::{Binder, Function, Further, NameId, Parser, ReadRefusal, Token};
use limits::MOST_OPEN;
use seq::Seq;

/// The declarations of a program, each kind in text order.
#[derive(Drop)]
pub struct Declarations {
    pub types: Vec<TypeDecl>,
    pub signatures: Vec<Signature>,
    pub functions: Vec<Function>,
}

/// Whether a type of one piece begins with a token.
fn starts_type(token: Token) -> bool
    ensures { result ≡ starts_type token }
{
    matches!(token, Token::Name(_) | Token::Con(_) | Token::Open)
}

/// A type of one piece.
#[cycle(types)]
fn one_type(parser: &mut Parser) -> Result<Written, ReadRefusal>
    ensures reads { ReadsType parser.old.depth parser.old.rest.now parser.new.rest.now result }
    ensures shorter { OnOk result (length parser.new.rest.now < length parser.old.rest.now) }
    ensures depth { OnOk result (parser.new.depth ≡ parser.old.depth) }
{
    let next = parser.peek();
    match next.token {
        Token::Name(name) => {
            parser.advance();
            Ok(Written::Var(Binder { name, at: next.at }))
        }
        Token::Con(name) => {
            parser.advance();
            let binder = Binder { name, at: next.at };
            Ok(Written::Named(binder, Seq::new(parser.alloc)))
        }
        Token::Open => {
            if parser.depth >= MOST_OPEN {
                return Err(ReadRefusal::TooDeep(next.at));
            }
            parser.advance();
            parser.depth += 1;
            let inner = in_brackets(parser)?;
            parser.depth -= 1;
            Ok(inner)
        }
        _ => Err(parser.refusal()),
    }
}

/// Types of one piece, as many as stand next.
#[cycle(types)]
fn types(parser: &mut Parser) -> Result<Seq<Written>, ReadRefusal>
    ensures reads { ReadsTypes parser.old.depth parser.old.rest.now parser.new.rest.now result }
    ensures whole { OnOk result (starts_type (front parser.new.rest.now).token ≡ false) }
    ensures shorter { OnOk result (length parser.new.rest.now ≤ length parser.old.rest.now) }
    ensures depth { OnOk result (parser.new.depth ≡ parser.old.depth) }
{
    let mut types = Vec::new(parser.alloc);
    while starts_type(parser.peek().token) {
        let next = one_type(parser)?;
        types.push(next)?;
    }
    Ok(Seq::from_vec(types))
}

/// What stands in brackets, and the `)`.
#[cycle(types)]
fn in_brackets(parser: &mut Parser) -> Result<Written, ReadRefusal>
    ensures reads { ReadsBracketedType Opened parser.old.depth parser.old.rest.now parser.new.rest.now
        result }
    ensures shorter { OnOk result (length parser.new.rest.now < length parser.old.rest.now) }
    ensures depth { OnOk result (parser.new.depth ≡ parser.old.depth) }
{
    let next = parser.peek();
    match next.token {
        Token::Con(name) => {
            parser.advance();
            let inner = applied(parser, Binder { name, at: next.at })?;
            Ok(inner)
        }
        _ => {
            let first = one_type(parser)?;
            let inner = behind_first(parser, first)?;
            Ok(inner)
        }
    }
}

/// The arguments of a type in brackets, or what is behind an arrow, and the `)`.
#[cycle(types)]
fn applied(parser: &mut Parser, name: Binder) -> Result<Written, ReadRefusal>
    ensures reads { ReadsBracketedType (λ k. Arguments k name NoTypes) parser.old.depth
        parser.old.rest.now parser.new.rest.now result }
    ensures shorter { OnOk result (length parser.new.rest.now < length parser.old.rest.now) }
    ensures depth { OnOk result (parser.new.depth ≡ parser.old.depth) }
{
    let args = types(parser)?;
    if args.is_empty() {
        let inner = behind_first(parser, Written::Named(name, args))?;
        return Ok(inner);
    }
    parser.take(Token::Close)?;
    Ok(Written::Named(name, args))
}

/// What stands in brackets behind a type of one piece, and the `)`.
#[cycle(types)]
fn behind_first(parser: &mut Parser, first: Written) -> Result<Written, ReadRefusal>
    ensures reads { ReadsBracketedType (λ k. Behind k (written first)) parser.old.depth
        parser.old.rest.now parser.new.rest.now result }
    ensures shorter { OnOk result (length parser.new.rest.now < length parser.old.rest.now) }
    ensures depth { OnOk result (parser.new.depth ≡ parser.old.depth) }
{
    let next = parser.peek();
    match next.token {
        Token::Close => {
            parser.advance();
            Ok(first)
        }
        Token::Arrow => {
            parser.advance();
            let second = one_type(parser)?;
            parser.take(Token::Close)?;
            let from = Box::new(parser.alloc, first)?;
            let to = Box::new(parser.alloc, second)?;
            Ok(Written::Arrow(from, to))
        }
        _ => Err(parser.refusal()),
    }
}

/// A constructor and the types of its fields.
fn constructor(parser: &mut Parser) -> Result<Constructor, ReadRefusal>
    requires { parser.old.depth ≡ 0 }
    ensures reads { ReadsConstructor parser.old.rest.now parser.new.rest.now result }
    ensures whole { OnOk result (starts_type (front parser.new.rest.now).token ≡ false) }
    ensures shorter { OnOk result (length parser.new.rest.now < length parser.old.rest.now) }
    ensures depth { OnOk result (parser.new.depth ≡ 0) }
{
    let next = parser.peek();
    match next.token {
        Token::Con(name) => {
            parser.advance();
            let fields = types(parser)?;
            Ok(Constructor {
                name: Binder { name, at: next.at },
                fields,
            })
        }
        _ => Err(parser.refusal()),
    }
}

/// The constructors of a type, and the `;`.
fn constructors(parser: &mut Parser) -> Result<Vec<Constructor>, ReadRefusal>
    requires { parser.old.depth ≡ 0 }
    ensures reads { ReadsConstructors parser.old.rest.now parser.new.rest.now result }
    ensures shorter { OnOk result (length parser.new.rest.now < length parser.old.rest.now) }
    ensures depth { OnOk result (parser.new.depth ≡ 0) }
{
    let mut constructors = Vec::new(parser.alloc);
    loop {
        let constructor = constructor(parser)?;
        constructors.push(constructor)?;
        if parser.peek().token != Token::Further(Further::Bar) {
            parser.take(Token::Semicolon)?;
            return Ok(constructors);
        }
        parser.advance();
    }
}

/// A type's declaration, at its first word.
fn type_decl(parser: &mut Parser) -> Result<TypeDecl, ReadRefusal>
    requires word { (front parser.old.rest.now).token ≡ word.Further further.TypeDecl }
    requires depth { parser.old.depth ≡ 0 }
    ensures reads { ReadsDecl type_decl parser.old.rest.now parser.new.rest.now result }
    ensures shorter { OnOk result (length parser.new.rest.now < length parser.old.rest.now) }
    ensures depth { OnOk result (parser.new.depth ≡ 0) }
{
    parser.advance();
    let next = parser.peek();
    match next.token {
        Token::Con(name) => {
            parser.advance();
            let params = parser.names()?;
            parser.take(Token::Equals)?;
            let constructors = constructors(parser)?;
            Ok(TypeDecl {
                name: Binder { name, at: next.at },
                params: Seq::from_vec(params),
                constructors: Seq::from_vec(constructors),
            })
        }
        _ => Err(parser.refusal()),
    }
}

/// The types of a signature behind the `:`, and the `;`.
fn signed(parser: &mut Parser, function: Binder) -> Result<Signature, ReadRefusal>
    requires { parser.old.depth ≡ 0 }
    ensures reads { ReadsSignatureRest function parser.old.rest.now parser.new.rest.now result }
    ensures shorter { OnOk result (length parser.new.rest.now < length parser.old.rest.now) }
    ensures depth { OnOk result (parser.new.depth ≡ 0) }
{
    let mut args = Vec::new(parser.alloc);
    loop {
        let part = one_type(parser)?;
        if parser.peek().token != Token::Arrow {
            parser.take(Token::Semicolon)?;
            return Ok(Signature {
                function,
                args: Seq::from_vec(args),
                result: part,
            });
        }
        parser.advance();
        args.push(part)?;
    }
}

/// A function's type, at its first word.
fn signature(parser: &mut Parser) -> Result<Signature, ReadRefusal>
    requires word { (front parser.old.rest.now).token ≡ word.Further further.Signature }
    requires depth { parser.old.depth ≡ 0 }
    ensures reads { ReadsDecl signature_decl parser.old.rest.now parser.new.rest.now result }
    ensures shorter { OnOk result (length parser.new.rest.now < length parser.old.rest.now) }
    ensures depth { OnOk result (parser.new.depth ≡ 0) }
{
    parser.advance();
    let next = parser.peek();
    match next.token {
        Token::Name(name) => {
            parser.advance();
            parser.take(Token::Further(Further::Colon))?;
            let signature = signed(parser, Binder { name, at: next.at })?;
            Ok(signature)
        }
        _ => Err(parser.refusal()),
    }
}

/// A function's declaration, at its name.
fn function(parser: &mut Parser, name: NameId, at: u32) -> Result<Function, ReadRefusal>
    requires name { (front parser.old.rest.now).token ≡ word.Name name }
    requires at { (front parser.old.rest.now).at ≡ at }
    requires depth { parser.old.depth ≡ 0 }
    ensures reads { ReadsDecl function_decl parser.old.rest.now parser.new.rest.now result }
    ensures shorter { OnOk result (length parser.new.rest.now < length parser.old.rest.now) }
    ensures depth { OnOk result (parser.new.depth ≡ 0) }
{
    parser.advance();
    let params = parser.names()?;
    parser.take(Token::Equals)?;
    let body = parser.expr()?;
    parser.take(Token::Semicolon)?;
    Ok(Function {
        name,
        at,
        params: Seq::from_vec(params),
        body,
    })
}

/// All declarations, to the end of the text.
pub fn program(parser: &mut Parser) -> Result<Declarations, ReadRefusal>
    requires { parser.old.depth ≡ 0 }
    ensures { ReadsSource parser.old.rest.now result }
{
    let mut found = Declarations {
        types: Vec::new(parser.alloc),
        signatures: Vec::new(parser.alloc),
        functions: Vec::new(parser.alloc),
    };
    loop {
        let next = parser.peek();
        match next.token {
            Token::Further(Further::TypeDecl) => found.types.push(type_decl(parser)?)?,
            Token::Further(Further::Signature) => found.signatures.push(signature(parser)?)?,
            Token::Name(name) => found.functions.push(function(parser, name, next.at)?)?,
            Token::End => return Ok(found),
            _ => return Err(parser.refusal()),
        }
    }
}
