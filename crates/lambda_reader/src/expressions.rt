//! Expressions with lambdas and local functions.

ghost use Rattle.std.specs.Prelude.{◌≡◌, ◌<◌, true, false, length, OnOk};
ghost use Rattle.core_reader.specs.Machine.{front, starts_atom};
ghost use Rattle.core_reader.specs.declared.token.Token.TheVariants as word;
ghost use Rattle.core_reader.specs.declared.token.Further.TheVariants as further;
ghost use Rattle.lambda_reader.specs.Reads.{ReadsAtom, ReadsInside, ReadsApp, ReadsHeaded, ReadsMember, ReadsGroup, ReadsExpr, ReadsAlts};

use crate::patterns::pattern;
use crate::syntax::{Alt, App, Atom, Bind, Expr};
use core_reader::{Binder, Further, Parser, ReadRefusal, Token};
use limits::MOST_OPEN;
use seq::Seq;

/// The fewest parameters of a lambda.
const FEWEST_PARAMETERS: usize = 1;

/// Whether a head or an argument begins with the token.
fn starts_atom(token: Token) -> bool
    ensures { result ≡ starts_atom token }
{
    matches!(
        token,
        Token::Name(_) | Token::Con(_) | Token::Number(..) | Token::Large(_) | Token::Open
    )
}

#[cycle(expressions)]
fn atom(parser: &mut Parser) -> Result<Atom, ReadRefusal>
    requires { starts_atom (front parser.old.rest.now).token ≡ true }
    ensures reads { ReadsAtom true parser.old.depth parser.old.rest.now parser.new.rest.now
        result }
    ensures shorter { OnOk result (length parser.new.rest.now < length parser.old.rest.now) }
    ensures depth { OnOk result (parser.new.depth ≡ parser.old.depth) }
{
    let next = parser.peek();
    match next.token {
        Token::Name(name) => {
            parser.advance();
            Ok(Atom::Name(name, next.at))
        }
        Token::Con(name) => {
            parser.advance();
            Ok(Atom::Con(name, next.at))
        }
        Token::Number(_, value) => {
            parser.advance();
            Ok(Atom::Int(value, next.at))
        }
        Token::Large(_) => Err(ReadRefusal::NumberRange(next.at)),
        Token::Open => bracket(parser, next.at),
        _ => Err(parser.refusal()),
    }
}

#[cycle(expressions)]
fn bracket(parser: &mut Parser, at: u32) -> Result<Atom, ReadRefusal>
    requires opens { (front parser.old.rest.now).token ≡ word.Open }
    requires at { (front parser.old.rest.now).at ≡ at }
    ensures reads { ReadsAtom true parser.old.depth parser.old.rest.now parser.new.rest.now
        result }
    ensures shorter { OnOk result (length parser.new.rest.now < length parser.old.rest.now) }
    ensures depth { OnOk result (parser.new.depth ≡ parser.old.depth) }
{
    if parser.depth >= MOST_OPEN {
        return Err(ReadRefusal::TooDeep(at));
    }
    parser.advance();
    parser.depth += 1;
    let inner = inside(parser, at)?;
    parser.depth -= 1;
    Ok(inner)
}

/// What stands in a bracket that begins at this place, and the `)`.
#[cycle(expressions)]
fn inside(parser: &mut Parser, at: u32) -> Result<Atom, ReadRefusal>
    ensures reads { ReadsInside true at parser.old.depth parser.old.rest.now parser.new.rest.now
        result }
    ensures shorter { OnOk result (length parser.new.rest.now < length parser.old.rest.now) }
    ensures depth { OnOk result (parser.new.depth ≡ parser.old.depth) }
{
    let next = parser.peek();
    if next.token == Token::Further(Further::Backslash) {
        return lambda(parser, at, next.at);
    }
    if !starts_atom(next.token) {
        return Err(parser.refusal());
    }
    let app = app(parser)?;
    parser.take(Token::Close)?;
    Ok(Atom::Bracket(Box::new(parser.alloc, app)?, at))
}

/// A lambda in a bracket that begins at this place, from its `\`, and the `)`.
#[cycle(expressions)]
fn lambda(parser: &mut Parser, bracket: u32, at: u32) -> Result<Atom, ReadRefusal>
    requires word { (front parser.old.rest.now).token ≡ word.Further further.Backslash }
    requires at { (front parser.old.rest.now).at ≡ at }
    ensures reads { ReadsInside true bracket parser.old.depth parser.old.rest.now
        parser.new.rest.now result }
    ensures shorter { OnOk result (length parser.new.rest.now < length parser.old.rest.now) }
    ensures depth { OnOk result (parser.new.depth ≡ parser.old.depth) }
{
    parser.advance();
    let params = parser.names()?;
    if params.len() < FEWEST_PARAMETERS {
        return Err(parser.refusal());
    }
    parser.take(Token::Arrow)?;
    let body = expr(parser)?;
    parser.take(Token::Close)?;
    Ok(Atom::Lambda(Seq::from_vec(params), Box::new(parser.alloc, body)?, at))
}

#[cycle(expressions)]
fn app(parser: &mut Parser) -> Result<App, ReadRefusal>
    requires { starts_atom (front parser.old.rest.now).token ≡ true }
    ensures reads { ReadsApp true parser.old.depth parser.old.rest.now parser.new.rest.now
        result }
    ensures whole { OnOk result (starts_atom (front parser.new.rest.now).token ≡ false) }
    ensures shorter { OnOk result (length parser.new.rest.now < length parser.old.rest.now) }
    ensures depth { OnOk result (parser.new.depth ≡ parser.old.depth) }
{
    let head = atom(parser)?;
    let mut args = Vec::new(parser.alloc);
    while starts_atom(parser.peek().token) {
        args.push(atom(parser)?)?;
    }
    Ok(App {
        head,
        args: Seq::from_vec(args),
    })
}

/// An application, whose first token begins an atom.
#[cycle(expressions)]
fn headed(parser: &mut Parser) -> Result<App, ReadRefusal>
    ensures reads { ReadsHeaded true parser.old.depth parser.old.rest.now parser.new.rest.now
        result }
    ensures whole { OnOk result (starts_atom (front parser.new.rest.now).token ≡ false) }
    ensures shorter { OnOk result (length parser.new.rest.now < length parser.old.rest.now) }
    ensures depth { OnOk result (parser.new.depth ≡ parser.old.depth) }
{
    if !starts_atom(parser.peek().token) {
        return Err(parser.refusal());
    }
    app(parser)
}

/// The members of a `let`, to its `in`.
#[cycle(expressions)]
fn group(parser: &mut Parser) -> Result<Vec<Bind>, ReadRefusal>
    ensures reads { ReadsGroup true parser.old.depth parser.old.rest.now parser.new.rest.now
        result }
    ensures shorter { OnOk result (length parser.new.rest.now < length parser.old.rest.now) }
    ensures depth { OnOk result (parser.new.depth ≡ parser.old.depth) }
{
    let mut members = Vec::new(parser.alloc);
    loop {
        if parser.peek().token == Token::In {
            if members.is_empty() {
                return Err(parser.refusal());
            }
            parser.advance();
            return Ok(members);
        }
        let member = member(parser)?;
        members.push(member)?;
        match parser.peek().token {
            Token::In => {
                parser.advance();
                return Ok(members);
            }
            Token::Semicolon => parser.advance(),
            _ => return Err(parser.refusal()),
        }
    }
}

/// A name with an application, or a local function.
#[cycle(expressions)]
fn member(parser: &mut Parser) -> Result<Bind, ReadRefusal>
    requires { (front parser.old.rest.now).token ≡ word.In → ⊥ }
    ensures reads { ReadsMember true parser.old.depth parser.old.rest.now parser.new.rest.now
        result }
    ensures shorter { OnOk result (length parser.new.rest.now < length parser.old.rest.now) }
    ensures depth { OnOk result (parser.new.depth ≡ parser.old.depth) }
{
    let next = parser.peek();
    match next.token {
        Token::Name(name) => {
            parser.advance();
            let binder = Binder { name, at: next.at };
            let params = parser.names()?;
            parser.take(Token::Equals)?;
            if params.is_empty() {
                let app = headed(parser)?;
                return Ok(Bind::Value(binder, app));
            }
            let body = expr(parser)?;
            Ok(Bind::Function(binder, Seq::from_vec(params), body))
        }
        _ => Err(parser.refusal()),
    }
}

/// An expression, to the first token that cannot go on with it.
#[cycle(expressions)]
pub fn expr(parser: &mut Parser) -> Result<Expr, ReadRefusal>
    ensures reads { ReadsExpr true parser.old.depth parser.old.rest.now parser.new.rest.now
        result }
    ensures shorter { OnOk result (length parser.new.rest.now < length parser.old.rest.now) }
    ensures depth { OnOk result (parser.new.depth ≡ parser.old.depth) }
{
    let next = parser.peek();
    match next.token {
        Token::Let => let_in(parser, next.at),
        Token::Case => case_of(parser, next.at),
        _ => {
            if !starts_atom(next.token) {
                return Err(parser.refusal());
            }
            Ok(Expr::App(app(parser)?))
        }
    }
}

#[cycle(expressions)]
fn let_in(parser: &mut Parser, at: u32) -> Result<Expr, ReadRefusal>
    requires word { (front parser.old.rest.now).token ≡ word.Let }
    requires at { (front parser.old.rest.now).at ≡ at }
    ensures reads { ReadsExpr true parser.old.depth parser.old.rest.now parser.new.rest.now
        result }
    ensures shorter { OnOk result (length parser.new.rest.now < length parser.old.rest.now) }
    ensures depth { OnOk result (parser.new.depth ≡ parser.old.depth) }
{
    if parser.depth >= MOST_OPEN {
        return Err(ReadRefusal::TooDeep(at));
    }
    parser.advance();
    parser.depth += 1;
    let members = group(parser)?;
    let body = expr(parser)?;
    parser.depth -= 1;
    Ok(Expr::Let(Seq::from_vec(members), Box::new(parser.alloc, body)?))
}

#[cycle(expressions)]
fn case_of(parser: &mut Parser, at: u32) -> Result<Expr, ReadRefusal>
    requires word { (front parser.old.rest.now).token ≡ word.Case }
    requires at { (front parser.old.rest.now).at ≡ at }
    ensures reads { ReadsExpr true parser.old.depth parser.old.rest.now parser.new.rest.now
        result }
    ensures shorter { OnOk result (length parser.new.rest.now < length parser.old.rest.now) }
    ensures depth { OnOk result (parser.new.depth ≡ parser.old.depth) }
{
    if parser.depth >= MOST_OPEN {
        return Err(ReadRefusal::TooDeep(at));
    }
    parser.advance();
    parser.depth += 1;
    let scrutinee = expr(parser)?;
    parser.take(Token::Of)?;
    parser.take(Token::OpenBrace)?;
    let alts = alts(parser)?;
    parser.depth -= 1;
    Ok(Expr::Case(Box::new(parser.alloc, scrutinee)?, Seq::from_vec(alts)))
}

/// The alternatives of a `case`, to its `}`.
#[cycle(expressions)]
fn alts(parser: &mut Parser) -> Result<Vec<Alt>, ReadRefusal>
    ensures reads { ReadsAlts true parser.old.depth parser.old.rest.now parser.new.rest.now
        result }
    ensures shorter { OnOk result (length parser.new.rest.now < length parser.old.rest.now) }
    ensures depth { OnOk result (parser.new.depth ≡ parser.old.depth) }
{
    let mut alts = Vec::new(parser.alloc);
    loop {
        if parser.peek().token == Token::CloseBrace {
            if alts.is_empty() {
                return Err(parser.refusal());
            }
            parser.advance();
            return Ok(alts);
        }
        let pattern = pattern(parser)?;
        let body = expr(parser)?;
        alts.push(Alt { pattern, body })?;
        match parser.peek().token {
            Token::CloseBrace => {
                parser.advance();
                return Ok(alts);
            }
            Token::Semicolon => parser.advance(),
            _ => return Err(parser.refusal()),
        }
    }
}
