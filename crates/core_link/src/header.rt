//! What stands before the declarations of a module.

ghost use Rattle.std.specs.Prelude.{◌≡◌, ◌<◌, ◌≤◌, length, OnOk, true, false};
ghost use Rattle.std.specs.List.{list_all};
ghost use Rattle.core_reader.specs.LexedOf.{texts_of};
ghost use Rattle.core_reader.specs.Machine.{front};
ghost use Rattle.core_reader.specs.declared.token.Token.TheVariants as word;
ghost use Rattle.core_reader.specs.declared.token.Further.TheVariants as further;
ghost use Rattle.core_link.specs.Module.{is_alphanumeric};
ghost use Rattle.core_link.specs.Heading.{is_module, is_bad_module_name, misnamed, ReadsName, ReadsWords, ReadsExports, ReadsImport, ReadsImports, ReadsHeader};

use crate::module::Import;
use core_reader::{Binder, Further, Lexeme, Parser, ReadRefusal, Token};
use seq::Seq;

/// The header of a module: its name, what it exports and what it imports.
#[derive(Drop)]
pub struct Header {
    pub name: Binder,
    pub exports: Vec<Binder>,
    pub imports: Vec<Import>,
}

/// Whether a byte is a letter or a digit.
fn is_alphanumeric(b: u8) -> bool
    ensures { result ≡ is_alphanumeric b }
{
    (96 < b && b < 123) || (64 < b && b < 91) || (47 < b && b < 58)
}

/// Whether a module may be named so: with letters and digits alone.
fn is_module_name(name: &[u8]) -> bool
    ensures { result ≡ list_all is_alphanumeric name.now }
{
    for b in name {
        if !is_alphanumeric(*b) {
            return false;
        }
    }
    true
}

/// Whether a token is a constructor's that no module may be named.
fn is_bad_module_name(names: &[&[u8]], token: Token) -> bool
    ensures { result ≡ is_bad_module_name (texts_of names.now) token }
{
    match token {
        Token::Con(name) => match names.get(name.0 as usize) {
            Some(text) => !is_module_name(*text),
            None => false,
        },
        _ => false,
    }
}

/// The place of a module's name that has other bytes than letters and digits.
pub fn misnamed(names: &[&[u8]], lexemes: &[Lexeme]) -> Option<u32>
    ensures { result ≡ misnamed (texts_of names.now) lexemes.now }
{
    let [first, second, ..] = lexemes else {
        return None;
    };
    if first.token == Token::Further(Further::Module) && is_bad_module_name(names, second.token) {
        return Some(second.at);
    }
    None
}

/// A module's name.
fn module_name(parser: &mut Parser) -> Result<Binder, ReadRefusal>
    ensures reads { ReadsName parser.old.rest.now parser.new.rest.now result }
    ensures depth { parser.new.depth ≡ parser.old.depth }
{
    let next = parser.peek();
    match next.token {
        Token::Con(name) => {
            parser.advance();
            Ok(Binder { name, at: next.at })
        }
        _ => Err(parser.refusal()),
    }
}

/// Names and constructors up to a `;`, which is taken too.
fn words(parser: &mut Parser, words: &mut Vec<Binder>) -> Result<(), ReadRefusal>
    ensures reads { ReadsWords words.old.items words.new.items parser.old.rest.now parser.new.rest.now
        result }
    ensures depth { parser.new.depth ≡ parser.old.depth }
    ensures shorter { OnOk result (length parser.new.rest.now < length parser.old.rest.now) }
{
    loop {
        let next = parser.peek();
        match next.token {
            Token::Name(name) => {
                parser.advance();
                words.push(Binder { name, at: next.at })?;
            }
            Token::Con(name) => {
                parser.advance();
                words.push(Binder { name, at: next.at })?;
            }
            Token::Semicolon => {
                parser.advance();
                return Ok(());
            }
            _ => return Err(parser.refusal()),
        }
    }
}

/// The lists of exports.
fn exports(parser: &mut Parser) -> Result<Vec<Binder>, ReadRefusal>
    ensures reads { ReadsExports parser.old.rest.now parser.new.rest.now result }
    ensures depth { parser.new.depth ≡ parser.old.depth }
    ensures whole { OnOk result
        ((front parser.new.rest.now).token ≡ word.Further further.Export → ⊥) }
{
    let mut exports = Vec::new(parser.alloc);
    loop {
        let next = parser.peek();
        if next.token != Token::Further(Further::Export) {
            return Ok(exports);
        }
        parser.advance();
        words(parser, &mut exports)?;
    }
}

/// An import, behind its keyword.
fn import(parser: &mut Parser) -> Result<Import, ReadRefusal>
    ensures reads { ReadsImport parser.old.rest.now parser.new.rest.now result }
    ensures depth { parser.new.depth ≡ parser.old.depth }
    ensures shorter { OnOk result (length parser.new.rest.now < length parser.old.rest.now) }
{
    let next = parser.peek();
    match next.token {
        Token::Con(name) => {
            parser.advance();
            let mut names = Vec::new(parser.alloc);
            words(parser, &mut names)?;
            Ok(Import {
                from: Binder { name, at: next.at },
                names: Seq::from_vec(names),
            })
        }
        _ => Err(parser.refusal()),
    }
}

/// The imports.
fn imports(parser: &mut Parser) -> Result<Vec<Import>, ReadRefusal>
    requires { (front parser.old.rest.now).token ≡ word.Further further.Export → ⊥ }
    ensures reads { ReadsImports parser.old.rest.now parser.new.rest.now result }
    ensures depth { parser.new.depth ≡ parser.old.depth }
{
    let mut imports = Vec::new(parser.alloc);
    loop {
        let next = parser.peek();
        if next.token != Token::Further(Further::Import) {
            return Ok(imports);
        }
        parser.advance();
        let import = import(parser)?;
        imports.push(import)?;
    }
}

impl Header {
    /// The header of the module whose tokens these are.
    pub fn read(parser: &mut Parser) -> Result<Header, ReadRefusal>
        ensures reads { ReadsHeader parser.old.rest.now parser.new.rest.now result }
        ensures depth { parser.new.depth ≡ parser.old.depth }
    {
        parser.take(Token::Further(Further::Module))?;
        let name = module_name(parser)?;
        parser.take(Token::Semicolon)?;
        let exports = exports(parser)?;
        let imports = imports(parser)?;
        Ok(Header {
            name,
            exports,
            imports,
        })
    }
}
