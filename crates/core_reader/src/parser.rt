//! From tokens to a tree.

ghost use Rattle.std.specs.Prelude.{◌≡◌, ◌<◌, ◌≤◌, true, false, length, OnOk};
ghost use Rattle.core_reader.specs.Machine.{front, behind, is_name, starts_atom, refusal, ReadsAtom, ReadsApp, ReadsHeaded, ReadsBind, ReadsBinds, ReadsExpr, ReadsAlts, ReadsPattern, ReadsNames, Takes};
ghost use Rattle.core_reader.specs.Declaring.{ReadsCount, ReadsDecl, data_decl, function_decl};
ghost use Rattle.core_reader.specs.Parsed.{ReadsProgram};
ghost use Rattle.core_reader.specs.declared.token.Token.TheVariants as word;

use crate::refusal::ReadRefusal;
use crate::syntax::{Alt, App, Atom, Bind, Binder, Data, Expr, Function, NameId, Pattern};
use crate::token::{Lexeme, Token};
use limits::MOST_OPEN;
use seq::Seq;
use std::alloc::Global;

/// The declarations of a program, each kind in text order.
#[derive(Drop)]
pub struct Declarations {
    /// The constructors.
    pub constructors: Vec<Data>,
    /// The functions.
    pub functions: Vec<Function>,
}

/// The declarations that the tokens spell, up to the end of the text.
pub(crate) fn parse(alloc: Global, lexemes: &[Lexeme]) -> Result<Declarations, ReadRefusal>
    ensures { ReadsProgram lexemes.now result }
{
    Parser::new(alloc, lexemes).program()
}

/// A reader of tokens, one after the other, which has a method for each part of Core.
#[derive(Drop)]
pub struct Parser<'a> {
    /// Where the memory of the trees comes from.
    pub alloc: Global,
    /// The tokens that are left.
    pub rest: &'a [Lexeme],
    /// How many brackets, lets and cases are open.
    pub depth: u32,
}

impl Token {
    fn starts_atom(self) -> bool
        ensures { result ≡ starts_atom self }
    {
        matches!(
            self,
            Token::Name(_) | Token::Con(_) | Token::Number(..) | Token::Large(_) | Token::Open
        )
    }
}

impl<'a> Parser<'a> {
    /// A reader of these tokens, where nothing is open.
    pub fn new(alloc: Global, lexemes: &'a [Lexeme]) -> Parser<'a>
        ensures rest { result.rest.now ≡ lexemes.now }
        ensures depth { result.depth ≡ 0 }
    {
        Parser {
            alloc,
            rest: lexemes,
            depth: 0,
        }
    }

    /// The next token, which stays.
    pub fn peek(&self) -> Lexeme
        ensures { result ≡ front self.now.rest.now }
    {
        match self.rest {
            [] => Lexeme {
                at: 0,
                token: Token::Bad,
            },
            [first, ..] => *first,
        }
    }

    /// Takes the next token.
    pub fn advance(&mut self)
        ensures rest { self.new.rest.now ≡ behind self.old.rest.now }
        ensures depth { self.new.depth ≡ self.old.depth }
    {
        if let [_, rest @ ..] = self.rest {
            self.rest = rest;
        }
    }

    /// What is wrong with the next token, which cannot stand here.
    pub fn refusal(&self) -> ReadRefusal
        ensures { result ≡ refusal (front self.now.rest.now) }
    {
        let next = self.peek();
        if next.token == Token::Bad {
            ReadRefusal::BadByte(next.at)
        } else {
            ReadRefusal::Syntax(next.at)
        }
    }

    #[cycle(parser)]
    fn atom(&mut self) -> Result<Atom, ReadRefusal>
        requires { starts_atom (front self.old.rest.now).token ≡ true }
        ensures reads { ReadsAtom self.old.depth self.old.rest.now self.new.rest.now result }
        ensures shorter { OnOk result (length self.new.rest.now < length self.old.rest.now) }
        ensures depth { OnOk result (self.new.depth ≡ self.old.depth) }
    {
        let next = self.peek();
        match next.token {
            Token::Name(name) => {
                self.advance();
                Ok(Atom::Name(name, next.at))
            }
            Token::Con(name) => {
                self.advance();
                Ok(Atom::Con(name, next.at))
            }
            Token::Number(_, value) => {
                self.advance();
                Ok(Atom::Int(value, next.at))
            }
            Token::Large(_) => Err(ReadRefusal::NumberRange(next.at)),
            Token::Open => self.bracket(next.at),
            _ => Err(self.refusal()),
        }
    }

    #[cycle(parser)]
    fn bracket(&mut self, at: u32) -> Result<Atom, ReadRefusal>
        requires opens { (front self.old.rest.now).token ≡ word.Open }
        requires at { (front self.old.rest.now).at ≡ at }
        ensures reads { ReadsAtom self.old.depth self.old.rest.now self.new.rest.now result }
        ensures shorter { OnOk result (length self.new.rest.now < length self.old.rest.now) }
        ensures depth { OnOk result (self.new.depth ≡ self.old.depth) }
    {
        if self.depth >= MOST_OPEN {
            return Err(ReadRefusal::TooDeep(at));
        }
        self.advance();
        self.depth += 1;
        if !self.peek().token.starts_atom() {
            return Err(self.refusal());
        }
        let app = self.app()?;
        self.depth -= 1;
        match self.peek().token {
            Token::Close => {
                self.advance();
                Ok(Atom::Bracket(Box::new(self.alloc, app)?, at))
            }
            _ => Err(self.refusal()),
        }
    }

    #[cycle(parser)]
    fn app(&mut self) -> Result<App, ReadRefusal>
        requires { starts_atom (front self.old.rest.now).token ≡ true }
        ensures reads { ReadsApp self.old.depth self.old.rest.now self.new.rest.now result }
        ensures whole { OnOk result (starts_atom (front self.new.rest.now).token ≡ false) }
        ensures shorter { OnOk result (length self.new.rest.now < length self.old.rest.now) }
        ensures depth { OnOk result (self.new.depth ≡ self.old.depth) }
    {
        let head = self.atom()?;
        let mut args = Vec::new(self.alloc);
        while self.peek().token.starts_atom() {
            args.push(self.atom()?)?;
        }
        Ok(App {
            head,
            args: Seq::from_vec(args),
        })
    }

    /// Takes the token that has to stand here.
    pub fn take(&mut self, wanted: Token) -> Result<(), ReadRefusal>
        ensures takes { Takes wanted self.old.rest.now self.new.rest.now result }
        ensures depth { self.new.depth ≡ self.old.depth }
    {
        if self.peek().token != wanted {
            return Err(self.refusal());
        }
        self.advance();
        Ok(())
    }

    /// An application, whose first token begins an atom.
    fn headed(&mut self) -> Result<App, ReadRefusal>
        ensures reads { ReadsHeaded self.old.depth self.old.rest.now self.new.rest.now result }
        ensures whole { OnOk result (starts_atom (front self.new.rest.now).token ≡ false) }
        ensures shorter { OnOk result (length self.new.rest.now < length self.old.rest.now) }
        ensures depth { OnOk result (self.new.depth ≡ self.old.depth) }
    {
        if !self.peek().token.starts_atom() {
            return Err(self.refusal());
        }
        self.app()
    }

    /// The bindings of a `let`, to its `in`.
    fn binds(&mut self) -> Result<Vec<Bind>, ReadRefusal>
        ensures reads { ReadsBinds self.old.depth self.old.rest.now self.new.rest.now result }
        ensures shorter { OnOk result (length self.new.rest.now < length self.old.rest.now) }
        ensures depth { OnOk result (self.new.depth ≡ self.old.depth) }
    {
        let mut binds = Vec::new(self.alloc);
        loop {
            if self.peek().token == Token::In {
                if binds.is_empty() {
                    return Err(self.refusal());
                }
                self.advance();
                return Ok(binds);
            }
            let bind = self.bind()?;
            binds.push(bind)?;
            match self.peek().token {
                Token::In => {
                    self.advance();
                    return Ok(binds);
                }
                Token::Semicolon => self.advance(),
                _ => return Err(self.refusal()),
            }
        }
    }

    /// A name, `=` and an application.
    fn bind(&mut self) -> Result<Bind, ReadRefusal>
        requires { (front self.old.rest.now).token ≡ word.In → ⊥ }
        ensures reads { ReadsBind self.old.depth self.old.rest.now self.new.rest.now result }
        ensures whole { OnOk result (starts_atom (front self.new.rest.now).token ≡ false) }
        ensures shorter { OnOk result (length self.new.rest.now < length self.old.rest.now) }
        ensures depth { OnOk result (self.new.depth ≡ self.old.depth) }
    {
        let next = self.peek();
        match next.token {
            Token::Name(name) => {
                self.advance();
                self.take(Token::Equals)?;
                let app = self.headed()?;
                Ok(Bind {
                    binder: Binder { name, at: next.at },
                    app,
                })
            }
            _ => Err(self.refusal()),
        }
    }

    /// An expression, to the first token that cannot go on with it.
    #[cycle(expr)]
    pub fn expr(&mut self) -> Result<Expr, ReadRefusal>
        ensures reads { ReadsExpr self.old.depth self.old.rest.now self.new.rest.now result }
        ensures shorter { OnOk result (length self.new.rest.now < length self.old.rest.now) }
        ensures depth { OnOk result (self.new.depth ≡ self.old.depth) }
    {
        let next = self.peek();
        match next.token {
            Token::Let => self.let_in(next.at),
            Token::Case => self.case_of(next.at),
            _ => {
                if !next.token.starts_atom() {
                    return Err(self.refusal());
                }
                Ok(Expr::App(self.app()?))
            }
        }
    }

    #[cycle(expr)]
    fn let_in(&mut self, at: u32) -> Result<Expr, ReadRefusal>
        requires word { (front self.old.rest.now).token ≡ word.Let }
        requires at { (front self.old.rest.now).at ≡ at }
        ensures reads { ReadsExpr self.old.depth self.old.rest.now self.new.rest.now result }
        ensures shorter { OnOk result (length self.new.rest.now < length self.old.rest.now) }
        ensures depth { OnOk result (self.new.depth ≡ self.old.depth) }
    {
        if self.depth >= MOST_OPEN {
            return Err(ReadRefusal::TooDeep(at));
        }
        self.advance();
        self.depth += 1;
        let binds = self.binds()?;
        let body = self.expr()?;
        self.depth -= 1;
        Ok(Expr::Let(Seq::from_vec(binds), Box::new(self.alloc, body)?))
    }

    #[cycle(expr)]
    fn case_of(&mut self, at: u32) -> Result<Expr, ReadRefusal>
        requires word { (front self.old.rest.now).token ≡ word.Case }
        requires at { (front self.old.rest.now).at ≡ at }
        ensures reads { ReadsExpr self.old.depth self.old.rest.now self.new.rest.now result }
        ensures shorter { OnOk result (length self.new.rest.now < length self.old.rest.now) }
        ensures depth { OnOk result (self.new.depth ≡ self.old.depth) }
    {
        if self.depth >= MOST_OPEN {
            return Err(ReadRefusal::TooDeep(at));
        }
        self.advance();
        self.depth += 1;
        let scrutinee = self.expr()?;
        self.take(Token::Of)?;
        self.take(Token::OpenBrace)?;
        let alts = self.alts()?;
        self.depth -= 1;
        Ok(Expr::Case(Box::new(self.alloc, scrutinee)?, Seq::from_vec(alts)))
    }

    /// The alternatives of a `case`, to its `}`.
    #[cycle(expr)]
    fn alts(&mut self) -> Result<Vec<Alt>, ReadRefusal>
        ensures reads { ReadsAlts self.old.depth self.old.rest.now self.new.rest.now result }
        ensures shorter { OnOk result (length self.new.rest.now < length self.old.rest.now) }
        ensures depth { OnOk result (self.new.depth ≡ self.old.depth) }
    {
        let mut alts = Vec::new(self.alloc);
        loop {
            if self.peek().token == Token::CloseBrace {
                if alts.is_empty() {
                    return Err(self.refusal());
                }
                self.advance();
                return Ok(alts);
            }
            let pattern = self.pattern()?;
            let body = self.expr()?;
            alts.push(Alt { pattern, body })?;
            match self.peek().token {
                Token::CloseBrace => {
                    self.advance();
                    return Ok(alts);
                }
                Token::Semicolon => self.advance(),
                _ => return Err(self.refusal()),
            }
        }
    }

    /// A pattern, with its arrow.
    fn pattern(&mut self) -> Result<Pattern, ReadRefusal>
        requires { (front self.old.rest.now).token ≡ word.CloseBrace → ⊥ }
        ensures reads { ReadsPattern self.old.rest.now self.new.rest.now result }
        ensures shorter { OnOk result (length self.new.rest.now < length self.old.rest.now) }
        ensures depth { self.new.depth ≡ self.old.depth }
    {
        let next = self.peek();
        match next.token {
            Token::Name(name) => {
                self.advance();
                self.take(Token::Arrow)?;
                Ok(Pattern::Default(Binder { name, at: next.at }))
            }
            Token::Number(_, value) => {
                self.advance();
                self.take(Token::Arrow)?;
                Ok(Pattern::Int(value, next.at))
            }
            Token::Large(_) => Err(ReadRefusal::NumberRange(next.at)),
            Token::Con(name) => {
                self.advance();
                let names = self.names()?;
                self.take(Token::Arrow)?;
                Ok(Pattern::Con(Binder { name, at: next.at }, Seq::from_vec(names)))
            }
            _ => Err(self.refusal()),
        }
    }

    /// The names of a list: the parameters of a function, or the variables of a pattern.
    pub fn names(&mut self) -> Result<Vec<Binder>, ReadRefusal>
        ensures reads { ReadsNames self.old.rest.now self.new.rest.now result }
        ensures depth { self.new.depth ≡ self.old.depth }
        ensures whole { OnOk result (is_name (front self.new.rest.now).token ≡ false) }
        ensures shorter { OnOk result (length self.new.rest.now ≤ length self.old.rest.now) }
    {
        let mut names = Vec::new(self.alloc);
        loop {
            let next = self.peek();
            match next.token {
                Token::Name(name) => {
                    self.advance();
                    names.push(Binder { name, at: next.at })?;
                }
                _ => return Ok(names),
            }
        }
    }

    /// The number of a constructor's fields.
    fn count(&mut self) -> Result<u32, ReadRefusal>
        ensures reads { ReadsCount self.old.rest.now self.new.rest.now result }
        ensures depth { self.new.depth ≡ self.old.depth }
        ensures shorter { OnOk result (length self.new.rest.now < length self.old.rest.now) }
    {
        let next = self.peek();
        match next.token {
            Token::Number(minus, value) => {
                if minus {
                    return Err(self.refusal());
                }
                if value < 0 {
                    return Err(self.refusal());
                }
                self.advance();
                Ok(value as u32)
            }
            Token::Large(minus) => {
                if minus {
                    return Err(self.refusal());
                }
                Err(ReadRefusal::NumberRange(next.at))
            }
            _ => Err(self.refusal()),
        }
    }

    /// A constructor's declaration, at its first word.
    pub fn constructor(&mut self) -> Result<Data, ReadRefusal>
        requires { (front self.old.rest.now).token ≡ word.Data }
        ensures reads { ReadsDecl data_decl self.old.rest.now self.new.rest.now result }
        ensures depth { self.new.depth ≡ self.old.depth }
        ensures shorter { OnOk result (length self.new.rest.now < length self.old.rest.now) }
    {
        self.advance();
        let next = self.peek();
        match next.token {
            Token::Con(name) => {
                self.advance();
                let fields = self.count()?;
                self.take(Token::Semicolon)?;
                Ok(Data {
                    name,
                    fields,
                    at: next.at,
                })
            }
            _ => Err(self.refusal()),
        }
    }

    /// A function's declaration, at its name.
    pub fn function(&mut self, name: NameId, at: u32) -> Result<Function, ReadRefusal>
        requires name { (front self.old.rest.now).token ≡ word.Name name }
        requires at { (front self.old.rest.now).at ≡ at }
        requires depth { self.old.depth ≡ 0 }
        ensures reads { ReadsDecl function_decl self.old.rest.now self.new.rest.now result }
        ensures depth { OnOk result (self.new.depth ≡ 0) }
        ensures shorter { OnOk result (length self.new.rest.now < length self.old.rest.now) }
    {
        self.advance();
        let params = self.names()?;
        self.take(Token::Equals)?;
        let body = self.expr()?;
        self.take(Token::Semicolon)?;
        Ok(Function {
            name,
            at,
            params: Seq::from_vec(params),
            body,
        })
    }

    /// All declarations, to the end of the text.
    pub fn program(&mut self) -> Result<Declarations, ReadRefusal>
        requires { self.old.depth ≡ 0 }
        ensures { ReadsProgram self.old.rest.now result }
    {
        let mut constructors = Vec::new(self.alloc);
        let mut functions = Vec::new(self.alloc);
        loop {
            let next = self.peek();
            match next.token {
                Token::Data => constructors.push(self.constructor()?)?,
                Token::Name(name) => functions.push(self.function(name, next.at)?)?,
                Token::End => {
                    return Ok(Declarations {
                        constructors,
                        functions,
                    });
                }
                _ => return Err(self.refusal()),
            }
        }
    }
}
