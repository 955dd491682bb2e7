// Words, values, targets and patterns.

use crate::at::At;
use crate::error::ReadError;
use crate::lines::front;
use grin_syntax::{Shape, Target, Val, VarId, Word};
use seq::Seq;

// What stands between two brackets.
pub(crate) fn inside<'a>(text: &'a str, open: &str, close: &str) -> Option<&'a str> {
    text.strip_prefix(open)?.strip_suffix(close)
}

impl<'a> At<'a> {
    pub(crate) fn word(&self, text: &str) -> Result<Word, ReadError> {
        if let Some(at) = self.global(text) {
            return Ok(Word::Global(at));
        }
        if let Some(tag) = text.strip_prefix("#") {
            return Ok(Word::TagWord(self.tag(tag)?));
        }
        match text.parse::<i32>() {
            Ok(number) => Ok(Word::Lit(number)),
            Err(_) => Ok(Word::Var(self.var(text)?)),
        }
    }

    pub(crate) fn words(&self, text: &str) -> Result<Seq<Word>, ReadError> {
        let mut words = Seq::new(self.alloc);
        for word in text.split_whitespace() {
            words.push(self.word(word)?)?;
        }
        Ok(words)
    }

    pub(crate) fn vars(&self, text: &str) -> Result<Seq<VarId>, ReadError> {
        let mut vars = Seq::new(self.alloc);
        for word in text.split_whitespace() {
            vars.push(self.var(word)?)?;
        }
        Ok(vars)
    }

    pub(crate) fn value(&self, text: &str) -> Result<Val, ReadError> {
        if let Some(node) = inside(text, "(", ")") {
            let (tag, words) = front(node);
            return Ok(Val::Node(self.tag(tag)?, self.words(words)?));
        }
        if let Some(vector) = inside(text, "[", "]") {
            return Ok(Val::Vector(self.words(vector)?));
        }
        let word = self.word(text)?;
        match word {
            Word::Var(var) => Ok(self.held(var)),
            _ => Ok(Val::One(word)),
        }
    }

    fn held(&self, var: VarId) -> Val {
        if self.all.nodes {
            Val::NodeVar(var)
        } else {
            Val::One(Word::Var(var))
        }
    }

    // A target; a variable alone takes a node, where it may and the operation gives one.
    pub(crate) fn target(&self, text: &str, node: bool) -> Result<Target, ReadError> {
        if let Some(vars) = inside(text, "[", "]") {
            return Ok(Target::Vector(self.vars(vars)?));
        }
        let var = self.var(text)?;
        if node && self.all.nodes {
            Ok(Target::Node(var))
        } else {
            Ok(Target::One(var))
        }
    }

    pub(crate) fn shape(&self, text: &str) -> Result<Shape, ReadError> {
        if text == "else" {
            return Ok(Shape::Else);
        }
        let (tag, fields) = front(self.need(inside(text, "(", ")"))?);
        match fields.parse::<i32>() {
            Ok(number) => Ok(Shape::Int(number)),
            Err(_) => Ok(Shape::Node(self.tag(tag)?, self.vars(fields)?)),
        }
    }
}
