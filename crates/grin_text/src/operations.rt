// Operations.

use crate::at::At;
use crate::error::ReadError;
use crate::lines::front;
use crate::pieces::Piece;
use grin_syntax::{Op, PrimOp, Val};

fn operator(name: &str) -> Option<PrimOp> {
    match name {
        "add" => Some(PrimOp::Add),
        "sub" => Some(PrimOp::Sub),
        "mul" => Some(PrimOp::Mul),
        "quot" => Some(PrimOp::Quot),
        "rem" => Some(PrimOp::Rem),
        "eq" => Some(PrimOp::Eq),
        "lt" => Some(PrimOp::Lt),
        _ => None,
    }
}

// Whether what an operation gives is a node, where nodes are given at all.
pub(crate) fn gives_node(op: &Op) -> bool {
    match op {
        Op::Unit(val) => !matches!(val, Val::One(_)),
        Op::FetchWord(..) | Op::Prim(..) | Op::Read => false,
        _ => true,
    }
}

impl<'a> At<'a> {
    // An operation, with what stands below its line.
    pub(crate) fn operation(&self, text: &str, below: Vec<Piece>) -> Result<Op, ReadError> {
        if text == "do" {
            return Ok(Op::Nested(Box::new(self.alloc, self.block(below)?)?));
        }
        if let Some(case) = text.strip_prefix("case ") {
            let value = self.need(case.strip_suffix(" of"))?;
            return Ok(Op::Case(self.value(value)?, self.alts(below)?));
        }
        self.need_none(&below)?;
        let (name, rest) = front(text);
        match operator(name) {
            Some(op) => self.prim(op, rest),
            None => self.simple(name, rest),
        }
    }

    // An operation of one line.
    fn simple(&self, name: &str, rest: &str) -> Result<Op, ReadError> {
        match name {
            "unit" => Ok(Op::Unit(self.value(rest)?)),
            "fetch" => self.fetch(rest),
            "eval" => Ok(Op::Eval(self.word(rest)?)),
            "read" => Ok(Op::Read),
            "write" => Ok(Op::Write(self.word(rest)?)),
            "fail" => Ok(Op::Fail),
            _ => self.changing(name, rest),
        }
    }

    // An operation on a cell or a procedure.
    fn changing(&self, name: &str, rest: &str) -> Result<Op, ReadError> {
        match name {
            "update" => {
                let (cell, value) = front(rest);
                Ok(Op::Update(self.word(cell)?, self.value(value)?))
            }
            "apply" => {
                let (value, argument) = self.need(rest.rsplit_once(' '))?;
                Ok(Op::Apply(self.value(value)?, self.word(argument)?))
            }
            "call" => {
                let (name, arguments) = front(rest);
                Ok(Op::Call(self.proc(name)?, self.words(arguments)?))
            }
            _ => Err(self.line.malformed()),
        }
    }

    fn fetch(&self, text: &str) -> Result<Op, ReadError> {
        match text.split_once(' ') {
            Some((cell, at)) => {
                let at = self.need(at.parse::<u32>().ok())?;
                Ok(Op::FetchWord(self.word(cell)?, at))
            }
            None => Ok(Op::Fetch(self.word(text)?)),
        }
    }

    fn prim(&self, op: PrimOp, text: &str) -> Result<Op, ReadError> {
        let (left, right) = front(text);
        Ok(Op::Prim(op, self.word(left)?, self.word(right)?))
    }
}
