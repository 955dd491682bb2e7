// What a line of a block is, with the lines below it.

use crate::at::At;
use crate::error::ReadError;
use crate::operations::gives_node;
use grin_syntax::{Alt, Block, Cell, Op, Stmt, Target};
use seq::Seq;

#[derive(Drop)]
pub(crate) enum Piece {
    Stmt(Stmt),
    Cell(Cell),
    Alt(Alt),
}

impl<'a> At<'a> {
    // The piece that the line begins, with what stands below it.
    pub(crate) fn piece(&self, below: Vec<Piece>) -> Result<Piece, ReadError> {
        let text = self.line.text;
        if let Some(pattern) = text.strip_suffix(" ->") {
            let pattern = self.shape(pattern)?;
            let body = self.block(below)?;
            return Ok(Piece::Alt(Alt { pattern, body }));
        }
        if text == "store" {
            return Ok(Piece::Stmt(Stmt::Store(self.cells(below)?)));
        }
        match text.split_once(" = ") {
            Some((var, node)) => {
                self.need_none(&below)?;
                self.cell(var, node)
            }
            None => self.statement(text, below),
        }
    }

    // Refuses a line with others below it.
    pub(crate) fn need_none(&self, below: &Vec<Piece>) -> Result<(), ReadError> {
        if below.is_empty() {
            Ok(())
        } else {
            Err(self.line.malformed())
        }
    }

    fn cell(&self, var: &str, node: &str) -> Result<Piece, ReadError> {
        Ok(Piece::Cell(Cell {
            var: self.var(var)?,
            site: self.site(),
            val: self.value(node)?,
        }))
    }

    fn statement(&self, text: &str, below: Vec<Piece>) -> Result<Piece, ReadError> {
        match text.split_once(" <- ") {
            Some((target, rest)) => {
                let op = self.operation(rest, below)?;
                let target = self.target(target, gives_node(&op))?;
                Ok(Piece::Stmt(Stmt::Bind(target, op)))
            }
            None => {
                let op = self.operation(text, below)?;
                Ok(Piece::Stmt(Stmt::Bind(Target::Nothing, op)))
            }
        }
    }

    pub(crate) fn cells(&self, pieces: Vec<Piece>) -> Result<Seq<Cell>, ReadError> {
        let mut cells = Seq::new(self.alloc);
        for piece in pieces {
            match piece {
                Piece::Cell(cell) => cells.push(cell)?,
                _ => return Err(self.line.malformed()),
            }
        }
        Ok(cells)
    }

    pub(crate) fn alts(&self, pieces: Vec<Piece>) -> Result<Seq<Alt>, ReadError> {
        let mut alts = Seq::new(self.alloc);
        for piece in pieces {
            match piece {
                Piece::Alt(alt) => alts.push(alt)?,
                _ => return Err(self.line.malformed()),
            }
        }
        Ok(alts)
    }

    // A block, whose last line has no target.
    pub(crate) fn block(&self, pieces: Vec<Piece>) -> Result<Block, ReadError> {
        let mut pieces = pieces;
        let last = self.last(pieces.pop())?;
        let mut stmts = Seq::new(self.alloc);
        for piece in pieces {
            match piece {
                Piece::Stmt(stmt) => stmts.push(stmt)?,
                _ => return Err(self.line.malformed()),
            }
        }
        Ok(Block {
            stmts,
            last: Box::new(self.alloc, last)?,
        })
    }

    fn last(&self, piece: Option<Piece>) -> Result<Op, ReadError> {
        match piece {
            Some(Piece::Stmt(Stmt::Bind(Target::Nothing, op))) => Ok(op),
            _ => Err(self.line.malformed()),
        }
    }
}
