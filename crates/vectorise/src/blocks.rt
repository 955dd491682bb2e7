// Blocks in which each node variable is a vector.
#![tactic(auto, using(grin_syntax::proofs::TreeOf::tree_of), unfolding(crate::specs::Vectors::wide_act))]

ghost use Rattle.std.specs.Prelude.{◌≡◌, IfOk};
ghost use Rattle.grin_syntax.specs.Tree.{Code, act_of, before_of, arm_of, code_of};
ghost use Rattle.vectorise.specs.Vectors.{wide_target, wide_cells, without_binders, wide_act, wide_code, wide_arm};

use crate::known::{Known, fetches_whole_node};
use crate::layout::Layout;
use crate::words::{as_word, as_words, returned_val, vector_vars, wide_val};
use grin_syntax::{Alt, Block, Cell, Op, Shape, Stmt, Target};
use seq::Seq;
use std::alloc::{AllocError, Global};

/// What decides how a program is vectorised.
#[derive(Drop)]
pub(crate) struct Vectors {
    pub layout: Layout,
    pub known: Seq<Known>,
}

impl Vectors {
    #[cycle(widen)]
    #[tactic(auto, using(grin_syntax::proofs::TreeOf::tree_of, crate::proofs::Loops::case_widens), unfolding(crate::specs::Vectors::wide_act))]
    fn op(&self, alloc: Global, op: Op) -> Result<Op, AllocError>
        ensures { IfOk result (λ o. act_of o
            ≡ wide_act self.now.layout self.now.known (act_of op)) }
    {
        match op {
            Op::Unit(v) => Ok(Op::Unit(returned_val(alloc, &self.layout, &self.known, v)?)),
            Op::Fetch(w) => Ok(Op::Fetch(as_word(&self.known, w))),
            Op::FetchWord(w, i) => Ok(Op::FetchWord(as_word(&self.known, w), i)),
            Op::Update(w, v) => {
                let v = wide_val(alloc, &self.layout, &self.known, v)?;
                Ok(Op::Update(as_word(&self.known, w), v))
            }
            Op::Eval(w) => Ok(Op::Eval(as_word(&self.known, w))),
            Op::Apply(v, w) => {
                let v = wide_val(alloc, &self.layout, &self.known, v)?;
                Ok(Op::Apply(v, as_word(&self.known, w)))
            }
            Op::Call(f, words) => Ok(Op::Call(f, as_words(alloc, &self.known, words.as_slice())?)),
            Op::Prim(p, a, b) => Ok(Op::Prim(p, as_word(&self.known, a), as_word(&self.known, b))),
            Op::Read => Ok(Op::Read),
            Op::Write(w) => Ok(Op::Write(as_word(&self.known, w))),
            Op::Case(v, alts) => {
                let v = wide_val(alloc, &self.layout, &self.known, v)?;
                let mut made = Seq::new(alloc);
                for alt in alts.into_vec() {
                    made.push(self.alt(alloc, alt)?)?;
                }
                Ok(Op::Case(v, made))
            }
            Op::Nested(block) => {
                let block = self.block(alloc, Box::into_inner(block))?;
                Ok(Op::Nested(Box::new(alloc, block)?))
            }
            Op::Fail => Ok(Op::Fail),
        }
    }

    #[cycle(widen)]
    fn alt(&self, alloc: Global, alt: Alt) -> Result<Alt, AllocError>
        ensures { IfOk result (λ a. arm_of a
            ≡ wide_arm self.now.layout self.now.known (arm_of alt)) }
    {
        Ok(Alt {
            pattern: without_vars(alloc, alt.pattern),
            body: self.block(alloc, alt.body)?,
        })
    }

    #[cycle(widen)]
    fn stmt(&self, alloc: Global, stmt: Stmt) -> Result<Stmt, AllocError>
        ensures { IfOk result (λ s. (c : Code)
            → before_of s (wide_code self.now.layout self.now.known c)
            ≡ wide_code self.now.layout self.now.known (before_of stmt c)) }
    {
        match stmt {
            Stmt::Store(cells) => Ok(Stmt::Store(self.cells(alloc, cells)?)),
            Stmt::Bind(target, op) => {
                let target = self.target(alloc, target, fetches_whole_node(&op))?;
                Ok(Stmt::Bind(target, self.op(alloc, op)?))
            }
        }
    }

    /// A block, vectorised.
    #[cycle(widen)]
    pub(crate) fn block(&self, alloc: Global, block: Block) -> Result<Block, AllocError>
        ensures { IfOk result (λ b. code_of b
            ≡ wide_code self.now.layout self.now.known (code_of block)) }
    {
        let mut stmts = Seq::new(alloc);
        for stmt in block.stmts.into_vec() {
            stmts.push(self.stmt(alloc, stmt)?)?;
        }
        let last = self.op(alloc, Box::into_inner(block.last))?;
        Ok(Block {
            stmts,
            last: Box::new(alloc, last)?,
        })
    }

    fn cells(&self, alloc: Global, cells: Seq<Cell>) -> Result<Seq<Cell>, AllocError>
        ensures { IfOk result (λ made. made ≡ wide_cells self.now.layout self.now.known cells) }
    {
        let mut made = Seq::new(alloc);
        for cell in cells.into_vec() {
            made.push(Cell {
                var: cell.var,
                site: cell.site,
                val: wide_val(alloc, &self.layout, &self.known, cell.val)?,
            })?;
        }
        Ok(made)
    }

    // A target, for what a fetch gives or for another value.
    fn target(&self, alloc: Global, target: Target, fetched: bool) -> Result<Target, AllocError>
        ensures { IfOk result (λ t. t ≡ wide_target self.now.layout fetched target) }
    {
        match target {
            Target::Node(x) => {
                let fields = self.layout.room(fetched);
                Ok(Target::Vector(vector_vars(alloc, &self.layout, x, fields)?))
            }
            Target::Nothing => Ok(Target::Nothing),
            Target::One(x) => Ok(Target::One(x)),
            Target::Vector(xs) => Ok(Target::Vector(xs)),
        }
    }
}

// A pattern that binds nothing.
fn without_vars(alloc: Global, pattern: Shape) -> Shape
    ensures { result ≡ without_binders pattern }
{
    match pattern {
        Shape::Node(tag, _) => Shape::Node(tag, Seq::new(alloc)),
        Shape::Int(k) => Shape::Int(k),
        Shape::Else => Shape::Else,
    }
}
