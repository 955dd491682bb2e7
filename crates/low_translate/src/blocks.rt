// Blocks of GRIN as blocks of low code.
#![tactic(auto, using(grin_syntax::proofs::TreeOf::tree_of))]

ghost use Rattle.std.specs.Prelude.{◌≡◌, [], map, length, take, drop, min, IfOk, OnOk};
ghost use Rattle.grin_syntax.specs.Binders.{numbers_of, target_vars};
ghost use Rattle.grin_syntax.specs.Formed.{AllOf};
ghost use Rattle.grin_syntax.specs.Tree.{leaf, call, act_of, arms_of, arm_of, before_of, code_of, procedure_of};
ghost use Rattle.low_code.specs.Tree as low;
ghost use Rattle.low_translate.specs.Emitted.{AppendsBefore, PlainDone, ActDone, ThroughDone, PlainEndDone, EndDone, BlockDone, StmtDone, ArmsDone, ProcedureDone};
ghost use Rattle.low_translate.specs.Translation.{operand_of, operands_of, operation_of, variables_of, results_of, to_first, set_all, save_all, padded_to_width, load_word, end_words};
ghost use Rattle.low_translate.specs.Lowered.{WordRanged, ValRanged};

use crate::emit::{emit, front, load, load_words, past, save_words, set_words, store};
use crate::fresh::Numbers;
use crate::patterns::tests_of;
use crate::words::{operand, operands, padded_operands, value};
use grin_syntax::{Alt, Block, Op, Proc, ProcId, Stmt, Target, Val, VarId, Word};
use low_code::{LowArm, LowBlock, LowEnd, LowProc, LowStmt, Operand, PrimOp};
use seq::Seq;
use std::alloc::{AllocError, Global};

/// What a block gives: so many words, as the results of its procedure, which it leaves, or as those
/// of a join.
#[derive(Clone, Copy)]
pub(crate) struct Goal {
    pub words: usize,
    pub leaves: bool,
}

/// What the translation of a block depends on: how many words of a cell are written, and how many
/// words each procedure gives.
#[derive(Drop)]
pub(crate) struct LoweringPlan<'a> {
    pub width: u32,
    pub results: &'a [u32],
}

impl LoweringPlan<'_> {
    // How many words a procedure gives.
    fn results(&self, f: ProcId) -> u32
        ensures { result ≡ results_of self.now.results.now f.0 }
    {
        match self.results.get(f.0 as usize) {
            Some(count) => *count,
            None => 0,
        }
    }

    // A word of a cell for the first variable, and zeros for the others.
    fn load_first(
        &self,
        made: &mut Seq<LowStmt>,
        vars: &[u32],
        cell: &Word,
        i: u32,
    ) -> Result<(), AllocError>
        ensures is { OnOk result
            (AppendsBefore made.old made.new
            (to_first vars.now (λ x. load_word self.now.width x (operand_of cell.now) i))) }
        ensures ranged { WordRanged cell.now }
    {
        let cell = operand(cell);
        if let [x, rest @ ..] = vars {
            load(made, self.width, *x, cell, i as usize)?;
            set_words(made, rest, &[])?;
        }
        Ok(())
    }

    // The words of a value over a cell, with zeros up to the width.
    fn update(
        &self,
        alloc: Global,
        made: &mut Seq<LowStmt>,
        vars: &[u32],
        cell: &Word,
        v: &Val,
    ) -> Result<(), AllocError>
        ensures is { OnOk result
            (AppendsBefore made.old made.new (λ c.
            save_all (operand_of cell.now) 0 (padded_to_width self.now.width (operands_of v.now))
            (set_all vars.now [] c))) }
        ensures ranged { OnOk result (WordRanged cell.now × ValRanged v.now) }
    {
        let words = value(alloc, v)?;
        let words = padded_operands(alloc, self.width as usize, words.as_slice())?;
        save_words(made, operand(cell), words.as_slice())?;
        set_words(made, vars, &[])?;
        Ok(())
    }

    // A call: its words go to the variables, and where it gives more, to further ones.
    fn call(
        &self,
        alloc: Global,
        numbers: &mut Numbers,
        made: &mut Seq<LowStmt>,
        vars: &[u32],
        f: ProcId,
        words: &[Word],
    ) -> Result<(), AllocError>
        ensures { OnOk result (PlainDone self.now.width self.now.results.now numbers.old.next
            numbers.new.next vars.now (leaf (call f words.now)) made.old made.new) }
    {
        let site = numbers.one()?;
        let count = self.results(f) as usize;
        let mut into = Seq::from_slice(alloc, front(vars, count))?;
        let more = numbers.many(alloc, count.saturating_sub(vars.len()))?;
        into.append(more)?;
        let arguments = operands(alloc, words)?;
        emit(made, LowStmt::Call(f.0, site, arguments, into))?;
        set_words(made, past(vars, count), &[])?;
        Ok(())
    }

    // An operation without blocks, its words in variables.
    fn plain(
        &self,
        alloc: Global,
        numbers: &mut Numbers,
        made: &mut Seq<LowStmt>,
        vars: &[u32],
        op: &Op,
    ) -> Result<(), AllocError>
        ensures { OnOk result (PlainDone self.now.width self.now.results.now numbers.old.next
            numbers.new.next vars.now (act_of op.now) made.old made.new) }
    {
        match op {
            Op::Unit(v) => {
                let words = value(alloc, v)?;
                set_words(made, vars, words.as_slice())?;
            }
            Op::Fetch(cell) => load_words(made, self.width, vars, operand(cell))?,
            Op::FetchWord(cell, i) => self.load_first(made, vars, cell, *i)?,
            Op::Update(cell, v) => self.update(alloc, made, vars, cell, v)?,
            Op::Call(f, words) => self.call(alloc, numbers, made, vars, *f, words.as_slice())?,
            Op::Prim(op, a, b) => primitive(made, vars, *op, a, b)?,
            Op::Read => read_byte(made, vars)?,
            Op::Write(word) => {
                emit(made, LowStmt::Put(operand(word)))?;
                set_words(made, vars, &[])?;
            }
            Op::Eval(_) | Op::Apply(_, _) | Op::Case(_, _) | Op::Nested(_) | Op::Fail => {
                join(alloc, made, vars, failing(alloc))?;
            }
        }
        Ok(())
    }

    // How many words an operation at the end of a block has, beside those that need no variable.
    fn end_words(&self, count: usize, op: &Op) -> usize
        ensures { result ≡ end_words self.now.width self.now.results.now count (act_of op.now) }
    {
        match op {
            Op::Fetch(_) => count.min(self.width as usize),
            Op::FetchWord(_, _) | Op::Prim(_, _, _) | Op::Read => 1,
            Op::Call(f, _) => self.results(*f) as usize,
            Op::Unit(_) | Op::Update(_, _) | Op::Eval(_) | Op::Apply(_, _) => 0,
            Op::Write(_) | Op::Case(_, _) | Op::Nested(_) | Op::Fail => 0,
        }
    }

    // An operation at the end of a block: its words go to variables, and are given.
    fn through(
        &self,
        alloc: Global,
        numbers: &mut Numbers,
        made: &mut Seq<LowStmt>,
        goal: Goal,
        op: &Op,
    ) -> Result<LowEnd, AllocError>
        ensures { IfOk result (λ e.
            ThroughDone self.now.width self.now.results.now numbers.old.next numbers.new.next goal
            (act_of op.now) made.old made.new (low.end_of e)) }
    {
        let vars = numbers.many(alloc, self.end_words(goal.words, op))?;
        self.plain(alloc, numbers, made, vars.as_slice(), op)?;
        let words = as_operands(alloc, vars.as_slice())?;
        let given = padded_operands(alloc, goal.words, words.as_slice())?;
        Ok(LowEnd::Give(given))
    }

    // A call at the end of a block: where the block leaves its procedure, a tail call.
    fn last_call(
        &self,
        alloc: Global,
        numbers: &mut Numbers,
        made: &mut Seq<LowStmt>,
        goal: Goal,
        op: &Op,
        f: ProcId,
        words: &[Word],
    ) -> Result<LowEnd, AllocError>
        requires { act_of op.now ≡ leaf (call f words.now) }
        ensures { IfOk result (λ e.
            PlainEndDone self.now.width self.now.results.now numbers.old.next numbers.new.next goal
            (leaf (call f words.now)) made.old made.new (low.end_of e)) }
    {
        if !goal.leaves {
            return self.through(alloc, numbers, made, goal, op);
        }
        let site = numbers.one()?;
        let arguments = operands(alloc, words)?;
        Ok(LowEnd::Tail(f.0, site, arguments))
    }

    // An operation without blocks at the end of a block.
    fn plain_end(
        &self,
        alloc: Global,
        numbers: &mut Numbers,
        made: &mut Seq<LowStmt>,
        goal: Goal,
        op: &Op,
    ) -> Result<LowEnd, AllocError>
        ensures { IfOk result (λ e.
            PlainEndDone self.now.width self.now.results.now numbers.old.next numbers.new.next goal
            (act_of op.now) made.old made.new (low.end_of e)) }
    {
        match op {
            Op::Unit(v) => {
                let words = value(alloc, v)?;
                let given = padded_operands(alloc, goal.words, words.as_slice())?;
                Ok(LowEnd::Give(given))
            }
            Op::Call(f, words) => self.last_call(
                alloc,
                numbers,
                made,
                goal,
                op,
                *f,
                words.as_slice(),
            ),
            Op::Eval(_) | Op::Apply(_, _) | Op::Fail => Ok(LowEnd::Fail),
            Op::Fetch(_) | Op::FetchWord(_, _) | Op::Update(_, _) | Op::Prim(_, _, _) => {
                self.through(alloc, numbers, made, goal, op)
            }
            Op::Read | Op::Write(_) | Op::Case(_, _) | Op::Nested(_) => {
                self.through(alloc, numbers, made, goal, op)
            }
        }
    }

    // An operation, its words in variables.
    #[cycle(blocks)]
    fn act(
        &self,
        alloc: Global,
        op: &Op,
        numbers: &mut Numbers,
        made: &mut Seq<LowStmt>,
        vars: &[u32],
    ) -> Result<(), AllocError>
        ensures { OnOk result (ActDone self.now.width self.now.results.now numbers.old.next
            numbers.new.next vars.now (act_of op.now) made.old made.new) }
    {
        let goal = Goal {
            words: vars.len(),
            leaves: false,
        };
        match op {
            Op::Case(v, alts) => {
                let words = value(alloc, v)?;
                let last = self.choice(alloc, alts.as_slice(), numbers, goal, words.as_slice())?;
                let stmts = Seq::new(alloc);
                join(alloc, made, vars, LowBlock { stmts, last })?;
            }
            Op::Nested(block) => {
                let mut stmts = Seq::new(alloc);
                let last = self.rest(alloc, block, numbers, &mut stmts, goal)?;
                join(alloc, made, vars, LowBlock { stmts, last })?;
            }
            Op::Unit(_) | Op::Fetch(_) | Op::FetchWord(_, _) | Op::Update(_, _) | Op::Eval(_) => {
                self.plain(alloc, numbers, made, vars, op)?;
            }
            Op::Apply(_, _) | Op::Call(_, _) | Op::Prim(_, _, _) | Op::Read => {
                self.plain(alloc, numbers, made, vars, op)?;
            }
            Op::Write(_) | Op::Fail => self.plain(alloc, numbers, made, vars, op)?,
        }
        Ok(())
    }

    // An operation at the end of a block.
    #[cycle(blocks)]
    fn end(
        &self,
        alloc: Global,
        op: &Op,
        numbers: &mut Numbers,
        made: &mut Seq<LowStmt>,
        goal: Goal,
    ) -> Result<LowEnd, AllocError>
        ensures { IfOk result (λ e.
            EndDone self.now.width self.now.results.now numbers.old.next numbers.new.next goal
            (act_of op.now) made.old made.new (low.end_of e)) }
    {
        match op {
            Op::Case(v, alts) => {
                let words = value(alloc, v)?;
                self.choice(alloc, alts.as_slice(), numbers, goal, words.as_slice())
            }
            Op::Nested(block) => self.rest(alloc, block, numbers, made, goal),
            Op::Unit(_) | Op::Fetch(_) | Op::FetchWord(_, _) | Op::Update(_, _) | Op::Eval(_) => {
                self.plain_end(alloc, numbers, made, goal, op)
            }
            Op::Apply(_, _) | Op::Call(_, _) | Op::Prim(_, _, _) | Op::Read => {
                self.plain_end(alloc, numbers, made, goal, op)
            }
            Op::Write(_) | Op::Fail => self.plain_end(alloc, numbers, made, goal, op),
        }
    }

    // A statement.
    #[cycle(blocks)]
    fn stmt(
        &self,
        alloc: Global,
        stmt: &Stmt,
        numbers: &mut Numbers,
        made: &mut Seq<LowStmt>,
    ) -> Result<(), AllocError>
        ensures { OnOk result (StmtDone self.now.width self.now.results.now numbers.old.next
            numbers.new.next (before_of stmt.now) made.old made.new) }
    {
        match stmt {
            Stmt::Store(cells) => store(alloc, made, self.width, cells.as_slice())?,
            Stmt::Bind(target, op) => {
                let vars = target_variables(alloc, target)?;
                self.act(alloc, op, numbers, made, vars.as_slice())?;
            }
        }
        Ok(())
    }

    /// A block after statements: its end is left.
    #[cycle(blocks)]
    pub(crate) fn rest(
        &self,
        alloc: Global,
        block: &Block,
        numbers: &mut Numbers,
        made: &mut Seq<LowStmt>,
        goal: Goal,
    ) -> Result<LowEnd, AllocError>
        ensures { IfOk result (λ e.
            BlockDone self.now.width self.now.results.now numbers.old.next numbers.new.next goal
            (code_of block.now) made.old made.new (low.end_of e)) }
    {
        for stmt in block.stmts.as_slice() {
            self.stmt(alloc, stmt, numbers, made)?;
        }
        self.end(alloc, &block.last, numbers, made, goal)
    }

    /// A procedure that gives so many words.
    pub(crate) fn procedure(
        &self,
        alloc: Global,
        proc: &Proc,
        count: u32,
        numbers: &mut Numbers,
    ) -> Result<LowProc, AllocError>
        ensures { IfOk result (λ q.
            ProcedureDone self.now.width self.now.results.now numbers.old.next numbers.new.next
            count (procedure_of proc.now) (low.procedure_of q)) }
    {
        let params = numbers_of(alloc, proc.params.as_slice())?;
        let goal = Goal {
            words: count as usize,
            leaves: true,
        };
        let mut stmts = Seq::new(alloc);
        let last = self.rest(alloc, &proc.body, numbers, &mut stmts, goal)?;
        Ok(LowProc {
            params,
            results: count,
            body: LowBlock { stmts, last },
        })
    }

    // The alternatives of a case: the last one needs no test.
    #[cycle(blocks)]
    fn choice(
        &self,
        alloc: Global,
        alts: &[Alt],
        numbers: &mut Numbers,
        goal: Goal,
        words: &[Operand],
    ) -> Result<LowEnd, AllocError>
        ensures { IfOk result (λ e.
            ArmsDone self.now.width self.now.results.now numbers.old.next numbers.new.next goal
            words.now (arms_of (map arm_of alts.now)) (low.end_of e)) }
    {
        let mut arms = Seq::new(alloc);
        let [firsts @ .., last] = alts else {
            return Ok(LowEnd::Choose(arms, Box::new(alloc, failing(alloc))?));
        };
        for alt in firsts {
            let tests = tests_of(alloc, words, &alt.pattern)?;
            let mut stmts = Seq::new(alloc);
            let last = self.rest(alloc, &alt.body, numbers, &mut stmts, goal)?;
            let block = LowBlock { stmts, last };
            arms.push(LowArm { tests, block })?;
        }
        let mut stmts = Seq::new(alloc);
        let last = self.rest(alloc, &last.body, numbers, &mut stmts, goal)?;
        let otherwise = Box::new(alloc, LowBlock { stmts, last })?;
        Ok(LowEnd::Choose(arms, otherwise))
    }
}

// The operation of low code.
fn operation(op: grin_syntax::PrimOp) -> PrimOp
    ensures { result ≡ operation_of op }
{
    match op {
        grin_syntax::PrimOp::Add => PrimOp::Add,
        grin_syntax::PrimOp::Sub => PrimOp::Sub,
        grin_syntax::PrimOp::Mul => PrimOp::Mul,
        grin_syntax::PrimOp::Quot => PrimOp::Quot,
        grin_syntax::PrimOp::Rem => PrimOp::Rem,
        grin_syntax::PrimOp::Eq => PrimOp::Eq,
        grin_syntax::PrimOp::Lt => PrimOp::Lt,
    }
}

// A primitive for the first variable, and zeros for the others.
fn primitive(
    made: &mut Seq<LowStmt>,
    vars: &[u32],
    op: grin_syntax::PrimOp,
    a: &Word,
    b: &Word,
) -> Result<(), AllocError>
    ensures is { OnOk result (AppendsBefore made.old made.new
        (to_first vars.now (λ x.
        low.prim (operation_of op) x (operand_of a.now) (operand_of b.now)))) }
    ensures ranged { WordRanged a.now × WordRanged b.now }
{
    let (a, b) = (operand(a), operand(b));
    if let [x, rest @ ..] = vars {
        emit(made, LowStmt::Prim(operation(op), *x, a, b))?;
        set_words(made, rest, &[])?;
    }
    Ok(())
}

// The next byte for the first variable, and zeros for the others.
fn read_byte(made: &mut Seq<LowStmt>, vars: &[u32]) -> Result<(), AllocError>
    ensures { OnOk result (AppendsBefore made.old made.new (to_first vars.now (λ x. low.get x))) }
{
    if let [x, rest @ ..] = vars {
        emit(made, LowStmt::Get(*x))?;
        set_words(made, rest, &[])?;
    }
    Ok(())
}

// A block that fails.
fn failing(alloc: Global) -> LowBlock
    ensures { low.code_of result ≡ low.fail }
{
    LowBlock {
        stmts: Seq::new(alloc),
        last: LowEnd::Fail,
    }
}

// A block whose words go to variables.
fn join(
    alloc: Global,
    made: &mut Seq<LowStmt>,
    vars: &[u32],
    block: LowBlock,
) -> Result<(), AllocError>
    ensures { OnOk result (AppendsBefore made.old made.new (low.join vars.now (low.code_of block))) }
{
    let vars = Seq::from_slice(alloc, vars)?;
    emit(made, LowStmt::Join(vars, Box::new(alloc, block)?))?;
    Ok(())
}

fn target_variables(alloc: Global, target: &Target) -> Result<Seq<u32>, AllocError>
    ensures { IfOk result (λ xs. xs ≡ target_vars target.now) }
{
    let mut made = Seq::new(alloc);
    match target {
        Target::Nothing => {}
        Target::Node(x) | Target::One(x) => made.push(x.0)?,
        Target::Vector(vars) => made = numbers_of(alloc, vars.as_slice())?,
    }
    Ok(made)
}

/// The numbers of variables.
pub(crate) fn numbers_of(alloc: Global, vars: &[VarId]) -> Result<Seq<u32>, AllocError>
    ensures { IfOk result (λ xs. xs ≡ numbers_of vars.now) }
{
    let mut made = Seq::new(alloc);
    for x in vars {
        made.push(x.0)?;
    }
    Ok(made)
}

fn as_operands(alloc: Global, vars: &[u32]) -> Result<Seq<Operand>, AllocError>
    ensures { IfOk result (λ words. words ≡ variables_of vars.now) }
{
    let mut made = Seq::new(alloc);
    for x in vars {
        made.push(Operand::Var(*x))?;
    }
    Ok(made)
}
