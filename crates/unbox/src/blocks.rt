// Blocks in which members give numbers without their tag.
#![tactic(auto, using(grin_syntax::proofs::TreeOf::tree_of), unfolding(unbox_theory::specs::Unboxing::unbox_act))]

ghost use Rattle.std.specs.Prelude.{◌≡◌, ◌≤◌, Bool, length, map, IfOk, OnOk};
ghost use Rattle.grin_syntax.specs.Tree.{Code, bind, act_of, before_of, arm_of, code_of, all_before, arms_of};
ghost use Rattle.unbox_theory.specs.Ends.{is_member, act_calls, code_calls, arms_calls};
ghost use Rattle.unbox_theory.specs.Unboxing.{given, number_word, word_or_zero, without_second, zeros, tag_and_zeros, boxed, boxed_vector, bound, unbox_act, unbox_code, unbox_arm};

use grin_syntax::{Alt, Block, Op, ProcId, Stmt, TagId, Target, Val, VarId, Word};
use pass_ground::truth::either;
use seq::Seq;
use std::alloc::{AllocError, Global};

/// The members among a program's procedures.
#[derive(Drop)]
pub(crate) struct Members {
    /// Whether a procedure is one, by its number.
    pub inside: Seq<bool>,
}

impl Members {
    /// Whether a procedure is a member.
    pub(crate) fn has(&self, f: ProcId) -> bool
        ensures { result ≡ is_member self.now.inside f.0 }
    {
        match self.inside.get(f.0 as usize) {
            Some(inside) => *inside,
            None => false,
        }
    }

    // Whether one of the ends of an operation calls a member.
    #[cycle(calls)]
    #[tactic(auto, using(grin_syntax::proofs::TreeOf::tree_of), unfolding(unbox_theory::specs::Ends::act_calls))]
    fn op_calls(&self, op: &Op) -> bool
        ensures { result ≡ act_calls (is_member self.now.inside) (act_of op.now) }
    {
        match op {
            Op::Call(f, _) => self.has(*f),
            Op::Case(_, alts) => self.alts_call(alts.as_slice()),
            Op::Nested(block) => self.block_calls(block),
            Op::Unit(_) => false,
            Op::Fetch(_) => false,
            Op::FetchWord(_, _) => false,
            Op::Update(_, _) => false,
            Op::Eval(_) => false,
            Op::Apply(_, _) => false,
            Op::Prim(_, _, _) => false,
            Op::Read => false,
            Op::Write(_) => false,
            Op::Fail => false,
        }
    }

    #[cycle(calls)]
    fn alts_call(&self, alts: &[Alt]) -> bool
        ensures { result ≡ arms_calls (is_member self.now.inside) (arms_of (map arm_of alts.now)) }
    {
        let mut found = false;
        for alt in alts {
            found = either(found, self.block_calls(&alt.body));
        }
        found
    }

    #[cycle(calls)]
    fn block_calls(&self, block: &Block) -> bool
        ensures { result ≡ code_calls (is_member self.now.inside) (code_of block.now) }
    {
        self.op_calls(&block.last)
    }

    /// A block whose ends give the number alone, where `bare` holds, or what they gave.
    #[cycle(unbox)]
    pub(crate) fn block(&self, alloc: Global, bare: bool, block: Block) -> Result<Block, AllocError>
        ensures { IfOk result (λ b. code_of b
            ≡ unbox_code (is_member self.now.inside) bare (code_of block)) }
    {
        let mut stmts = Seq::new(alloc);
        for stmt in block.stmts.into_vec() {
            self.stmt(alloc, stmt, &mut stmts)?;
        }
        let last = self.op(alloc, bare, Box::into_inner(block.last))?;
        Ok(Block {
            stmts,
            last: Box::new(alloc, last)?,
        })
    }

    #[cycle(unbox)]
    fn stmt(&self, alloc: Global, stmt: Stmt, out: &mut Seq<Stmt>) -> Result<(), AllocError>
        ensures { OnOk result ((bare : Bool) (c : Code)
            → all_before (map before_of out.new) (unbox_code (is_member self.now.inside) bare c)
            ≡ all_before (map before_of out.old)
            (unbox_code (is_member self.now.inside) bare (before_of stmt c))) }
    {
        match stmt {
            Stmt::Store(cells) => {
                out.push(Stmt::Store(cells))?;
                Ok(())
            }
            Stmt::Bind(target, op) => {
                let bare = self.op_calls(&op);
                let made = self.op(alloc, bare, op)?;
                put_bound(alloc, bare, target, made, out)?;
                Ok(())
            }
        }
    }

    #[cycle(unbox)]
    #[tactic(auto, using(grin_syntax::proofs::TreeOf::tree_of, crate::proofs::Loops::case_unboxed), unfolding(unbox_theory::specs::Unboxing::unbox_act))]
    fn op(&self, alloc: Global, bare: bool, op: Op) -> Result<Op, AllocError>
        ensures { IfOk result (λ o. act_of o
            ≡ unbox_act (is_member self.now.inside) bare (act_of op)) }
    {
        match op {
            Op::Unit(v) => Ok(Op::Unit(given(bare, v))),
            Op::Case(v, alts) => {
                let mut made = Seq::new(alloc);
                for alt in alts.into_vec() {
                    made.push(self.alt(alloc, bare, alt)?)?;
                }
                Ok(Op::Case(v, made))
            }
            Op::Nested(block) => {
                let inner = self.block(alloc, bare, Box::into_inner(block))?;
                Ok(Op::Nested(Box::new(alloc, inner)?))
            }
            Op::Fetch(w) => Ok(Op::Fetch(w)),
            Op::FetchWord(w, i) => Ok(Op::FetchWord(w, i)),
            Op::Update(w, v) => Ok(Op::Update(w, v)),
            Op::Eval(w) => Ok(Op::Eval(w)),
            Op::Apply(v, w) => Ok(Op::Apply(v, w)),
            Op::Call(f, words) => Ok(Op::Call(f, words)),
            Op::Prim(p, a, b) => Ok(Op::Prim(p, a, b)),
            Op::Read => Ok(Op::Read),
            Op::Write(w) => Ok(Op::Write(w)),
            Op::Fail => Ok(Op::Fail),
        }
    }

    #[cycle(unbox)]
    fn alt(&self, alloc: Global, bare: bool, alt: Alt) -> Result<Alt, AllocError>
        ensures { IfOk result (λ a. arm_of a
            ≡ unbox_arm (is_member self.now.inside) bare (arm_of alt)) }
    {
        Ok(Alt {
            pattern: alt.pattern,
            body: self.block(alloc, bare, alt.body)?,
        })
    }
}

// What an end gives: its number alone, or as it was.
fn given(bare: bool, value: Val) -> Val
    ensures { result ≡ given bare value }
{
    if bare {
        return Val::One(number_word(&value));
    }
    value
}

// The number of a value with the tag of numbers.
fn number_word(value: &Val) -> Word
    ensures { result ≡ number_word value.now }
{
    match value {
        Val::NodeVar(_) => Word::Lit(0),
        Val::Node(_, words) => word_or_zero(words, 0),
        Val::Vector(words) => word_or_zero(words, 1),
        Val::One(word) => *word,
    }
}

// A word among others, or zero past their end.
fn word_or_zero(words: &Seq<Word>, i: usize) -> Word
    ensures { result ≡ word_or_zero words.now i }
{
    match words.get(i) {
        Some(word) => *word,
        None => Word::Lit(0),
    }
}

// Puts a statement that binds what an operation gives: a number alone, where `bare` holds.
fn put_bound(
    alloc: Global,
    bare: bool,
    target: Target,
    op: Op,
    out: &mut Seq<Stmt>,
) -> Result<(), AllocError>
    ensures { OnOk result ((c : Code) → all_before (map before_of out.new) c
        ≡ all_before (map before_of out.old) (bound bare target (act_of op) c)) }
{
    if bare {
        return put_boxed(alloc, target, op, out);
    }
    put(target, op, out)
}

// Puts a statement that binds a number without its tag, and one that puts the tag and zeros beside
// it.
fn put_boxed(alloc: Global, target: Target, op: Op, out: &mut Seq<Stmt>) -> Result<(), AllocError>
    ensures { OnOk result ((c : Code) → all_before (map before_of out.new) c
        ≡ all_before (map before_of out.old) (boxed target (act_of op) c)) }
{
    match target {
        Target::Vector(vars) => put_vector(alloc, vars, op, out),
        Target::Nothing => put(Target::Nothing, op, out),
        Target::Node(x) => put(Target::Node(x), op, out),
        Target::One(x) => put(Target::One(x), op, out),
    }
}

fn put_vector(
    alloc: Global,
    vars: Seq<VarId>,
    op: Op,
    out: &mut Seq<Stmt>,
) -> Result<(), AllocError>
    ensures { OnOk result ((c : Code) → all_before (map before_of out.new) c
        ≡ all_before (map before_of out.old) (boxed_vector vars (act_of op) c)) }
{
    if vars.len() < 2 {
        put(Target::Vector(vars), op, out)?;
        return Ok(());
    }
    let number = vars.as_slice()[1];
    let others = all_but_second(alloc, vars.as_slice())?;
    let value = tag_and_zeros(alloc, others.len() - 1)?;
    put(Target::One(number), op, out)?;
    put(Target::Vector(others), Op::Unit(value), out)?;
    Ok(())
}

// Puts one statement.
fn put(target: Target, op: Op, out: &mut Seq<Stmt>) -> Result<(), AllocError>
    ensures { OnOk result ((c : Code) → all_before (map before_of out.new) c
        ≡ all_before (map before_of out.old) (bind target (act_of op) c)) }
{
    out.push(Stmt::Bind(target, op))?;
    Ok(())
}

fn all_but_second(alloc: Global, vars: &[VarId]) -> Result<Seq<VarId>, AllocError>
    requires { 2 ≤ length vars.now }
    ensures { IfOk result (λ xs. xs ≡ without_second vars.now) }
{
    let mut made = Seq::from_slice(alloc, &vars[..1])?;
    for x in &vars[2..] {
        made.push(*x)?;
    }
    Ok(made)
}

// The tag of a number with so many zeros.
fn tag_and_zeros(alloc: Global, count: usize) -> Result<Val, AllocError>
    ensures { IfOk result (λ v. v ≡ tag_and_zeros count) }
{
    let mut words = Seq::from_slice(alloc, &[Word::TagWord(TagId(0))])?;
    for _ in 0..count {
        words.push(Word::Lit(0))?;
    }
    Ok(Val::Vector(words))
}
