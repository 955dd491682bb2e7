// Which procedures are members together or not at all.
#![tactic(auto)]

ghost use Rattle.std.specs.Prelude.{◌≡◌, ◌||◌, ◌++◌, not, nat_eq, map, IfOk, OnOk};
ghost use Rattle.grin_syntax.specs.Tree.{Code, act_of, before_of, arm_of, code_of, arms_of, procedure_of};
ghost use Rattle.flow_system.specs.declared.fact.Place.TheVariants.{Var as var};
ghost use Rattle.flow_system.specs.declared.fact.Part.TheVariants.{Word as word};
ghost use Rattle.flow_system.specs.declared.fact.Element.TheVariants.{Tag as tag'};
ghost use Rattle.flow_system.specs.Solution.{among};
ghost use Rattle.points_to.specs.Found.{found};
ghost use Rattle.unbox_theory.specs.Ends.{only_int, is_int, is_int_word, has_int};
ghost use Rattle.unbox.specs.Ties.{act_called, code_called, arms_called, act_ints, code_ints, arms_ints, act_ties, code_ties, arms_ties, body_tie as body_tie', ties_from};

use grin_syntax::{Alt, Block, Op, Proc, ProcId, Stmt, TagId, Val, VarId, Word};
use pass_ground::truth::both;
use points_to::Flow;
use seq::Seq;
use std::alloc::{AllocError, Global};

/// Procedures that are members together or not at all.
#[derive(Drop)]
pub(crate) struct Tie {
    /// Whether they may be members: what is given beside their results is a number.
    pub sound: bool,
    pub procs: Seq<ProcId>,
}

// The procedures that the ends of an operation call.
#[cycle(called)]
#[tactic(auto, using(grin_syntax::proofs::TreeOf::tree_of), unfolding(crate::specs::Ties::act_called))]
fn op_called(op: &Op, out: &mut Seq<ProcId>) -> Result<(), AllocError>
    ensures { OnOk result (out.new ≡ out.old ++ act_called (act_of op.now)) }
{
    match op {
        Op::Call(f, _) => out.push(*f),
        Op::Case(_, alts) => alts_called(alts.as_slice(), out),
        Op::Nested(block) => block_called(block, out),
        Op::Unit(_) => Ok(()),
        Op::Fetch(_) => Ok(()),
        Op::FetchWord(_, _) => Ok(()),
        Op::Update(_, _) => Ok(()),
        Op::Eval(_) => Ok(()),
        Op::Apply(_, _) => Ok(()),
        Op::Prim(_, _, _) => Ok(()),
        Op::Read => Ok(()),
        Op::Write(_) => Ok(()),
        Op::Fail => Ok(()),
    }
}

#[cycle(called)]
fn alts_called(alts: &[Alt], out: &mut Seq<ProcId>) -> Result<(), AllocError>
    ensures { OnOk result (out.new ≡ out.old ++ arms_called (arms_of (map arm_of alts.now))) }
{
    for alt in alts {
        block_called(&alt.body, out)?;
    }
    Ok(())
}

#[cycle(called)]
fn block_called(block: &Block, out: &mut Seq<ProcId>) -> Result<(), AllocError>
    ensures { OnOk result (out.new ≡ out.old ++ code_called (code_of block.now)) }
{
    op_called(&block.last, out)?;
    Ok(())
}

// What a flow system's solution says of the ends.
#[cycle(ints)]
#[tactic(auto, using(grin_syntax::proofs::TreeOf::tree_of), unfolding(crate::specs::Ties::act_ints))]
fn op_ints(flow: &Flow, op: &Op) -> bool
    ensures { result ≡ act_ints (found flow.now) (act_of op.now) }
{
    match op {
        Op::Unit(v) => is_int(flow, v),
        Op::Call(_, _) => true,
        Op::Case(_, alts) => alts_ints(flow, alts.as_slice()),
        Op::Nested(block) => block_ints(flow, block),
        Op::Fail => true,
        Op::Fetch(_) => false,
        Op::FetchWord(_, _) => false,
        Op::Update(_, _) => false,
        Op::Eval(_) => false,
        Op::Apply(_, _) => false,
        Op::Prim(_, _, _) => false,
        Op::Read => false,
        Op::Write(_) => false,
    }
}

#[cycle(ints)]
fn alts_ints(flow: &Flow, alts: &[Alt]) -> bool
    ensures { result ≡ arms_ints (found flow.now) (arms_of (map arm_of alts.now)) }
{
    let mut all = true;
    for alt in alts {
        all = both(all, block_ints(flow, &alt.body));
    }
    all
}

#[cycle(ints)]
fn block_ints(flow: &Flow, block: &Block) -> bool
    ensures { result ≡ code_ints (found flow.now) (code_of block.now) }
{
    op_ints(flow, &block.last)
}

// Whether a value has the tag of numbers and no other.
fn is_int(flow: &Flow, value: &Val) -> bool
    ensures { result ≡ is_int (found flow.now) value.now }
{
    match value {
        Val::Node(tag, _) => tag.0 == 0,
        Val::Vector(words) => match words.get(0) {
            Some(word) => is_int_word(flow, word),
            None => false,
        },
        Val::NodeVar(_) => false,
        Val::One(_) => false,
    }
}

fn is_int_word(flow: &Flow, word: &Word) -> bool
    ensures { result ≡ is_int_word (found flow.now) word.now }
{
    match word {
        Word::TagWord(tag) => tag.0 == 0,
        Word::Var(x) => only_int(flow, *x),
        Word::Lit(_) => false,
        Word::Global(_) => false,
    }
}

// Whether a variable stands for the tag of numbers and nothing else.
fn only_int(flow: &Flow, x: VarId) -> bool
    ensures { result ≡ only_int (found flow.now (var x.0) (word 0)) }
{
    let mut only = true;
    for tag in flow.nodes_of(x) {
        only = both(only, is_no_other(flow, x, *tag));
    }
    let no_other_word = both(!flow.holds_number(x), flow.locs_of(x).is_empty());
    both(only, no_other_word)
}

// Whether a tag is that of numbers, or the variable does not stand for it.
fn is_no_other(flow: &Flow, x: VarId, tag: TagId) -> bool
    ensures { result ≡ (nat_eq tag.0 0 || not
        (among (tag' tag.0) (found flow.now (var x.0) (word 0)))) }
{
    tag.0 == 0 || !flow.holds_tag(x, tag)
}

// Whether a procedure may give a number.
fn has_int(flow: &Flow, f: ProcId) -> bool
    ensures { result ≡ has_int (found flow.now) f.0 }
{
    match flow.result_of(f).first() {
        Some(tag) => tag.0 == 0,
        None => false,
    }
}

// A tie for each bound operation in a block.
#[cycle(ties)]
fn block_ties(
    alloc: Global,
    flow: &Flow,
    block: &Block,
    out: &mut Seq<Tie>,
) -> Result<(), AllocError>
    ensures { OnOk result (out.new ≡ out.old ++ code_ties (found flow.now) (code_of block.now)) }
{
    for stmt in block.stmts.as_slice() {
        stmt_ties(alloc, flow, stmt, out)?;
    }
    op_ties(alloc, flow, &block.last, out)?;
    Ok(())
}

#[cycle(ties)]
#[tactic(auto, using(grin_syntax::proofs::TreeOf::tree_of), unfolding(crate::specs::Ties::act_ties))]
fn stmt_ties(alloc: Global, flow: &Flow, stmt: &Stmt, out: &mut Seq<Tie>) -> Result<(), AllocError>
    ensures { OnOk result ((c : Code) → out.old ++ code_ties (found flow.now) (before_of stmt.now c)
        ≡ out.new ++ code_ties (found flow.now) c) }
{
    match stmt {
        Stmt::Store(_) => Ok(()),
        Stmt::Bind(_, op) => {
            let mut procs = Seq::new(alloc);
            op_called(op, &mut procs)?;
            out.push(Tie {
                sound: op_ints(flow, op),
                procs,
            })?;
            op_ties(alloc, flow, op, out)?;
            Ok(())
        }
    }
}

#[cycle(ties)]
#[tactic(auto, using(grin_syntax::proofs::TreeOf::tree_of), unfolding(crate::specs::Ties::act_ties))]
fn op_ties(alloc: Global, flow: &Flow, op: &Op, out: &mut Seq<Tie>) -> Result<(), AllocError>
    ensures { OnOk result (out.new ≡ out.old ++ act_ties (found flow.now) (act_of op.now)) }
{
    match op {
        Op::Case(_, alts) => alts_ties(alloc, flow, alts.as_slice(), out),
        Op::Nested(block) => block_ties(alloc, flow, block, out),
        Op::Unit(_) => Ok(()),
        Op::Fetch(_) => Ok(()),
        Op::FetchWord(_, _) => Ok(()),
        Op::Update(_, _) => Ok(()),
        Op::Eval(_) => Ok(()),
        Op::Apply(_, _) => Ok(()),
        Op::Call(_, _) => Ok(()),
        Op::Prim(_, _, _) => Ok(()),
        Op::Read => Ok(()),
        Op::Write(_) => Ok(()),
        Op::Fail => Ok(()),
    }
}

#[cycle(ties)]
fn alts_ties(alloc: Global, flow: &Flow, alts: &[Alt], out: &mut Seq<Tie>) -> Result<(), AllocError>
    ensures { OnOk result (out.new ≡ out.old
        ++ arms_ties (found flow.now) (arms_of (map arm_of alts.now))) }
{
    for alt in alts {
        block_ties(alloc, flow, &alt.body, out)?;
    }
    Ok(())
}

// A tie for the ends of a procedure's body.
fn body_tie(alloc: Global, flow: &Flow, f: ProcId, proc: &Proc) -> Result<Tie, AllocError>
    ensures { IfOk result (λ t. t ≡ body_tie' (found flow.now) f.0 (procedure_of proc.now)) }
{
    let mut procs = Seq::new(alloc);
    procs.push(f)?;
    block_called(&proc.body, &mut procs)?;
    Ok(Tie {
        sound: both(has_int(flow, f), block_ints(flow, &proc.body)),
        procs,
    })
}

/// A tie for the ends of each procedure's body and of each bound operation. More procedures than
/// can be numbered are want of memory.
pub(crate) fn ties(alloc: Global, flow: &Flow, procs: &[Proc]) -> Result<Seq<Tie>, AllocError>
    ensures { IfOk result (λ ts. ts ≡ ties_from (found flow.now) 0 (map procedure_of procs.now)) }
{
    let mut made = Seq::new(alloc);
    let mut f = 0_u32;
    for proc in procs {
        let tie = body_tie(alloc, flow, ProcId(f), proc)?;
        made.push(tie)?;
        block_ties(alloc, flow, &proc.body, &mut made)?;
        f = f.checked_add(1).ok_or(AllocError)?;
    }
    Ok(made)
}
