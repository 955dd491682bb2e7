// The inclusions of a program.

ghost use Rattle.std.specs.Prelude.{◌≡◌, ◌∷◌, [], ◌++◌, ◌||◌, cond, map, IfOk, OnOk};
ghost use Rattle.grin_syntax.specs.Tree.{Code, Arms, arm, arms_of, act_of, before_of, arm_of, code_of, procedure_of, program_of};
ghost use Rattle.flow_system.specs.Inclusions.{flows, forces, applies, extended, value, held, to, into_site, result as result'};
ghost use Rattle.grin_syntax.specs.declared.program.Val.TheVariants.{Vector};
ghost use Rattle.flow_system.specs.System.{act_evals, code_evals, arms_eval, has_eval, act_flows, code_flows, arms_flow, cells_flow, shape_flows, site_flows, globals_flow, procs_flow, start_flows, system};
ghost use Rattle.flow_system.specs.Tables.{tables, params_of};
ghost use Rattle.flow_system.specs.Shown.{source_of, sink_of, shown, tables_of, inclusions_of};

use crate::inclusion::{FlowSink, FlowSystem, Inclusion, Source, copy_sink};
use crate::named::all_named_sets;
use crate::rows::rows;
use crate::sets::numbered;
use crate::starts::partial_tag_starts;
use grin_syntax::copies::{copy_target, copy_val};
use grin_syntax::program::{
    Alt, Block, Cell, Grin, Op, Proc, ProcId, Shape, Site, Stmt, Target, Val, VarId, Word,
};
use seq::Seq;
use std::alloc::{AllocError, Global};

// Whether one of two holds.
fn either(a: bool, b: bool) -> bool
    ensures { result ≡ (a || b) }
{
    a || b
}

#[cycle(evals)]
#[tactic(auto, using(grin_syntax::proofs::TreeOf::tree_of), unfolding(crate::specs::System::act_evals))]
fn op_evals(op: &Op) -> bool
    ensures { result ≡ act_evals (act_of op.now) }
{
    match op {
        Op::Eval(_) => true,
        Op::Case(_, alts) => arms_eval(alts.as_slice()),
        Op::Nested(block) => block_evals(block),
        Op::Unit(_) => false,
        Op::Fetch(_) => false,
        Op::FetchWord(_, _) => false,
        Op::Update(_, _) => false,
        Op::Apply(_, _) => false,
        Op::Call(_, _) => false,
        Op::Prim(_, _, _) => false,
        Op::Read => false,
        Op::Write(_) => false,
        Op::Fail => false,
    }
}

#[cycle(evals)]
fn arms_eval(alts: &[Alt]) -> bool
    ensures { result ≡ arms_eval (arms_of (map arm_of alts.now)) }
{
    let mut found = false;
    for alt in alts {
        found = either(found, block_evals(&alt.body));
    }
    found
}

#[cycle(evals)]
#[tactic(auto, using(grin_syntax::proofs::TreeOf::tree_of), unfolding(crate::specs::System::act_evals))]
fn stmt_evals(stmt: &Stmt) -> bool
    ensures { (c : Code) → code_evals (before_of stmt.now c) ≡ (result || code_evals c) }
{
    match stmt {
        Stmt::Store(_) => false,
        Stmt::Bind(_, op) => op_evals(op),
    }
}

#[cycle(evals)]
fn block_evals(block: &Block) -> bool
    ensures { result ≡ code_evals (code_of block.now) }
{
    let mut found = false;
    for stmt in block.stmts.as_slice() {
        found = either(found, stmt_evals(stmt));
    }
    either(found, op_evals(&block.last))
}

/// Whether a program has an eval.
fn has_eval(g: &Grin) -> bool
    ensures { result ≡ has_eval (program_of g.now) }
{
    let mut found = false;
    for proc in g.procs.as_slice() {
        found = either(found, block_evals(&proc.body));
    }
    found
}

// One inclusion more.
fn add<'a>(
    out: &mut Seq<Inclusion<'a>>,
    source: Source<'a>,
    sink: FlowSink,
) -> Result<(), AllocError>
    ensures { OnOk result
        (shown out.new ≡ shown out.old ++ flows (source_of source.entry) (sink_of sink) ∷ []) }
{
    out.push(Inclusion::Flows(source, sink))
}

fn params_of(alloc: Global, g: &Grin, f: ProcId) -> Result<Target, AllocError>
    ensures { IfOk result (λ t. t ≡ params_of (tables (program_of g.now)) f.0) }
{
    match g.procs.get(f.0 as usize) {
        Some(q) => Ok(Target::Vector(Seq::from_slice(alloc, q.params.as_slice())?)),
        None => Ok(Target::Nothing),
    }
}

// A node in the cells of a site, and what a delayed call there gives.
fn site_flows(evals: bool, s: Site, node: Val, out: &mut Seq<Inclusion>) -> Result<(), AllocError>
    ensures { OnOk result (shown out.new
        ≡ shown out.old ++ flows (value node) (into_site s.0) ∷ cond evals (forces s.0 ∷ []) []) }
{
    add(out, Source::Value(node), FlowSink::Site(s))?;
    if evals {
        out.push(Inclusion::Forces(s))?;
    }
    Ok(())
}

fn cells_flow(
    alloc: Global,
    g: &Grin,
    evals: bool,
    cells: &[Cell],
    out: &mut Seq<Inclusion>,
) -> Result<(), AllocError>
    requires { evals ≡ has_eval (program_of g.now) }
    ensures { OnOk result
        (shown out.new ≡ shown out.old ++ cells_flow (program_of g.now) cells.now) }
{
    for cell in cells {
        add(
            out,
            Source::ACell(cell.site),
            FlowSink::To(Target::One(cell.var)),
        )?;
        site_flows(evals, cell.site, copy_val(alloc, &cell.val)?, out)?;
    }
    Ok(())
}

fn shape_flows<'a>(
    alloc: Global,
    v: &'a Val,
    s: &Shape,
    out: &mut Seq<Inclusion<'a>>,
) -> Result<(), AllocError>
    ensures { OnOk result (shown out.new ≡ shown out.old ++ shape_flows v.now s.now) }
{
    match s {
        Shape::Node(tag, xs) => add(
            out,
            Source::FieldsOf(v, *tag),
            FlowSink::To(Target::Vector(Seq::from_slice(alloc, xs.as_slice())?)),
        ),
        Shape::Int(_) => Ok(()),
        Shape::Else => Ok(()),
    }
}

#[cycle(flows)]
#[tactic(auto, using(grin_syntax::proofs::TreeOf::tree_of), unfolding(crate::specs::System::act_flows))]
fn op_flows<'a>(
    alloc: Global,
    g: &Grin,
    evals: bool,
    sink: &FlowSink,
    op: &'a Op,
    out: &mut Seq<Inclusion<'a>>,
) -> Result<(), AllocError>
    requires { evals ≡ has_eval (program_of g.now) }
    ensures { OnOk result
        (shown out.new ≡ shown out.old
        ++ act_flows (program_of g.now) (sink_of sink.now) (act_of op.now)) }
{
    match op {
        Op::Unit(v) => add(
            out,
            Source::Value(copy_val(alloc, v)?),
            copy_sink(alloc, sink)?,
        ),
        Op::Fetch(w) => add(out, Source::NodesAt(*w), copy_sink(alloc, sink)?),
        Op::FetchWord(w, i) => add(out, Source::WordAt(*w, *i), copy_sink(alloc, sink)?),
        Op::Update(w, v) => add(
            out,
            Source::Value(copy_val(alloc, v)?),
            FlowSink::CellsAt(*w),
        ),
        Op::Eval(w) => add(out, Source::EvaluatedAt(*w), copy_sink(alloc, sink)?),
        Op::Apply(v, w) => apply_flows(alloc, sink, v, *w, out),
        Op::Call(f, words) => call_flows(alloc, g, sink, *f, words.as_slice(), out),
        Op::Prim(_, _, _) => add(out, Source::ANumber, copy_sink(alloc, sink)?),
        Op::Read => add(out, Source::ANumber, copy_sink(alloc, sink)?),
        Op::Write(_) => add_none(out),
        Op::Case(v, alts) => alts_flow(alloc, g, evals, sink, v, alts.as_slice(), out),
        Op::Nested(block) => block_flows(alloc, g, evals, sink, block, out),
        Op::Fail => add_none(out),
    }
}

// No inclusion more.
fn add_none(out: &mut Seq<Inclusion>) -> Result<(), AllocError>
    ensures { OnOk result (shown out.new ≡ shown out.old ++ []) }
{
    Ok(())
}

fn apply_flows(
    alloc: Global,
    sink: &FlowSink,
    v: &Val,
    w: Word,
    out: &mut Seq<Inclusion>,
) -> Result<(), AllocError>
    ensures { OnOk result
        (shown out.new ≡ shown out.old
        ++ flows (extended v.now w) (sink_of sink.now)
        ∷ applies v.now w (sink_of sink.now) ∷ []) }
{
    add(
        out,
        Source::Extended(copy_val(alloc, v)?, w),
        copy_sink(alloc, sink)?,
    )?;
    out.push(Inclusion::Applies(copy_val(alloc, v)?, w, copy_sink(alloc, sink)?))
}

fn call_flows(
    alloc: Global,
    g: &Grin,
    sink: &FlowSink,
    f: ProcId,
    words: &[Word],
    out: &mut Seq<Inclusion>,
) -> Result<(), AllocError>
    ensures { OnOk result
        (shown out.new ≡ shown out.old
        ++ flows (value (Vector words.now)) (to (params_of (tables (program_of g.now)) f.0))
        ∷ flows (held (result' f.0)) (sink_of sink.now) ∷ []) }
{
    let params = params_of(alloc, g, f)?;
    let args = Seq::from_slice(alloc, words)?;
    add(out, Source::Value(Val::Vector(args)), FlowSink::To(params))?;
    add(out, Source::Result(f), copy_sink(alloc, sink)?)
}

#[cycle(flows)]
fn alts_flow<'a>(
    alloc: Global,
    g: &Grin,
    evals: bool,
    sink: &FlowSink,
    v: &'a Val,
    alts: &'a [Alt],
    out: &mut Seq<Inclusion<'a>>,
) -> Result<(), AllocError>
    requires { evals ≡ has_eval (program_of g.now) }
    ensures { OnOk result
        (shown out.new ≡ shown out.old
        ++ arms_flow (program_of g.now) (sink_of sink.now) v.now
        (arms_of (map arm_of alts.now))) }
{
    for alt in alts {
        shape_flows(alloc, v, &alt.pattern, out)?;
        block_flows(alloc, g, evals, sink, &alt.body, out)?;
    }
    Ok(())
}

#[cycle(flows)]
#[tactic(auto, using(grin_syntax::proofs::TreeOf::tree_of), unfolding(crate::specs::System::act_flows))]
fn stmt_flows<'a>(
    alloc: Global,
    g: &Grin,
    evals: bool,
    sink: &FlowSink,
    stmt: &'a Stmt,
    out: &mut Seq<Inclusion<'a>>,
) -> Result<(), AllocError>
    requires { evals ≡ has_eval (program_of g.now) }
    ensures { OnOk result
        ((c : Code) → shown out.old
        ++ code_flows (program_of g.now) (sink_of sink.now) (before_of stmt.now c)
        ≡ shown out.new
        ++ code_flows (program_of g.now) (sink_of sink.now) c) }
{
    match stmt {
        Stmt::Store(cells) => {
            cells_flow(alloc, g, evals, cells.as_slice(), out)?;
            Ok(())
        }
        Stmt::Bind(target, op) => {
            bind_flows(alloc, g, evals, target, op, out)?;
            Ok(())
        }
    }
}

#[cycle(flows)]
fn bind_flows<'a>(
    alloc: Global,
    g: &Grin,
    evals: bool,
    target: &Target,
    op: &'a Op,
    out: &mut Seq<Inclusion<'a>>,
) -> Result<(), AllocError>
    requires { evals ≡ has_eval (program_of g.now) }
    ensures { OnOk result
        (shown out.new ≡ shown out.old
        ++ act_flows (program_of g.now) (to target.now) (act_of op.now)) }
{
    let bound = FlowSink::To(copy_target(alloc, target)?);
    op_flows(alloc, g, evals, &bound, op, out)
}

#[cycle(flows)]
fn block_flows<'a>(
    alloc: Global,
    g: &Grin,
    evals: bool,
    sink: &FlowSink,
    block: &'a Block,
    out: &mut Seq<Inclusion<'a>>,
) -> Result<(), AllocError>
    requires { evals ≡ has_eval (program_of g.now) }
    ensures { OnOk result
        (shown out.new ≡ shown out.old
        ++ code_flows (program_of g.now) (sink_of sink.now) (code_of block.now)) }
{
    for stmt in block.stmts.as_slice() {
        stmt_flows(alloc, g, evals, sink, stmt, out)?;
    }
    op_flows(alloc, g, evals, sink, &block.last, out)?;
    Ok(())
}

fn globals_flow(
    alloc: Global,
    g: &Grin,
    evals: bool,
    out: &mut Seq<Inclusion>,
) -> Result<(), AllocError>
    requires { evals ≡ has_eval (program_of g.now) }
    ensures { OnOk result
        (shown out.new ≡ shown out.old ++ globals_flow (program_of g.now) g.now.globals) }
{
    let globals = g.globals.as_slice();
    for global in globals {
        let node = Val::Node(global.tag, Seq::new(alloc));
        site_flows(evals, global.site, node, out)?;
    }
    Ok(())
}

fn procs_flow<'a>(
    alloc: Global,
    g: &Grin,
    evals: bool,
    procs: &'a [Proc],
    out: &mut Seq<Inclusion<'a>>,
) -> Result<(), AllocError>
    requires { evals ≡ has_eval (program_of g.now) }
    ensures { OnOk result
        (shown out.new ≡ shown out.old
        ++ procs_flow (program_of g.now) 0 (map procedure_of procs.now)) }
{
    let mut f: u32 = 0;
    for proc in procs {
        block_flows(
            alloc,
            g,
            evals,
            &FlowSink::Result(ProcId(f)),
            &proc.body,
            out,
        )?;
        f = f.checked_add(1).ok_or(AllocError)?;
    }
    Ok(())
}

fn start_flows(alloc: Global, g: &Grin, out: &mut Seq<Inclusion>) -> Result<(), AllocError>
    ensures { OnOk result
        (shown out.new ≡ shown out.old ++ start_flows (program_of g.now) g.now.argument) }
{
    match g.argument {
        None => add_none(out),
        Some(i) => {
            let params = params_of(alloc, g, g.start)?;
            let mut args = Seq::new(alloc);
            args.push(Word::Global(i))?;
            add(out, Source::Value(Val::Vector(args)), FlowSink::To(params))
        }
    }
}

fn copied_params(alloc: Global, g: &Grin) -> Result<Seq<Seq<VarId>>, AllocError>
    ensures { IfOk result (λ params. params ≡ map (λ q. q.params) g.now.procs) }
{
    let mut params = Seq::new(alloc);
    for proc in g.procs.as_slice() {
        params.push(proc.params.copied(alloc)?)?;
    }
    Ok(params)
}

/// The flow system of a program: what its inclusions refer to, the inclusions of all its
/// statements, reachable or not, in the order of the text, and which of them read which sets. Its
/// length is that of the text. Running out of procedure numbers counts as want of memory.
pub fn system(alloc: Global, g: &Grin) -> Result<FlowSystem<'_>, AllocError>
    ensures tables { IfOk result (λ s. tables_of s ≡ tables (program_of g.now)) }
    ensures inclusions { IfOk result (λ s. inclusions_of s ≡ system (program_of g.now)) }
{
    let evals = has_eval(g);
    let mut inclusions = Seq::new(alloc);
    start_flows(alloc, g, &mut inclusions)?;
    globals_flow(alloc, g, evals, &mut inclusions)?;
    procs_flow(alloc, g, evals, g.procs.as_slice(), &mut inclusions)?;
    let listed = inclusions.as_slice();
    let places = all_named_sets(alloc, listed)?;
    let sets = numbered(alloc, places.as_slice())?;
    let rows = rows(alloc, &sets, listed)?;
    Ok(FlowSystem {
        tags: &g.tags,
        globals: &g.globals,
        params: copied_params(alloc, g)?,
        inclusions,
        starts: partial_tag_starts(alloc, g.tags.as_slice(), g.procs.len())?,
        sets,
        rows: Seq::from_vec(rows),
    })
}
