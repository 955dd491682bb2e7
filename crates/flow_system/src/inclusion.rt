// Flow systems, as data.

ghost use Rattle.std.specs.Prelude.{◌≡◌, IfOk};
ghost use Rattle.flow_system.specs.Written.{shown};
ghost use Rattle.flow_system.specs.Rows.{IsReaderIndex};
ghost use Rattle.flow_system.specs.Starts.{NoPartTagBeforeStart};

use crate::sets::Sets;
use grin_syntax::copies::copy_target;
use grin_syntax::program::{GlobalCell, ProcId, Site, Tag, TagId, Target, Val, VarId, Word};
use seq::Seq;
use std::alloc::{AllocError, Global};

/// What flows: a value; a cell of a site; some number; the result of a procedure; the nodes in the
/// cells that a word may stand for, a word of them (0 is the tag), or the evaluated ones among
/// them; a function that waits for at least two arguments, with one argument more; the fields of a
/// tag among the nodes that a value may be.
#[derive(Drop)]
pub enum Source<'a> {
    Value(Val),
    ACell(Site),
    ANumber,
    Result(ProcId),
    NodesAt(Word),
    WordAt(Word, u32),
    EvaluatedAt(Word),
    Extended(Val, Word),
    FieldsOf(&'a Val, TagId),
}

/// Where it flows to: the variables of a target, the result of a procedure, the cells of a site, or
/// the cells that a word may stand for.
#[derive(Drop)]
pub enum FlowSink {
    To(Target),
    Result(ProcId),
    Site(Site),
    CellsAt(Word),
}

/// What an inclusion says: that a source flows to a sink; that the delayed calls in the cells of a
/// site are evaluated, there; that the functions a value may be, waiting for one argument, are
/// called with this one, and their results flow to a sink.
#[derive(Drop)]
pub enum Inclusion<'a> {
    Flows(Source<'a>, FlowSink),
    Forces(Site),
    Applies(Val, Word, FlowSink),
}

/// The flow system of a program: its tags, its global cells and the parameters of its procedures,
/// to which the inclusions refer, and the inclusions, numbered from 0 in their order. `system`
/// makes it, with the sets that the inclusions name, the readers of each set, and where the tags
/// begin of each procedure that lacks arguments. Tags, global cells and the values that cases look
/// at are the program's own.
#[derive(Drop)]
pub struct FlowSystem<'a> {
    pub tags: &'a Seq<Tag>,
    pub globals: &'a Seq<GlobalCell>,
    pub params: Seq<Seq<VarId>>,
    pub inclusions: Seq<Inclusion<'a>>,
    pub(crate) starts: Vec<usize>,
    pub(crate) sets: Sets,
    pub(crate) rows: Seq<Seq<u32>>,
    ghost begin: { NoPartTagBeforeStart tags.now starts.items 0 },
    ghost indexed: { IsReaderIndex (shown inclusions) sets rows },
}

/// The same sink again.
pub fn copy_sink(alloc: Global, sink: &FlowSink) -> Result<FlowSink, AllocError>
    ensures { IfOk result (λ c. c ≡ sink.now) }
{
    match sink {
        FlowSink::To(target) => Ok(FlowSink::To(copy_target(alloc, target)?)),
        FlowSink::Result(f) => Ok(FlowSink::Result(*f)),
        FlowSink::Site(s) => Ok(FlowSink::Site(*s)),
        FlowSink::CellsAt(w) => Ok(FlowSink::CellsAt(*w)),
    }
}
