// Programs.

ghost use Rattle.std.specs.Prelude.{◌≡◌, ◌≤◌, ◌+◌, map, length, IfOk};
ghost use Rattle.grin_syntax.specs.Formed.{AllOf};
ghost use Rattle.grin_syntax.specs.Fresh.{past_procs};
ghost use Rattle.grin_syntax.specs.Tree.{procedure_of, program_of};
ghost use Rattle.grin_meaning.specs.Ready.{most_fields, most_value_fields};
ghost use Rattle.low_code.specs.Tree as low;
ghost use Rattle.low_translate.specs.Translation.{program_code};
ghost use Rattle.low_translate.specs.Writes.{written_width};
ghost use Rattle.low_translate.specs.Lowered.{CodeEnds, CodeRanged, IsLowered};

use crate::blocks::LoweringPlan;
use crate::fresh::Numbers;
use crate::results::results;
use crate::writes::most_written;
use grin_syntax::fresh::Fresh;
use grin_syntax::{GlobalCell, Grin, Tag};
use low_code::Low;
use node_sizes::{most_fields, most_value_fields};
use seq::Seq;
use std::alloc::{AllocError, Global};

// The tags of global cells.
fn global_tags(alloc: Global, globals: &[GlobalCell]) -> Result<Seq<u32>, AllocError>
    ensures { IfOk result (λ tags. tags ≡ map (λ c. c.tag.0) globals.now) }
{
    let mut made = Seq::new(alloc);
    for global in globals {
        made.push(global.tag.0)?;
    }
    Ok(made)
}

/// How many tags there are. They are numbers of 32 bits: more tags than such numbers count as want
/// of memory.
pub(crate) fn count_tags(tags: &[Tag]) -> Result<u32, AllocError>
    ensures { IfOk result (λ count. count ≡ length tags.now) }
{
    let Ok(count) = u32::try_from(tags.len()) else {
        return Err(AllocError);
    };
    Ok(count)
}

// How many words of its cells a program writes.
fn words_written(g: &Grin) -> u32
    requires { most_fields g.now.tags ≤ 13 }
    ensures { result ≡ written_width (program_of g.now) }
{
    let most = most_fields(g.tags.as_slice()) as usize;
    most_written(g.tags.as_slice(), g.procs.as_slice()).min(most) as u32 + 1
}

/// The low code of a program whose procedures give so many words.
pub(crate) fn with_results(alloc: Global, g: &Grin, results: &[u32]) -> Result<Low, AllocError>
    requires few_fields { most_fields g.now.tags ≤ 13 }
    requires many { length results.now ≡ length g.now.procs }
    ensures is { IfOk result (λ l. low.program_of l
        ≡ program_code (1 + most_fields g.now.tags) (written_width (program_of g.now)) results.now
        (past_procs (map procedure_of g.now.procs)) (program_of g.now)) }
    ensures ranged { IfOk result (λ l.
        AllOf (λ q. CodeRanged q.body) (map procedure_of g.now.procs)) }
{
    let width = most_fields(g.tags.as_slice()) + 1;
    let words = words_written(g);
    let plan = LoweringPlan {
        width: words,
        results,
    };
    let next = Fresh::past(g.procs.as_slice()).next;
    let mut numbers = Numbers { next };
    let globals = global_tags(alloc, g.globals.as_slice())?;
    let mut procs = Seq::new(alloc);
    for (f, proc) in g.procs.as_slice().iter().enumerate() {
        procs.push(plan.procedure(alloc, proc, results[f], &mut numbers)?)?;
    }
    Ok(Low {
        procs,
        start: g.start.0,
        argument: g.argument,
        globals,
        width,
    })
}

/// The low code of a program.
pub(crate) fn translated(alloc: Global, g: &Grin) -> Result<Low, AllocError>
    requires few_fields { most_fields g.now.tags ≤ 13 }
    requires ends { AllOf (λ q.
        CodeEnds (length g.now.procs) (1 + most_value_fields g.now.tags) 13 q.body)
        (map procedure_of g.now.procs) }
    ensures { IfOk result (λ l. IsLowered (program_of g.now) (low.program_of l)) }
{
    let tags = g.tags.as_slice();
    let _count = count_tags(tags)?;
    let node = most_value_fields(tags) as usize + 1;
    let results = results(alloc, node, g.procs.as_slice())?;
    let low = with_results(alloc, g, results.as_slice())?;
    Ok(low)
}
