// What the values in cells refer to.

ghost use Rattle.std.specs.Prelude.{◌≡◌, IfOk};
ghost use Rattle.std.specs.Option.{option_copied};
ghost use Rattle.flow_system.specs.Shown.{tables_of, inclusions_of};
ghost use Rattle.flow_system.specs.Written.{source_of, inclusion_of, shown};
ghost use Rattle.flow_system.specs.Tables.{fields_of};
ghost use Rattle.points_to.specs.Stored.{source_value, value_in, value_at, values_in, tables_in};

use flow_system::inclusion::{FlowSystem, Inclusion, Source};
use grin_syntax::copies::{copy_globals, copy_tags, copy_val};
use grin_syntax::program::{GlobalCell, Tag, Val, VarId};
use seq::Seq;
use std::alloc::{AllocError, Global};

/// The tags, the global cells and the parameters of a program, and the value of each inclusion.
#[derive(Drop)]
pub struct ProgramTables {
    tags: Seq<Tag>,
    pub(crate) globals: Seq<GlobalCell>,
    params: Seq<Seq<VarId>>,
    values: Seq<Option<Val>>,
}

impl ProgramTables {
    /// Of no program.
    pub fn none(alloc: Global) -> ProgramTables {
        ProgramTables {
            tags: Seq::new(alloc),
            globals: Seq::new(alloc),
            params: Seq::new(alloc),
            values: Seq::new(alloc),
        }
    }

    /// Of the program of a system.
    pub fn of(alloc: Global, system: &FlowSystem) -> Result<ProgramTables, AllocError>
        ensures tables { IfOk result (λ o. tables_in o ≡ tables_of system.now) }
        ensures values { IfOk result (λ o. o.values ≡ values_in (inclusions_of system.now)) }
    {
        let tags = copy_tags(alloc, system.tags.as_slice())?;
        let globals = copy_globals(alloc, system.globals.as_slice())?;
        let params = copy_params(alloc, system.params.as_slice())?;
        let values = copy_values(alloc, system.inclusions.as_slice())?;
        Ok(ProgramTables {
            tags,
            globals,
            params,
            values,
        })
    }

    /// The number of fields of a tag.
    pub fn fields_of(&self, t: u32) -> Option<u32>
        ensures { result ≡ fields_of (tables_in self.now) t }
    {
        match self.tags.get(t as usize) {
            Some(tag) => Some(tag.fields),
            None => None,
        }
    }

    /// The value with a number.
    pub fn value(&self, n: usize) -> Option<&Val>
        ensures { option_copied result ≡ value_at self.now.values n }
    {
        match self.values.get(n) {
            Some(value) => match value {
                Some(v) => Some(v),
                None => None,
            },
            None => None,
        }
    }
}

fn copy_params(alloc: Global, params: &[Seq<VarId>]) -> Result<Seq<Seq<VarId>>, AllocError>
    ensures { IfOk result (λ c. c ≡ params.now) }
{
    let mut made = Seq::new(alloc);
    for xs in params {
        made.push(xs.copied(alloc)?)?;
    }
    Ok(made)
}

/// The value of an inclusion.
pub fn value_in<'a>(inclusion: &'a Inclusion<'_>) -> Option<&'a Val>
    ensures { option_copied result ≡ value_in (inclusion_of inclusion.now) }
{
    match inclusion {
        Inclusion::Flows(source, _) => source_value(source),
        Inclusion::Forces(_) => None,
        Inclusion::Applies(_, _, _) => None,
    }
}

fn source_value<'a>(source: &'a Source<'_>) -> Option<&'a Val>
    ensures { option_copied result ≡ source_value (source_of source.now) }
{
    match source {
        Source::Value(v) => Some(v),
        Source::ACell(_) => None,
        Source::ANumber => None,
        Source::Result(_) => None,
        Source::NodesAt(_) => None,
        Source::WordAt(_, _) => None,
        Source::EvaluatedAt(_) => None,
        Source::Extended(_, _) => None,
        Source::FieldsOf(_, _) => None,
    }
}

fn copy_value(alloc: Global, inclusion: &Inclusion) -> Result<Option<Val>, AllocError>
    ensures { IfOk result (λ v. v ≡ value_in (inclusion_of inclusion.now)) }
{
    match value_in(inclusion) {
        Some(v) => Ok(Some(copy_val(alloc, v)?)),
        None => Ok(None),
    }
}

fn copy_values(alloc: Global, inclusions: &[Inclusion]) -> Result<Seq<Option<Val>>, AllocError>
    ensures { IfOk result (λ c. c ≡ values_in (shown inclusions.now)) }
{
    let mut made = Seq::new(alloc);
    for inclusion in inclusions {
        made.push(copy_value(alloc, inclusion)?)?;
    }
    Ok(made)
}
