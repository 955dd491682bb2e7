//! Texts of modules as one program.

ghost use Rattle.std.specs.Prelude.{OnOk, IfOk, IfErr};
ghost use Rattle.core_reader.specs.Readable.{IsReadable};
ghost use Rattle.core_reader.specs.Tree.{program};
ghost use Rattle.core_link.specs.Rules.{IsUnbroken, IsCause};
ghost use Rattle.core_link.specs.Union.{IsLinked};

use crate::join::join;
use crate::refusal::LinkRefusal;
use crate::refuse::read_modules;
use crate::texts::Texts;
use core_reader::Core;
use std::alloc::Global;

/// The program that the modules of the texts are together: the declarations of all of them, in the
/// order of the bytes of the modules' names. `main` of `Main` keeps its name, every other function
/// `f` of a module `N` is `f'N`, and a local `x` other than `_` is `x'`; constructors and
/// primitives keep their names.
///
/// The answer is `Ok` exactly where the texts break no rule, and else the rule that comes first.
/// Want of memory may come in place of each answer.
pub fn link(alloc: Global, texts: &Texts) -> Result<Core, LinkRefusal>
    ensures linked { IfOk result (λ core. IsLinked texts.now (program core)) }
    ensures unbroken { OnOk result (IsUnbroken texts.now) }
    ensures readable { IfOk result (λ core. IsReadable (program core)) }
    ensures refused { IfErr result (IsCause texts.now) }
{
    let modules = read_modules(alloc, texts)?;
    Ok(join(alloc, modules)?)
}
