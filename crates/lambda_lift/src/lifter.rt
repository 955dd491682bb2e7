//! Lambda lifting of a text.

ghost use Rattle.std.specs.Prelude.{◌≡◌, ◌++◌, ℕ, codes, decimal, All, OnOk, IfOk, IfErr};
ghost use Rattle.core_reader.specs.Tree.{program as core_tree};
ghost use Rattle.core_reader.specs.Different.{AreDistinct};
ghost use Rattle.core_reader.specs.Readable.{IsReadable};
ghost use Rattle.lambda_reader.specs.Code.{program as tree_of};
ghost use Rattle.lambda_reader.specs.Tree.{Program as tree};
ghost use Rattle.lambda_reader.specs.Programs.{IsSourceText};
ghost use Rattle.lambda_reader.specs.Readable.{IsReadable as IsReadableTree};
ghost use Rattle.lambda_lift.specs.Lifted.{lifted, lifted_names, IsNotLifted, HasNoLiftedName};
ghost use Rattle.lambda_lift.specs.Rules.{IsTooBroad, IsUnbroken};
ghost use Rattle.lambda_lift.specs.Refusal.{IsCause, IsTreeCause};
ghost use Rattle.lambda_lift.specs.Choosing.{earliest_refusal, program_of_parts};

use crate::lifted::bodies;
use crate::refusal::LiftRefusal;
use crate::rules::first_over_parameter_limit;
use crate::words::Words;
use core_reader::{Core, Data, Names};
use itoa::Buffer;
use lambda_reader::{Function, Program, read_lambdas};
use seq::Seq;
use std::alloc::{AllocError, Global};

/// Which of the rules 61 and 62 is broken first, by the first places where they are broken.
fn earliest_refusal(too_broad: Option<u32>, reserved: Option<u32>) -> Option<LiftRefusal>
    ensures { result ≡ earliest_refusal too_broad reserved }
{
    match too_broad {
        None => match reserved {
            None => None,
            Some(at) => Some(LiftRefusal::ReservedLift(at)),
        },
        Some(place) => match reserved {
            None => Some(LiftRefusal::TooManyParameters(place)),
            Some(at) => Some(if at < place {
                LiftRefusal::ReservedLift(at)
            } else {
                LiftRefusal::TooManyParameters(place)
            }),
        },
    }
}

/// The name of the lifted function of this number.
fn name_text(alloc: Global, number: u32) -> Result<Seq<u8>, AllocError>
    ensures { IfOk result (λ text. text ≡ codes "lift'" ++ decimal number) }
{
    let mut buffer = Buffer::new();
    let mut text = Vec::from_slice(alloc, b"lift'")?;
    text.extend_from_slice(buffer.format(number).as_bytes())?;
    Ok(Seq::from_vec(text))
}

/// Names with those of so many lifted functions behind them.
fn with_lifted(alloc: Global, names: Names, count: usize) -> Result<Names, AllocError>
    requires different { AreDistinct names }
    requires free { All (IsNotLifted count) names }
    ensures { IfOk result (λ all. all ≡ names ++ lifted_names 0 count) }
{
    let Ok(count) = u32::try_from(count) else {
        return Err(AllocError);
    };
    let mut entries = names.into_vec();
    for number in 0..count {
        entries.push(name_text(alloc, number)?)?;
    }
    Ok(Names::from_vec(entries))
}

/// The lifted program of a tree.
fn lifted(
    alloc: Global,
    words: Words,
    constructors: Seq<Data>,
    functions: Seq<Function>,
) -> Result<Core, AllocError>
    requires different { AreDistinct words }
    requires free { HasNoLiftedName (program_of_parts words constructors functions) }
    ensures { IfOk result (λ core. core_tree core ≡ lifted (program_of_parts words constructors functions)) }
{
    let mut made = Seq::new(alloc);
    let mut all = bodies(alloc, &words, &mut made, functions)?;
    let count = made.len();
    all.append(made)?;
    let names = with_lifted(alloc, words.into_names(), count)?;
    Ok(Core {
        names,
        constructors,
        functions: all,
    })
}

/// The program of Core in which each lambda and each local function of a readable tree is a function
/// of its own, where none of the tree's names is one of the new ones; or the first place of rule 61.
/// Want of memory may come in place of each answer.
pub fn lift_program(alloc: Global, program: Program) -> Result<Core, LiftRefusal>
    requires readable { IsReadableTree (tree_of program) }
    requires free { HasNoLiftedName (tree_of program) }
    ensures lifted { IfOk result (λ core. core_tree core ≡ lifted (tree_of program)) }
    ensures unbroken { OnOk result ((at : ℕ) → IsTooBroad (tree_of program) at → ⊥) }
    ensures readable { IfOk result (λ core. IsReadable (core_tree core)) }
    ensures refused { IfErr result (IsTreeCause (tree_of program)) }
{
    let words = Words::new(alloc, program.names)?;
    let too_broad = first_over_parameter_limit(alloc, &words, program.functions.as_slice())?;
    match too_broad {
        Some(at) => Err(LiftRefusal::TooManyParameters(at)),
        None => {
            let core = lifted(alloc, words, program.constructors, program.functions)?;
            Ok(core)
        }
    }
}

/// The program of Core in which each lambda and each local function of a text is a function of its
/// own, or the first rule that the text breaks: of the rules 1 to 5, and where it breaks none of
/// these, of 61 and 62 by place, and at one place by number. Want of memory may come in place of
/// each answer.
pub fn lift(alloc: Global, text: &[u8]) -> Result<Core, LiftRefusal>
    ensures lifted { IfOk result (λ core. (c : tree) × IsSourceText text.now c × (core_tree core ≡ lifted c)) }
    ensures unbroken { OnOk result (IsUnbroken text.now) }
    ensures readable { IfOk result (λ core. IsReadable (core_tree core)) }
    ensures refused { IfErr result (IsCause text.now) }
{
    let found = read_lambdas(alloc, text)?;
    let program = found.program;
    let words = Words::new(alloc, program.names)?;
    let too_broad = first_over_parameter_limit(alloc, &words, program.functions.as_slice())?;
    match earliest_refusal(too_broad, found.reserved) {
        Some(refusal) => Err(refusal),
        None => {
            let core = lifted(alloc, words, program.constructors, program.functions)?;
            Ok(core)
        }
    }
}
