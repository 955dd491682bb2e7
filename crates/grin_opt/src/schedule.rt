// The schedule of the passes after the inlining.

ghost use Rattle.std.specs.Prelude.{◌≡◌, IfOk};
ghost use Rattle.grin_syntax.specs.Tree.{program_of};
ghost use Rattle.grin_meaning.specs.Keeps.{Keeps};
ghost use Rattle.grin_meaning.specs.Ready.{IsFetchedByWords};
ghost use Rattle.pass_ground.specs.Vectors.{IsVectorForm};
ghost use Rattle.case_simplify.specs.Simplified.{Simplified};
ghost use Rattle.copy_prop.specs.Copied.{Copied};
ghost use Rattle.stage_names.specs.declared.PassName.TheVariants as pass;
ghost use Rattle.grin_opt.specs.Several.{Composed, MadeByPasses, Tidied, LiteralsThenTidied, KnownWordsThenTidied, AfterKnownWords, AfterOwnCells, AfterDeadStores};
ghost use Rattle.grin_opt.specs.Schedule.{IsAfterInlining, IsFirstPassInput, IsOfStage, IsPassInput, before, IsPassResult, IsOptimised};

use arity_raise::Raise;
use case_simplify::{Simplify, with_fewer_cases};
use copy_prop::{Copies, with_copies_unused, without_idle};
use dead_store::{without_dead_stores, without_unread_updates};
use fetch_passes::Fetches;
use grin_meaning::Pass;
use grin_syntax::Grin;
use least_flow::least;
use pass_cells::Remember;
use pass_flat::Flatten;
use pass_known::{KnownWords, ToldWords};
use pass_narrow::without_unread_words;
use pass_order::ValuesFirst;
use stage_names::PassName;
use std::alloc::{AllocError, Global};
use unbox::{Unbox, with_unboxed_numbers_by};
use update_special::{Updates, with_literal_tags_by};
use vectorise::Vectorise;

// The passes `Updates` and `Unbox`, one after the other. Both ask one solution: the least one is
// that of the program with its updates as cases too.
fn updated_and_unboxed(alloc: Global, g: Grin) -> Result<Grin, AllocError>
    requires { IsVectorForm (program_of g) × IsFetchedByWords (program_of g) }
    ensures { IfOk result (λ h. Composed (IsPassResult pass.Update) (IsPassResult pass.Unbox)
        (program_of g) (program_of h)) }
{
    let flow = least(alloc, &g)?;
    let updated = with_literal_tags_by(alloc, g, &flow)?;
    with_unboxed_numbers_by(alloc, updated, &flow)
}

// The pass `Simplify`, by which no update loses its literal tag.
fn simplified(alloc: Global, g: Grin) -> Result<Grin, AllocError>
    requires { IsVectorForm (program_of g) }
    ensures shape { IfOk result (λ h. MadeByPasses Simplified (program_of g) (program_of h)) }
    ensures meaning { IfOk result (λ h. Keeps (program_of g) (program_of h)) }
{
    with_fewer_cases(alloc, g)
}

// The pass `Copies`, by which no update loses its literal tag.
fn copied(alloc: Global, g: Grin) -> Result<Grin, AllocError>
    requires { IsVectorForm (program_of g) }
    ensures shape { IfOk result (λ h. MadeByPasses Copied (program_of g) (program_of h)) }
    ensures meaning { IfOk result (λ h. Keeps (program_of g) (program_of h)) }
{
    let h = with_copies_unused(alloc, g)?;
    without_idle(alloc, h)
}

// Cases that are settled go, nested blocks give way to their statements, and copies go.
fn tidied(alloc: Global, g: Grin) -> Result<Grin, AllocError>
    requires { IsVectorForm (program_of g) }
    ensures shape { IfOk result (λ h. MadeByPasses Tidied (program_of g) (program_of h)) }
    ensures meaning { IfOk result (λ h. Keeps (program_of g) (program_of h)) }
{
    let simple = simplified(alloc, g)?;
    let flat = Flatten.apply(alloc, simple)?;
    copied(alloc, flat)
}

// Literals for the words that alternatives tell, and then what they settle.
fn told(alloc: Global, g: Grin) -> Result<Grin, AllocError>
    requires { IsVectorForm (program_of g) }
    ensures shape { IfOk result (λ h. MadeByPasses LiteralsThenTidied (program_of g) (program_of h)) }
    ensures meaning { IfOk result (λ h. Keeps (program_of g) (program_of h)) }
{
    let told = ToldWords.apply(alloc, g)?;
    tidied(alloc, told)
}

// The same for the words that are known by the least solution too.
fn settled(alloc: Global, g: Grin) -> Result<Grin, AllocError>
    requires { IsVectorForm (program_of g) }
    ensures shape { IfOk result (λ h. MadeByPasses KnownWordsThenTidied (program_of g) (program_of h)) }
    ensures meaning { IfOk result (λ h. Keeps (program_of g) (program_of h)) }
{
    let known = KnownWords.apply(alloc, g)?;
    tidied(alloc, known)
}

// First without a solution: of a program in which those literals stand it says more.
fn with_literals(alloc: Global, g: Grin) -> Result<Grin, AllocError>
    requires { IsVectorForm (program_of g) }
    ensures shape { IfOk result (λ h. AfterKnownWords (program_of g) (program_of h)) }
    ensures meaning { IfOk result (λ h. Keeps (program_of g) (program_of h)) }
{
    let once = told(alloc, g)?;
    settled(alloc, once)
}

// No fetches of words of own cells that are known, then what these settle, and then each case tests
// for values first.
fn without_own_fetches(alloc: Global, g: Grin) -> Result<Grin, AllocError>
    requires { IsVectorForm (program_of g) }
    ensures shape { IfOk result (λ h. AfterOwnCells (program_of g) (program_of h)) }
    ensures meaning { IfOk result (λ h. Keeps (program_of g) (program_of h)) }
{
    let remembered = Remember.apply(alloc, g)?;
    let tidy = tidied(alloc, remembered)?;
    let made = ValuesFirst.apply(alloc, tidy)?;
    Ok(made)
}

// Words that nobody reads go, then updates of cells that no fetch reads, then cells that nothing
// reads, and then copies. All ask one solution: what solves the flow system with those words and
// updates solves it without them.
fn without_unread(alloc: Global, g: Grin) -> Result<Grin, AllocError>
    requires { IsVectorForm (program_of g) × IsFetchedByWords (program_of g) }
    ensures shape { IfOk result (λ h. AfterDeadStores (program_of g) (program_of h)) }
    ensures meaning { IfOk result (λ h. Keeps (program_of g) (program_of h)) }
{
    let flow = least(alloc, &g)?;
    let narrow = without_unread_words(alloc, g, &flow)?;
    let read = without_unread_updates(alloc, narrow, &flow)?;
    let stored = without_dead_stores(alloc, read, &flow)?;
    let made = copied(alloc, stored)?;
    Ok(made)
}

/// The program after one pass. `AllocError` where memory is wanting.
pub fn after_pass(alloc: Global, pass: PassName, g: Grin) -> Result<Grin, AllocError>
    requires { IsPassInput pass (program_of g) }
    ensures made { IfOk result (λ h. IsPassResult pass (program_of g) (program_of h)) }
    ensures stage { IfOk result (λ h. IsOfStage pass (program_of h)) }
{
    match pass {
        PassName::Translate | PassName::Eval | PassName::Apply => unreachable!(),
        PassName::Vectorise => Vectorise.apply(alloc, g),
        PassName::Simplify => Simplify.apply(alloc, g),
        PassName::Fetch => Fetches.apply(alloc, g),
        PassName::Copy => Copies.apply(alloc, g),
        PassName::Update => Updates.apply(alloc, g),
        PassName::Unbox => Unbox.apply(alloc, g),
        PassName::Raise => Raise.apply(alloc, g),
        PassName::Flat => Flatten.apply(alloc, g),
        PassName::Known => with_literals(alloc, g),
        PassName::Cells => without_own_fetches(alloc, g),
        PassName::Dead => without_unread(alloc, g),
    }
}

// The stage before, of which a pass takes the programs.
fn stage_before(pass: PassName) -> PassName
    ensures { result ≡ before pass }
{
    match pass {
        PassName::Translate | PassName::Eval | PassName::Apply => pass,
        PassName::Vectorise => PassName::Apply,
        PassName::Simplify => PassName::Vectorise,
        PassName::Fetch => PassName::Simplify,
        PassName::Copy => PassName::Fetch,
        PassName::Update => PassName::Copy,
        PassName::Unbox => PassName::Update,
        PassName::Raise => PassName::Unbox,
        PassName::Flat => PassName::Raise,
        PassName::Known => PassName::Flat,
        PassName::Cells => PassName::Known,
        PassName::Dead => PassName::Cells,
    }
}

/// The program after the passes after the inlining, up to and with `upto`. `AllocError` where
/// memory is wanting.
pub fn optimise(alloc: Global, g: Grin, upto: PassName) -> Result<Grin, AllocError>
    requires taken { IsFirstPassInput (program_of g) }
    requires after { IsAfterInlining upto }
    ensures { IfOk result (λ h. IsOptimised (program_of g) upto (program_of h)) }
{
    if upto == PassName::Apply {
        return Ok(g);
    }
    if upto == PassName::Unbox {
        let copied = optimise(alloc, g, PassName::Copy)?;
        return updated_and_unboxed(alloc, copied);
    }
    let given = optimise(alloc, g, stage_before(upto))?;
    after_pass(alloc, upto, given)
}
