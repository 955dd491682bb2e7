// The image of a program, of which no stage is kept.

ghost use Rattle.std.specs.Prelude.{◌≡◌, ℕ, IfOk, IfErr};
ghost use Rattle.arity_check.specs.Accepted.{IsValid};
ghost use Rattle.arity_check.specs.Program as core;
ghost use Rattle.arity_check.specs.Program.{program};
ghost use Rattle.grin_stages.specs.Stage.{Fits, ExceedsSizeLimit};
ghost use Rattle.grin_compile.specs.Limits.{SizesAreInRange, whole_words};
ghost use Rattle.grin_compile.specs.Compilation.{IsCompilation};
ghost use Rattle.grin_compile.specs.Built.{IsBuilt};

use crate::compilation::{Compiled, Options, compile};
use crate::later::LAST_PASS;
use crate::layers::image_below;
use arity_check::normal::Checked;
use grin_measure::{is_slim, sizes_of};
use grin_opt::{PassName, optimise};
use grin_stages::laws::expanded_size_is_unique;
use grin_stages::{CompileRefusal, stage};
use grin_translate::translation_refines;
use seq::Text;
use std::alloc::Global;
use vectorised_form::vectorise_takes_inlined;

/// An image and what else is asked of it: the words of its code, its bytes, the words of a cell,
/// and of each procedure the address at which it starts, the name, and the words of its frame.
#[derive(Drop)]
pub struct Built {
    /// The words of the code.
    pub code: Vec<u32>,
    /// The bytes of the image.
    pub image: Vec<u8>,
    /// How many words a cell has.
    pub width: u32,
    /// The addresses at which the procedures start.
    pub starts: Vec<u32>,
    /// The names of the procedures.
    pub names: Vec<Text>,
    /// How many words the frames of the procedures have.
    pub frames: Vec<u32>,
}

/// What of a compiled program an image is made of. All else of it is dropped here and nowhere else,
/// since the proof of a place where all its stages are dropped goes over each part of them.
fn kept(compiled: Compiled) -> Built
    ensures { (p : core.Program) (cells stack : ℕ) → IsCompilation p cells stack compiled
        → IsBuilt p cells stack result }
{
    Built {
        code: compiled.code,
        image: compiled.image,
        width: compiled.low.width,
        starts: compiled.starts,
        names: compiled.names,
        frames: compiled.frames,
    }
}

/// The image of the last stage that is slim, whichever it is.
fn build_of_slim(alloc: Global, p: &Checked, options: Options) -> Result<Built, CompileRefusal>
    requires valid { IsValid (program p.now) }
    requires range { SizesAreInRange options.cells options.stack }
    ensures built { IfOk result (IsBuilt (program p.now) options.cells (whole_words options.stack)) }
    ensures fits { IfOk result (λ b. Fits (program p.now)) }
    ensures refused { IfErr result (ExceedsSizeLimit (program p.now)) }
{
    let compiled = compile(alloc, p, options)?;
    Ok(kept(compiled))
}

/// The image of a program, as `compile` makes it: of the last stage, where that is slim, and only
/// where it isn't, the stages before it are kept until it is known which of them is. Refused as
/// there.
pub fn build(alloc: Global, p: &Checked, options: Options) -> Result<Built, CompileRefusal>
    requires valid { IsValid (program p.now) }
    requires range { SizesAreInRange options.cells options.stack }
    ensures built { IfOk result (IsBuilt (program p.now) options.cells (whole_words options.stack)) }
    ensures fits { IfOk result (λ b. Fits (program p.now)) }
    ensures refused { IfErr result (ExceedsSizeLimit (program p.now)) }
{
    // Laws: the translation does what the program means, vectorising takes what is inlined, and a
    // program has one size once it is inlined.
    translation_refines();
    vectorise_takes_inlined();
    expanded_size_is_unique();
    let applied = stage(alloc, p, PassName::Apply)?;
    let sizes = sizes_of(&applied);
    let last = optimise(alloc, applied, LAST_PASS)?;
    if !is_slim(&last, sizes) {
        return build_of_slim(alloc, p, options);
    }
    let lowered = image_below(alloc, &last, options)?;
    let layers = lowered.layers;
    Ok(Built {
        code: layers.code,
        image: lowered.image,
        width: layers.low.width,
        starts: layers.starts,
        names: layers.names,
        frames: layers.frames,
    })
}
