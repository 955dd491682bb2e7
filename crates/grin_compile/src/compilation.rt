// From a program to its image.

ghost use Rattle.std.specs.Prelude.{◌≡◌, IfOk, IfErr};
ghost use Rattle.arity_check.specs.Accepted.{IsValid};
ghost use Rattle.arity_check.specs.Program.{program};
ghost use Rattle.grin_syntax.specs.Tree.{program_of};
ghost use Rattle.low_code.specs.Tree as low;
ghost use Rattle.grin_stages.specs.Stage.{Fits, ExceedsSizeLimit};
ghost use Rattle.grin_compile.specs.Limits.{SizesAreInRange, whole_words};
ghost use Rattle.grin_compile.specs.Made.{Made};
ghost use Rattle.grin_compile.specs.Compilation.{after, IsCompilation};

use crate::later::place_after_inlining;
use crate::layers::image_below;
use crate::stages::{Stages, all_stages};
use arity_check::normal::Checked;
use grin_opt::PassName;
use grin_stages::CompileRefusal;
use grin_syntax::Grin;
use grin_translate::translation_refines;
use low_code::Low;
use register_alloc::Places;
use seq::Text;
use std::alloc::Global;

/// The size of an image's heap, in cells, and of its stack, in bytes, of which as many are used as
/// words fill.
#[derive(Clone, Copy, Debug, PartialEq, Eq)]
pub struct Options {
    pub cells: u32,
    pub stack: u32,
}

/// A compiled program: its stages, the low code of the last of them of which code is made, the
/// places of its variables, the words of the code, the address at which each procedure of that
/// stage starts, its name and the words of its frame, and the bytes of the image.
#[derive(Drop)]
pub struct Compiled {
    pub stages: Stages,
    pub low: Low,
    pub places: Places,
    pub code: Vec<u32>,
    pub starts: Vec<u32>,
    pub names: Vec<Text>,
    pub frames: Vec<u32>,
    pub image: Vec<u8>,
}

impl Compiled {
    /// The program after a stage.
    pub fn after(&self, pass: PassName) -> &Grin
        ensures { program_of result.now ≡ after self.now pass }
    {
        match pass {
            PassName::Translate => &self.stages.translated,
            PassName::Eval => &self.stages.evaluated,
            PassName::Apply => &self.stages.applied,
            _ => self.stages.later_stage(place_after_inlining(pass)),
        }
    }

    /// The low code of the stage of which the code is made.
    pub fn low(&self) -> &Low
        ensures { low.program_of result.now ≡ low.program_of self.now.low }
    {
        &self.low
    }

    /// The places of the variables of the low code.
    pub fn places(&self) -> &Places
        ensures { result.now ≡ self.now.places }
    {
        &self.places
    }

    /// The words of the code.
    pub fn code(&self) -> &[u32]
        ensures { result.now ≡ self.now.code.items }
    {
        self.code.as_slice()
    }

    /// The bytes of the image, an executable in the format ELF32.
    pub fn image(&self) -> &[u8]
        ensures { result.now ≡ self.now.image.items }
    {
        self.image.as_slice()
    }
}

/// Compiles a program. `ExpandedTooLarge` where it is over 131,072 in size once its evaluations and
/// applications are inlined, `Memory` where memory is wanting.
pub fn compile(alloc: Global, p: &Checked, options: Options) -> Result<Compiled, CompileRefusal>
    requires valid { IsValid (program p.now) }
    requires range { SizesAreInRange options.cells options.stack }
    ensures made { IfOk result (λ c.
        Made (program p.now) options.cells (whole_words options.stack) c.image.items) }
    ensures parts { IfOk result
        (IsCompilation (program p.now) options.cells (whole_words options.stack)) }
    ensures fits { IfOk result (λ c. Fits (program p.now)) }
    ensures refused { IfErr result (ExceedsSizeLimit (program p.now)) }
{
    // A law: the translation does what the program means.
    translation_refines();
    let stages = all_stages(alloc, p)?;
    let lowered = image_below(alloc, stages.later_stage(stages.last), options)?;
    let layers = lowered.layers;
    Ok(Compiled {
        stages,
        low: layers.low,
        places: layers.places,
        code: layers.code,
        starts: layers.starts,
        names: layers.names,
        frames: layers.frames,
        image: lowered.image,
    })
}
