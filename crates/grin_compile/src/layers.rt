// The layers below GRIN.

ghost use Rattle.std.specs.Prelude.{◌≡◌, ◌≤◌, length, map, IfOk};
ghost use Rattle.grin_syntax.specs.Tree.{program_of, procedure_of};
ghost use Rattle.grin_syntax.specs.SameOutside.{names_of};
ghost use Rattle.low_code.specs.Tree as low;
ghost use Rattle.grin_compile.specs.Lowerable.{IsLowerable};
ghost use Rattle.grin_compile.specs.Limits.{SizesAreInRange, whole_words};
ghost use Rattle.grin_compile.specs.Parts.{AreSizes, HasLayers, HasImage};
ghost use Rattle.limits.specs.Limits.{largest_program};

use crate::compilation::Options;
use elf32::write;
use grin_syntax::{Grin, Proc};
use low_code::Low;
use low_translate::lower;
use register_alloc::{Places, allocate};
use rv32_layout::place;
use rv32_select::{select, selection_refines};
use seq::{Seq, Text};
use std::alloc::{AllocError, Global};

/// Low code, the places of its variables, the words that are made of them, and of each procedure
/// the address at which its code starts, the name, and the words of its frame.
#[derive(Drop)]
pub struct Layers {
    pub low: Low,
    pub places: Places,
    pub code: Vec<u32>,
    pub starts: Vec<u32>,
    pub names: Vec<Text>,
    pub frames: Vec<u32>,
}

/// How many procedures there are.
fn procedures(program: &Low) -> u32
    requires { length (low.program_of program.now).procs ≤ largest_program }
    ensures { result ≡ length (low.program_of program.now).procs }
{
    program.procs.len() as u32
}

/// The names of the procedures.
fn names(alloc: Global, procs: &[Proc]) -> Result<Vec<Text>, AllocError>
    ensures { IfOk result (λ names. names.items ≡ names_of (map procedure_of procs.now)) }
{
    let mut names = Vec::with_capacity(alloc, procs.len())?;
    for proc in procs {
        names.push(Seq::from_slice(alloc, proc.name.as_slice())?)?;
    }
    Ok(names)
}

/// The words of the frame of each of so many procedures.
fn frames(alloc: Global, places: &Places, procs: u32) -> Result<Vec<u32>, AllocError>
    requires { length places.now.frames ≡ procs }
    ensures { IfOk result (λ frames. frames.items ≡ places.now.frames) }
{
    let mut frames = Vec::with_capacity(alloc, procs as usize)?;
    for proc in 0..procs {
        frames.push(places.frame_words(proc))?;
    }
    Ok(frames)
}

/// The layers below a program, for an image with so many cells and so many bytes of stack.
/// `AllocError` where memory is wanting.
pub fn layers_below(alloc: Global, g: &Grin, cells: u32, stack: u32) -> Result<Layers, AllocError>
    requires lowerable { IsLowerable (program_of g.now) }
    requires sizes { AreSizes cells stack }
    ensures { IfOk result (HasLayers (program_of g.now) cells stack) }
{
    // A law: selected items do what the low code does.
    selection_refines();
    let low = lower(alloc, g)?;
    let places = allocate(alloc, &low)?;
    let asm = select(alloc, &low, &places, cells, stack)?;
    let procs = procedures(&low);
    let placement = place(alloc, &asm, procs)?;
    let names = names(alloc, g.procs.as_slice())?;
    let frames = frames(alloc, &places, procs)?;
    Ok(Layers {
        low,
        places,
        code: placement.words,
        starts: placement.addresses,
        names,
        frames,
    })
}

/// The layers below a program, and the bytes of the image of the words that they come to.
#[derive(Drop)]
pub(crate) struct Lowered {
    pub(crate) layers: Layers,
    pub(crate) image: Vec<u8>,
}

/// The layers below a program and their image, whose stack has as many bytes as words fill.
/// `AllocError` where memory is wanting.
pub(crate) fn image_below(alloc: Global, g: &Grin, options: Options) -> Result<Lowered, AllocError>
    requires lowerable { IsLowerable (program_of g.now) }
    requires range { SizesAreInRange options.cells options.stack }
    ensures { IfOk result (HasImage (program_of g.now) options.cells (whole_words options.stack)) }
{
    let stack = options.stack / 4 * 4;
    let layers = layers_below(alloc, g, options.cells, stack)?;
    let heap = 4 * layers.low.width * options.cells;
    let image = write(alloc, layers.code.as_slice(), heap, stack)?;
    Ok(Lowered { layers, image })
}
