//! Places for the variables of low code.
#![tactic(auto)]

ghost use Rattle.std.specs.Prelude.{◌≡◌, ◌<◌, length};
ghost use Rattle.register_alloc.specs.Assignment.{place_of, mask_of, saves_at, words_at};

mod assign;
mod either;
mod hints;
mod holders;
mod registers;
mod scan;
mod walk;
mod wish;
mod written;

pub use assign::allocate;
use parallel_move::Spot;
use seq::Seq;
use std::marker::Model;
pub use walk::BindingWalk;

/// Where the variables of a program stand, which registers each procedure may change, which of them
/// are saved at each call site, and the words of each frame.
#[derive(Drop)]
pub struct Places {
    spots: Vec<Spot>,
    masks: Vec<u32>,
    saves: Vec<Seq<u8>>,
    frames: Vec<u32>,
}

impl Model for Places {
    ghost use Rattle.register_alloc.specs.Assignment.{Assignment};

    ghost Value = { Assignment };

    ghost view = { λ p. record {
      spots = p.spots.items;
      masks = p.masks.items;
      saves = p.saves.items;
      frames = p.frames.items;
    } };
}

impl Places {
    /// The place of a variable: a register x8 to x31, or a slot of its procedure's frame.
    pub fn place(&self, var: u32) -> Spot
        requires { var < length self.now.spots }
        ensures { result ≡ place_of self.now var }
    {
        self.spots[var as usize]
    }

    /// The registers that a call of the procedure may change, as a mask: bit r stands for x<r>.
    pub fn written(&self, proc: u32) -> u32
        requires { proc < length self.now.masks }
        ensures { result ≡ mask_of self.now proc }
    {
        self.masks[proc as usize]
    }

    /// The registers that are saved at a site of a call, ascending.
    pub fn saved(&self, site: u32) -> &[u8]
        requires { site < length self.now.saves }
        ensures { result.now ≡ saves_at self.now site }
    {
        self.saves[site as usize].as_slice()
    }

    /// The words of the procedure's frame.
    pub fn frame_words(&self, proc: u32) -> u32
        requires { proc < length self.now.frames }
        ensures { result ≡ words_at self.now proc }
    {
        self.frames[proc as usize]
    }
}
