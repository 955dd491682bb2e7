// The return address, in x1 or in the frame, and the ways out of blocks.
#![tactic(auto, using(crate::proofs::Plain::plain_append), unfolding(crate::specs::Emit::plain))]

ghost use Rattle.std.specs.Prelude.{◌≡◌, ◌++◌, ◌<◌, OnOk};
ghost use Rattle.rv32_select.specs.Emit.{put_link as put_link_code, take_link as take_link_code, link_put as link_put_code, link_taken as link_taken_code, plain, leave_code};
ghost use Rattle.rv32_select.specs.IsSelected.{continued_by_jump as further_way, way_out as way_out_items};
ghost use Rattle.rv32_select.specs.Emitting.{link_aside as link_aside_items, link_back as link_back_items};

use crate::code::Code;
use crate::source::Continuation;
use rv32_isa::{Imm12, Instr, LoadKind, Reg, StoreKind};
use rv32_items::Item;
use std::alloc::AllocError;

/// The way where other items come before the label.
pub(crate) fn continued_by_jump(way: Continuation) -> Continuation
    ensures { result ≡ further_way way }
{
    match way {
        Continuation::Returns => Continuation::Returns,
        Continuation::Follows(label) => Continuation::Jumps(label),
        Continuation::Jumps(label) => Continuation::Jumps(label),
    }
}

impl Code {
    /// The return address goes to the frame's first word.
    fn put_link(&mut self) -> Result<(), AllocError>
        ensures { OnOk result (self.new ≡ self.old ++ plain put_link_code) }
    {
        self.instr(Instr::Store(StoreKind::Sw, Reg(1), Reg(2), Imm12(0)))
    }

    /// It comes back.
    fn take_link(&mut self) -> Result<(), AllocError>
        ensures { OnOk result (self.new ≡ self.old ++ plain take_link_code) }
    {
        self.instr(Instr::Load(LoadKind::Lw, Reg(1), Reg(2), Imm12(0)))
    }

    /// In a framed procedure it goes there at the entry.
    pub(crate) fn link_put(&mut self, framed: bool) -> Result<(), AllocError>
        ensures { OnOk result (self.new ≡ self.old ++ plain (link_put_code framed)) }
    {
        if framed {
            return self.put_link();
        }
        Ok(())
    }

    /// And comes back at the end.
    fn link_taken(&mut self, framed: bool) -> Result<(), AllocError>
        ensures { OnOk result (self.new ≡ self.old ++ plain (link_taken_code framed)) }
    {
        if framed {
            return self.take_link();
        }
        Ok(())
    }

    /// In another one, before a piece that needs x1.
    pub(crate) fn link_aside(&mut self, framed: bool) -> Result<(), AllocError>
        ensures { OnOk result (self.new ≡ self.old ++ link_aside_items framed) }
    {
        if framed {
            return Ok(());
        }
        self.put_link()
    }

    /// Behind it.
    pub(crate) fn link_back(&mut self, framed: bool) -> Result<(), AllocError>
        ensures { OnOk result (self.new ≡ self.old ++ link_back_items framed) }
    {
        if framed {
            return Ok(());
        }
        self.take_link()
    }

    /// The return address is in x1 again, and x2 goes up.
    pub(crate) fn leave(&mut self, framed: bool, words: u32) -> Result<(), AllocError>
        requires { words < 1073741824 }
        ensures { OnOk result (self.new ≡ self.old ++ plain (leave_code framed words)) }
    {
        self.link_taken(framed)?;
        self.add_to(Reg(2), Reg(2), 4 * words)
    }

    pub(crate) fn way_out(
        &mut self,
        framed: bool,
        words: u32,
        way: Continuation,
    ) -> Result<(), AllocError>
        requires { words < 1073741824 }
        ensures { OnOk result (self.new ≡ self.old ++ way_out_items framed words way) }
    {
        match way {
            Continuation::Returns => {
                self.leave(framed, words)?;
                self.instr(Instr::Jalr(Reg(0), Reg(1), Imm12(0)))
            }
            Continuation::Follows(_) => Ok(()),
            Continuation::Jumps(label) => self.put(Item::Jump {
                link: Reg(0),
                label,
            }),
        }
    }
}
