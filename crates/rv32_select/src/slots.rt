// The slots of a procedure's variables.
#![tactic(auto, using(crate::proofs::SlotsOf::slots_of_all))]

ghost use Rattle.std.specs.Prelude.{◌≡◌, ◌<◌, IfOk};
ghost use Rattle.low_code.specs.Tree.{procedure_of};
ghost use Rattle.low_code.specs.Formed.{variables as variables_of};
ghost use Rattle.register_alloc.specs.Assignment.{place_of};
ghost use Rattle.register_alloc.specs.Fits.{slot_end as end_of_slot, slots_of};
ghost use Rattle.rv32_select.specs.InContext.{HavePlacesIn};

use crate::context::Context;
use low_code::LowProc;
use parallel_move::Spot;
use register_alloc::BindingWalk;
use std::alloc::AllocError;

/// One more than the number of a slot.
fn slot_end(place: Spot) -> u32
    requires { end_of_slot place < 4294967296 }
    ensures { result ≡ end_of_slot place }
{
    match place {
        Spot::Reg(_) => 0,
        Spot::Slot(k) => k + 1,
        Spot::Scratch => 0,
    }
}

impl<'a> Context<'a> {
    /// One more than the number of the last slot among variables.
    fn slots_among(&self, variables: &[u32]) -> u32
        requires placed { HavePlacesIn self.now variables.now }
        requires few { slots_of (place_of self.now.places.now) variables.now < 4294967296 }
        ensures { result ≡ slots_of (place_of self.now.places.now) variables.now }
    {
        let mut slots = 0;
        for x in variables {
            slots = slots.max(slot_end(self.places.place(*x)));
        }
        slots
    }

    /// The same of all variables of a procedure.
    pub(crate) fn slots(&self, procedure: &LowProc) -> Result<u32, AllocError>
        requires placed { HavePlacesIn self.now (variables_of (procedure_of procedure.now)) }
        requires few { slots_of (place_of self.now.places.now)
            (variables_of (procedure_of procedure.now)) < 4294967296 }
        ensures { IfOk result (λ slots. slots
            ≡ slots_of (place_of self.now.places.now) (variables_of (procedure_of procedure.now))) }
    {
        let mut walk = BindingWalk::new(self.alloc);
        walk.bind(procedure.params.as_slice())?;
        walk.block(&procedure.body)?;
        Ok(self.slots_among(walk.variables.as_slice()))
    }
}
