// The greatest set of procedures that may give a number without its tag.
#![tactic(auto)]

ghost use Rattle.std.specs.Prelude.{◌≡◌, ◌≤◌, ◌∷◌, [], ◌<◌, ℕ, true, IfOk};
ghost use Rattle.grin_syntax.specs.Formed.{AllOf};
ghost use Rattle.unbox_theory.specs.Ends.{Procedures, is_member};
ghost use Rattle.unbox.specs.Ties.{all_in, RespectsTie, IsGreatestRespecting};
ghost use Rattle.unbox.specs.Rounds.{count_members, Within, ProceduresRemoved, TiesEnforced};

use crate::blocks::Members;
use crate::ties::Tie;
use grin_syntax::ProcId;
use pass_ground::truth::{both, either};
use seq::Seq;
use std::alloc::{AllocError, Global};

impl Members {
    // Whether all of these are in.
    fn has_all(&self, procs: &[ProcId]) -> bool
        ensures { result ≡ all_in (is_member self.now.inside) procs.now }
    {
        let mut all = true;
        for f in procs {
            all = both(all, self.has(*f));
        }
        all
    }

    // Takes out a procedure, and says whether it was in.
    fn take_out(&mut self, f: ProcId) -> bool
        ensures { ProceduresRemoved self.old.inside self.new.inside (f ∷ []) result }
    {
        let inside = self.has(f);
        if inside {
            self.inside.set(f.0 as usize, false);
        }
        inside
    }

    // Takes out all of these, and says whether one was in.
    fn take_all(&mut self, procs: &[ProcId]) -> bool
        ensures { ProceduresRemoved self.old.inside self.new.inside procs.now result }
    {
        let mut changed = false;
        for f in procs {
            changed = either(changed, self.take_out(*f));
        }
        changed
    }

    // Takes out the procedures of a tie where one of them is out, or none may be a member.
    fn heed(&mut self, tie: &Tie) -> bool
        ensures { TiesEnforced self.old.inside self.new.inside (tie.now ∷ []) result }
    {
        let procs = tie.procs.as_slice();
        let kept = both(tie.sound, self.has_all(procs));
        if kept {
            return false;
        }
        self.take_all(procs)
    }

    // Heeds each tie, and says whether a procedure was taken out.
    fn sweep(&mut self, ties: &[Tie]) -> bool
        ensures { TiesEnforced self.old.inside self.new.inside ties.now result }
    {
        let mut changed = false;
        for tie in ties {
            changed = either(changed, self.heed(tie));
        }
        changed
    }

    // Heeds each tie, the last one first, so that chains of ends that call each other take few
    // rounds.
    fn back(&mut self, ties: &[Tie])
        ensures sound { (T : Procedures) → AllOf (RespectsTie T) ties.now → Within T self.old.inside
            → Within T self.new.inside }
        ensures fewer { count_members self.new.inside ≤ count_members self.old.inside }
    {
        let mut left = ties.len();
        'back: while left > 0 {
            left -= 1;
            self.heed(&ties[left]);
        }
    }

    // Heeds each tie, there and back.
    fn round(&mut self, ties: &[Tie]) -> bool
        ensures { TiesEnforced self.old.inside self.new.inside ties.now result }
    {
        let changed = self.sweep(ties);
        if changed {
            self.back(ties);
            return true;
        }
        changed
    }
}

fn all_inside(alloc: Global, count: usize) -> Result<Members, AllocError>
    ensures { IfOk result (λ m. (T : Procedures) → ((f : ℕ) → T f ≡ true → f < count)
        → Within T m.inside) }
{
    let mut inside = Seq::new(alloc);
    for _ in 0..count {
        inside.push(true)?;
    }
    Ok(Members { inside })
}

/// The members among so many procedures with these ties: procedures are taken out until a round
/// takes out none.
pub(crate) fn members(alloc: Global, count: usize, ties: &[Tie]) -> Result<Members, AllocError>
    ensures { IfOk result (λ m. IsGreatestRespecting count ties.now (is_member m.inside)) }
{
    let mut members = all_inside(alloc, count)?;
    let mut more = true;
    'rounds: while more {
        more = members.round(ties);
    }
    Ok(members)
}
