//! Parameters that are replaced by the fields of their cells, by a solution: what that makes of a
//! program, and the law that it keeps what the program does.
#![tactic(auto)]

ghost use Rattle.raise_theory.specs.Laws.{RaisingKeeps};

mod raising;

pub use raising::Raising;

/// Where it is decided by a solution of the program's flow system which parameters are replaced,
/// the program that is made does the same and stays fit for the passes.
pub fn raising_keeps()
    ensures { RaisingKeeps }
{}
