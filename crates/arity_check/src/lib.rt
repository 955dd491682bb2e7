//! The rules that a program has to keep, and the normal form of a program that keeps them all.
//!
//! `check::check` takes a program as it was read, and gives its normal form (`normal::Checked`), or
//! the first rule that it breaks (`refusal::CheckRefusal`). `program::first_refusal` names the
//! first broken rule of those that count in an order (`order::Order`). In normal form each argument
//! is a variable, and every other argument has a binding of its own. What both are is said by
//! `specs/`: `Program` and `Normal` have the normal form, `Scope` what a name stands for, `Broken`
//! the rules, `Order` and `Accepted` which of them is named. `laws` says that each program that
//! breaks no rule has one normal form, and that refusals exclude one another. `specs/Lib` names the
//! devices of the proofs apart, of which no public clause speaks.
#![tactic(auto)]

pub mod check;
mod flat;
mod form;
pub mod globals;
pub mod laws;
pub mod meaning;
pub mod normal;
pub mod order;
pub mod program;
pub mod refusal;
pub mod scope;
mod walk;
