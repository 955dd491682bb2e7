//! The check of a text, and the line of its program.

ghost use Rattle.std.specs.Prelude.{◌≡◌, ◌≤◌, length};
ghost use Rattle.text_commands.specs.Over.{sink_over};
ghost use Rattle.text_commands.specs.Checking.{IsCheckOutcome, summary};

use crate::accept::{Accepted, accept};
use crate::note::Note;
use crate::status::Status;
use grin_io::Sink;
use std::alloc::Global;

/// The line of an accepted text.
#[tactic(auto, unfolding(crate::specs::Checking::summary))]
fn summary(accepted: &Accepted) -> Note
    ensures { result ≡ summary (length accepted.now.program.funs) (length accepted.now.program.cons)
        accepted.now.size }
{
    let mut note = Note::new();
    note.push_named(b"ok functions ", accepted.program.funs.len() as u64);
    note.push_named(b" constructors ", accepted.program.cons.len() as u64);
    note.push_named(b" size ", accepted.size);
    note.push(b"\n");
    note
}

/// Checks a text, and puts the line of its program in one put.
pub fn check_text<K: Sink>(alloc: Global, text: &[u8], out: &mut K) -> Status
    ensures checks { IsCheckOutcome (sink_over K.Sink out.old out.new) text.now result }
    ensures later { K.faults out.old ≤ K.faults out.new }
{
    match accept(alloc, text) {
        Ok(accepted) => match out.put(summary(&accepted).as_slice()) {
            Ok(()) => Status::Done,
            Err(_) => Status::WriteFault,
        },
        Err(status) => status,
    }
}
