//! Texts of modules, linked to one text.

ghost use Rattle.std.specs.Prelude.{◌≡◌, ℕ, ◌≤◌, List, IfOk, IfErr};
ghost use Rattle.text_commands.specs.Over.{sink_over};
ghost use Rattle.core_link.specs.Rules.{IsCause};
ghost use Rattle.text_commands.specs.Linking.{IsLinkedText, IsLinkRefusal, IsLinkOutcome};
ghost use Rattle.text_commands.specs.Writing.{IsTransformFailure};

use crate::pieces::put_pieces;
use crate::status::Status;
use core_link::{LinkRefusal, Texts, link};
use core_print::print;
use grin_io::Sink;
use std::alloc::Global;

/// How far the numbers of places of one file and the next lie apart.
const FILE: u64 = 2_097_152;

/// The status for texts that aren't linked.
fn unlinked(refusal: &LinkRefusal) -> Status
    ensures { (texts : List (List ℕ)) → IsCause texts refusal.now → IsTransformFailure IsLinkRefusal texts result }
{
    match refusal.kind.rule() {
        Some((rule, at)) => Status::Refused {
            rule,
            number: FILE * refusal.file as u64 + at as u64,
        },
        None => Status::OutOfMemory,
    }
}

/// The canonical text of the program that texts are together, or why there is none.
fn linked(alloc: Global, texts: &Texts) -> Result<Vec<u8>, Status>
    ensures linked { IfOk result (λ bytes. IsLinkedText texts.now bytes.items) }
    ensures unlinked { IfErr result (IsTransformFailure IsLinkRefusal texts.now) }
{
    let core = match link(alloc, texts) {
        Ok(core) => core,
        Err(refusal) => return Err(unlinked(&refusal)),
    };
    match print(alloc, &core) {
        Ok(bytes) => Ok(bytes),
        Err(_) => Err(Status::OutOfMemory),
    }
}

/// Puts the canonical text of the program that texts are together, in pieces of 4,096 bytes. All
/// memory is had before the first put.
pub fn link_texts<K: Sink>(alloc: Global, texts: &Texts, out: &mut K) -> Status
    ensures links { IsLinkOutcome (sink_over K.Sink out.old out.new) texts.now result }
    ensures later { K.faults out.old ≤ K.faults out.new }
{
    match linked(alloc, texts) {
        Ok(bytes) => match put_pieces(bytes.as_slice(), out) {
            Ok(()) => Status::Done,
            Err(_) => Status::WriteFault,
        },
        Err(status) => status,
    }
}
