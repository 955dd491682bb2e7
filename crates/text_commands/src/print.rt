//! The canonical text of a text.

ghost use Rattle.core_reader.specs.Text.{IsFirstUnread};
ghost use Rattle.text_commands.specs.Printing.{IsCanonicalText};

use crate::accept::unread;
use crate::status::Status;
use crate::writing::Maker;
use core_print::print;
use core_reader::read;
use std::alloc::Global;

/// What makes the canonical text of a text's program. The text need only be read, not checked.
pub struct Canonical;

impl Maker for Canonical {
    ghost made = { λ _ text bytes. IsCanonicalText text bytes };

    ghost refused = { λ _ text rule number. IsFirstUnread text rule number };

    fn make(&self, alloc: Global, text: &[u8]) -> Result<Vec<u8>, Status> {
        let core = match read(alloc, text) {
            Ok(core) => core,
            Err(refusal) => return Err(unread(&refusal)),
        };
        match print(alloc, &core) {
            Ok(bytes) => Ok(bytes),
            Err(_) => Err(Status::OutOfMemory),
        }
    }

    fn refuses_long(&self) {}
}
