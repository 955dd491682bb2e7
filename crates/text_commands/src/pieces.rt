//! Long outputs, put in pieces.

ghost use Rattle.std.specs.Prelude.{◌≤◌, OnOk, OnErr};
ghost use Rattle.grin_io.specs.Changes.{TookExactly, PutFailed};
ghost use Rattle.text_commands.specs.Over.{sink_over};
ghost use Rattle.text_commands.specs.Putting.{HoldsOfPieces};

use grin_io::{Failed, Sink};

/// The most bytes of one put.
const PIECE: usize = 4096;

/// Puts bytes in pieces of 4,096, of which the last one may be shorter, up to the first put that
/// fails.
pub fn put_pieces<K: Sink>(bytes: &[u8], out: &mut K) -> Result<(), Failed>
    ensures took { OnOk result
        (HoldsOfPieces bytes.now (TookExactly (sink_over K.Sink out.old out.new))) }
    ensures broke { OnErr result
        (HoldsOfPieces bytes.now (PutFailed (sink_over K.Sink out.old out.new))) }
    ensures later { K.faults out.old ≤ K.faults out.new }
{
    'pieces: for piece in bytes.chunks(PIECE) {
        out.put(piece)?;
    }
    Ok(())
}
