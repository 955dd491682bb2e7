//! In which procedure an image stood where its run found no alternative.

ghost use Rattle.std.specs.Prelude.{◌≡◌, ◌-◌, ◌≤◌, length, slice_get, Some, ◌&&◌, nat_le};
ghost use Rattle.grin_driver.specs.Standing.{LiesInProcedure, LineNamesProcedure, IsPlaceLine, place_line};

use seq::Text;
use text_commands::note::Note;
use text_commands::status::Status;

/// The most bytes that are shown of a name.
const MOST_OF_NAME: usize = 100;

/// Whether an address is at or behind one that was found, and at or before another.
fn is_between(start: u32, found: u32, at: u32) -> bool
    ensures { result ≡ (nat_le found start && nat_le start at) }
{
    found <= start && start <= at
}

/// The procedure in whose code an address lies, where procedures start at these.
fn procedure_at(starts: &[u32], at: u32) -> Option<usize>
    ensures { LiesInProcedure starts.now at result }
{
    let mut last = None;
    let mut found = 0;
    for (f, start) in starts.iter().enumerate() {
        if is_between(*start, found, at) {
            last = Some(f);
            found = *start;
        }
    }
    last
}

/// The line that names a procedure.
fn line(name: &[u8]) -> Note
    ensures { result ≡ place_line name.now }
{
    let mut note = Note::new();
    note.push(b"grinc: no alternative in ");
    note.push(&name[..name.len().min(MOST_OF_NAME)]);
    note.push(b"\n");
    note
}

/// The line that names the procedure in whose code an address lies, if there is one.
fn named_at(starts: &[u32], names: &[Text], at: u32) -> Option<Note>
    requires { length starts.now ≡ length names.now }
    ensures { LineNamesProcedure starts.now names.now at result }
{
    let f = procedure_at(starts, at)?;
    let name = names.get(f)?;
    Some(line(name.as_slice()))
}

/// The line for a run that ended so, with this in x5, which is 4 behind its last step in the code
/// of procedures where it found no alternative.
pub(crate) fn no_alternative_line(
    starts: &[u32],
    names: &[Text],
    status: Status,
    x5: u32,
) -> Option<Note>
    requires { length starts.now ≡ length names.now }
    ensures { IsPlaceLine starts.now names.now status (x5 - 4) result }
{
    match status {
        Status::NoAlternative => named_at(starts, names, x5.saturating_sub(4)),
        _ => None,
    }
}
