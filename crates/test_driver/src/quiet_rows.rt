//! Programs whose input tells nothing of the bytes that it gives, as the standard input.

ghost use Rattle.std.specs.Prelude.{◌≡◌, ℕ, [], None};
ghost use Rattle.text_commands.specs.declared.status.Status.TheVariants.{Exited, Trapped};
ghost use Rattle.rv32_machine.specs.declared.machine.TrapKind.{TrapKind};

use crate::outside::LISTS;
use grin_driver::{Options, Status, run_text};
use grin_io::{Failed, MemSink, Source, SureSource};
use std::alloc::{AllocError, Global};
use std::test::Fail;

/// A source that never fails, of which nobody knows what it gives.
#[derive(Drop)]
struct Quiet {
    source: SureSource,
}

impl Source for Quiet {
    ghost left = { λ _. None };

    ghost is_over = { λ s. s.source ≡ [] };

    ghost faults = { λ _. 0 };

    ghost ends = { λ _ _. tt };

    fn read(&mut self, buf: &mut [u8]) -> Result<usize, Failed> {
        self.source.read(buf)
    }
}

/// The status of a text on such an input, by its clause: none that only executables have.
fn status_on(alloc: Global, text: &[u8], input: &mut Quiet, out: &mut MemSink) -> Status
    ensures exits { (code : ℕ) → result ≡ Exited code → ⊥ }
    ensures traps { (kind : TrapKind) (pc : ℕ) → result ≡ Trapped kind pc → ⊥ }
{
    let options = Options {
        cells: 1_000_000,
        stack: 1_048_576,
    };
    run_text(alloc, text, options, 1_000_000_000, input, out).status
}

/// Whether a text behind `LISTS` on these bytes ends with this status, and puts out this text.
fn answers(
    alloc: Global,
    text: &str,
    bytes: &str,
    code: u8,
    written: &str,
) -> Result<bool, AllocError> {
    let text = format!(in alloc; "{LISTS}{text}")?;
    let mut out = MemSink::new(alloc, 4_096, Vec::new(alloc))?;
    let mut input = Quiet {
        source: SureSource::new(Vec::from_slice(alloc, bytes.as_bytes())?),
    };
    let status = status_on(alloc, text.as_bytes(), &mut input, &mut out);
    Ok(status.code() == code && out.taken() == written.as_bytes())
}

#[test]
fn inputs_that_tell_nothing(rt: HostRuntime) -> Result<(), Fail> {
    let rows: [(&str, &str, u8, &str); 4] = [
        ("main = Nil;", "", 0, ""),
        ("main = Cons 65 Nil;", "abc", 0, "A"),
        ("main xs = xs;", "abc", 0, "abc"),
        (
            "main xs = case xs of { Nil -> Nil; Cons h t -> case t of { Nil -> xs } };",
            "abc",
            3,
            "",
        ),
    ];
    for (text, bytes, code, written) in rows {
        let is_so = answers(rt.alloc(), text, bytes, code, written)?;
        assert!(rt; is_so, "{text}");
    }
    Ok(())
}
