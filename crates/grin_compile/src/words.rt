// The words of an image's code, by the addresses at which its procedures start.

ghost use Rattle.std.specs.Prelude.{◌≡◌, ◌≤◌, length, IfOk};
ghost use Rattle.grin_compile.specs.Limits.{greatest};
ghost use Rattle.grin_compile.specs.Words.{next_address, procedures_end, words_from, start_words, code_words, most_steps};
ghost use Rattle.limits.specs.Limits.{most_code};

use limits::CODE_START;
use std::alloc::{AllocError, Global};

/// How many words stand behind the code of the procedures: those by which an image ends early.
const STOPS: usize = 9;

/// Where the code of the procedures ends.
fn procedures_end(code: &[u32]) -> u32
    requires { length code.now ≤ most_code }
    ensures { result ≡ procedures_end code.now }
{
    CODE_START + 4 * code.len().saturating_sub(STOPS) as u32
}

/// The first of these addresses behind one, and `end` where there is none.
fn next_address(addresses: &[u32], end: u32, from: u32) -> u32
    ensures { result ≡ next_address addresses.now end from }
{
    let mut next = end;
    for address in addresses {
        if from < *address {
            next = next.min(*address);
        }
    }
    next
}

/// The words from an address to the next one of these, or to the end of the procedures' code.
fn words_from(code: &[u32], addresses: &[u32], from: u32) -> u32
    requires { length code.now ≤ most_code }
    ensures { result ≡ words_from code.now addresses.now from }
{
    let next = next_address(addresses, procedures_end(code), from);
    next.saturating_sub(from) / 4
}

/// The words before the first procedure.
pub fn start_words(code: &[u32], addresses: &[u32]) -> u32
    requires { length code.now ≤ most_code }
    ensures { result ≡ start_words code.now addresses.now }
{
    words_from(code, addresses, CODE_START)
}

/// The words of the code of each procedure.
pub fn code_words(alloc: Global, code: &[u32], addresses: &[u32]) -> Result<Vec<u32>, AllocError>
    requires { length code.now ≤ most_code }
    ensures { IfOk result (λ words. words.items ≡ code_words code.now addresses.now) }
{
    let mut words = Vec::with_capacity(alloc, addresses.len())?;
    for address in addresses {
        words.push(words_from(code, addresses, *address))?;
    }
    Ok(words)
}

/// The greatest of these numbers, and zero where there is none.
pub fn greatest(numbers: &[u32]) -> u32
    ensures { result ≡ greatest numbers.now }
{
    let mut most = 0;
    for number in numbers {
        most = most.max(*number);
    }
    most
}

/// So many steps are enough for the start of an image, and for each entry of a procedure, where
/// `words` are those of the code of each one.
pub fn most_steps(code: &[u32], addresses: &[u32], words: &[u32]) -> u32
    requires few { length code.now ≤ most_code }
    requires words { words.now ≡ code_words code.now addresses.now }
    ensures { result ≡ most_steps code.now addresses.now }
{
    let start = start_words(code, addresses) + STOPS as u32;
    start.max(greatest(words))
}
