//! Names and numbers of parameters of what waits, and constructors by their names.

ghost use Rattle.std.specs.Prelude.{◌≡◌, ◌++◌, codes, decimal, slice_get, IfOk};
ghost use Rattle.arity_check.specs.Program.{program};
ghost use Rattle.core_meaning.specs.Evaluation.{con_named};
ghost use Rattle.grin_translate.specs.Tags.{op_name, fun_name, delay_name, delay_params};

use crate::numbering::params;
use crate::tags::Delay;
use crate::variables::{as_u32, sum};
use arity_check::normal::{Checked, Con, PrimOp};
use itoa::Buffer;
use seq::{Seq, Text};
use std::alloc::{AllocError, Global};

/// The name of a function, or none where there is no such function.
pub fn function_name(alloc: Global, p: &Checked, f: u32) -> Result<Text, AllocError>
    ensures { IfOk result (λ n. n ≡ fun_name (slice_get (program p.now).funs f)) }
{
    match p.funs.get(f as usize) {
        Some(fun) => fun.name.copied(alloc),
        None => Ok(Seq::new(alloc)),
    }
}

/// The name of what is done where an operation is forced.
fn operation_name(alloc: Global, op: PrimOp) -> Result<Text, AllocError>
    ensures { IfOk result (λ n. n ≡ op_name op) }
{
    match op {
        PrimOp::Add => Seq::from_slice(alloc, b"@add"),
        PrimOp::Sub => Seq::from_slice(alloc, b"@sub"),
        PrimOp::Mul => Seq::from_slice(alloc, b"@mul"),
        PrimOp::Quot => Seq::from_slice(alloc, b"@quot"),
        PrimOp::Rem => Seq::from_slice(alloc, b"@rem"),
        PrimOp::Eq => Seq::from_slice(alloc, b"@eq"),
        PrimOp::Lt => Seq::from_slice(alloc, b"@lt"),
    }
}

fn application_name(alloc: Global, args: u32) -> Result<Text, AllocError>
    ensures { IfOk result (λ n. n ≡ codes "@" ++ decimal args) }
{
    let mut buffer = Buffer::new();
    let mut name = Vec::from_slice(alloc, b"@")?;
    name.extend_from_slice(buffer.format(args).as_bytes())?;
    Ok(Seq::from_vec(name))
}

/// The name of what waits: its procedure's and its tag's.
pub fn thunk_name(alloc: Global, p: &Checked, delay: Delay) -> Result<Text, AllocError>
    ensures { IfOk result (λ n. n ≡ delay_name (program p.now) delay) }
{
    match delay {
        Delay::Calls(f) => function_name(alloc, p, f),
        Delay::Applies(args) => application_name(alloc, args),
        Delay::Operates(op) => operation_name(alloc, op),
        Delay::Reads => Seq::from_slice(alloc, b"@input"),
    }
}

/// The number of parameters of what waits.
pub fn thunk_arity(p: &Checked, delay: Delay) -> Result<u32, AllocError>
    ensures { IfOk result (λ n. n ≡ delay_params (program p.now) delay) }
{
    match delay {
        Delay::Calls(f) => Ok(params(p, f)),
        Delay::Applies(args) => sum(1, args),
        Delay::Operates(_) => Ok(2),
        Delay::Reads => Ok(0),
    }
}

/// The first constructor of a name, or their number where there is none.
pub fn constructor_named(name: &[u8], constructors: &[Con]) -> Result<u32, AllocError>
    ensures { IfOk result (λ c. c ≡ con_named name.now constructors.now) }
{
    for (c, each) in constructors.iter().enumerate() {
        if name == each.name.as_slice() {
            return as_u32(c);
        }
    }
    as_u32(constructors.len())
}
