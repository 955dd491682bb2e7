// Programs in which `hd` gives the first field of a cell, and `start` calls it with one that it
// stores.

use arity_raise::with_raised_params;
use grin_syntax::list;
use grin_text::{ReadError, program};
use std::alloc::{AllocError, Global};
use std::test::Fail;

const RAISED: &str = "\
global main = (CA)

hd v0 v1 =
  v2 <- unit #CCons
  v3 <- unit v0
  unit [v3]

start v0 =
  store
    v1 = (CCons 1 v0)
  v2 <- fetch v1 1
  v3 <- fetch v1 2
  v4 <- call hd v2 v3
  write v4
  unit [#CA]
";

const UPDATE: &str = "  update v1 (CCons 2 v0)\n";

// Fourteen parameters more, and what stands for them.
const PARAMS: &str = " v1 v2 v3 v4 v5 v6 v7 v8 v9 v10 v11 v12 v13 v14";

const ARGS: &str = " 0 0 0 0 0 0 0 0 0 0 0 0 0 0";

// With the fourteen parameters more, the two fields make sixteen.
const SIXTEEN: &str = "\
global main = (CA)

hd v0 v1 v2 v3 v4 v5 v6 v7 v8 v9 v10 v11 v12 v13 v14 v15 =
  v16 <- unit #CCons
  v17 <- unit v0
  unit [v17]

start v0 =
  store
    v1 = (CCons 1 v0)
  v2 <- fetch v1 1
  v3 <- fetch v1 2
  v4 <- call hd v2 v3 0 0 0 0 0 0 0 0 0 0 0 0 0 0
  write v4
  unit [#CA]
";

// The text, where `hd` has these parameters more, `start` gives it these words more and may update
// the cell before.
fn heads(alloc: Global, params: &str, args: &str, update: &str) -> Result<String, AllocError> {
    let hd = "  v21 <- fetch v0 0\n  v22 <- fetch v0 1\n  unit [v22]\n";
    let start = "\nstart v0 =\n  store\n    v1 = (CCons 1 v0)\n";
    format!(in alloc;
        "tags CInt/1 CA/0 CCons/2\nwords\nglobal main = (CA)\n\nhd v0{params} =\n{hd}{start}{update}  v2 <- call hd v1{args}\n  write v2\n  unit [#CA]\n"
    )
}

// The listing of a text's program, and of what the pass makes of it.
fn listed(alloc: Global, text: &str) -> Result<(Vec<u8>, Vec<u8>), ReadError> {
    let g = program(alloc, text)?;
    let before = list(alloc, &g)?;
    let after = list(alloc, &with_raised_params(alloc, g)?)?;
    Ok((before, after))
}

#[test]
fn a_parameter_is_replaced_by_fields(rt: HostRuntime) -> Result<(), Fail> {
    let text = heads(rt.alloc(), "", "", "")?;
    let (_before, after) = listed(rt.alloc(), text.as_str())?;
    assert_eq!(rt; after.as_slice(), RAISED.as_bytes());
    Ok(())
}

#[test]
fn a_parameter_whose_cell_is_updated_stays(rt: HostRuntime) -> Result<(), Fail> {
    let text = heads(rt.alloc(), "", "", UPDATE)?;
    let (before, after) = listed(rt.alloc(), text.as_str())?;
    assert_eq!(rt; after.as_slice(), before.as_slice());
    Ok(())
}

#[test]
fn no_procedure_gets_a_seventeenth_parameter(rt: HostRuntime) -> Result<(), Fail> {
    let params = format!(in rt.alloc(); "{PARAMS} v15")?;
    let args = format!(in rt.alloc(); "{ARGS} 0")?;
    let text = heads(rt.alloc(), params.as_str(), args.as_str(), "")?;
    let (before, after) = listed(rt.alloc(), text.as_str())?;
    assert_eq!(rt; after.as_slice(), before.as_slice());
    let text = heads(rt.alloc(), PARAMS, ARGS, "")?;
    let (_before, after) = listed(rt.alloc(), text.as_str())?;
    assert_eq!(rt; after.as_slice(), SIXTEEN.as_bytes());
    Ok(())
}
