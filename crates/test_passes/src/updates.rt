// Programs that put nodes with several tags into a cell, and then what has the tag that is there.

use grin_syntax::list;
use grin_text::{ReadError, program};
use std::alloc::{AllocError, Global};
use std::fmt::Write;
use std::test::Fail;
use update_special::with_literal_tags;

const HEAD: &str = "\
tags CInt/1 CA/0 CB/0 CC/0 CD/0 CE/0 CF/0 CG/0 CH/0 CI/0
words
global main = (CA)

again v0 =
";

const END: &str = "  v1 <- fetch v0 0
  update v0 [v1]
  unit [v1]
";

// The cell may hold (CA) or (CB), whose tag is written back.
const TWO_TAGS: &str = "\
global main = (CA)

again v0 =
  update v0 (CA)
  update v0 (CB)
  v1 <- fetch v0 0
  case [v1] of
    (CA) ->
      update v0 [#CA]
    (CB) ->
      update v0 [#CB]
  unit [v1]
";

// The text of the program in whose cell these tags may stand.
fn again(alloc: Global, tags: &str) -> Result<String, AllocError> {
    let mut text = String::from_str(alloc, HEAD)?;
    for tag in tags.split_whitespace() {
        writeln!(text, "  update v0 ({tag})")?;
    }
    text.push_str(END)?;
    Ok(text)
}

// The listing of what the pass makes of this program, where it has an alternative for each tag.
fn cases(alloc: Global, tags: &str) -> Result<String, AllocError> {
    let mut text = String::from_str(alloc, "global main = (CA)\n\nagain v0 =\n")?;
    for tag in tags.split_whitespace() {
        writeln!(text, "  update v0 ({tag})")?;
    }
    text.push_str("  v1 <- fetch v0 0\n  case [v1] of\n")?;
    for tag in tags.split_whitespace() {
        writeln!(text, "    ({tag}) ->\n      update v0 [#{tag}]")?;
    }
    text.push_str("  unit [v1]\n")?;
    Ok(text)
}

// The listing of this program, and of what the pass makes of it.
fn listed(alloc: Global, tags: &str) -> Result<(Vec<u8>, Vec<u8>), ReadError> {
    let text = again(alloc, tags)?;
    let g = program(alloc, text.as_str())?;
    let before = list(alloc, &g)?;
    let after = list(alloc, &with_literal_tags(alloc, g)?)?;
    Ok((before, after))
}

#[test]
fn an_update_is_a_case_over_its_tags(rt: HostRuntime) -> Result<(), Fail> {
    let (_before, after) = listed(rt.alloc(), "CA CB")?;
    assert_eq!(rt; after.as_slice(), TWO_TAGS.as_bytes());
    Ok(())
}

#[test]
fn an_update_with_nine_tags_stays(rt: HostRuntime) -> Result<(), Fail> {
    let (before, after) = listed(rt.alloc(), "CA CB CC CD CE CF CG CH CI")?;
    assert_eq!(rt; after.as_slice(), before.as_slice());
    let (_before, after) = listed(rt.alloc(), "CA CB CC CD CE CF CG CH")?;
    let wanted = cases(rt.alloc(), "CA CB CC CD CE CF CG CH")?;
    assert_eq!(rt; after.as_slice(), wanted.as_bytes());
    Ok(())
}
