//! Executables: which are refused, and how the others end.

use crate::images::{CAPITALS, EXITS_WITH_7, TWO_HEADERS};
use crate::outside::{Object, Outside};
use std::alloc::{AllocError, Global};
use std::test::Fail;

/// The words that execute the file.
const EXEC: [&str; 3] = ["grinc", "exec", "a"];

/// The image that exits with 7, with other bytes from an offset on.
fn changed(alloc: Global, offset: usize, bytes: &[u8]) -> Result<Vec<u8>, AllocError> {
    let mut image = Vec::new(alloc);
    for (at, byte) in EXITS_WITH_7.iter().enumerate() {
        let new = match at.checked_sub(offset) {
            Some(place) => bytes.get(place),
            None => None,
        };
        image.push(*new.unwrap_or(byte))?;
    }
    Ok(image)
}

#[test]
fn lines_of_traps_and_exits(rt: HostRuntime) -> Result<(), Fail> {
    // Other first words of the code, and another number to exit with.
    let rows: [(usize, &[u8], u8, &str); 8] = [
        (84, &[0x93, 0x08, 0xD0, 0x05], 7, "grinc: exited 7\n"),
        (
            84,
            &[0x00, 0x00, 0x00, 0x00],
            7,
            "grinc: trap illegal-instruction 0 at 65620\n",
        ),
        (
            84,
            &[0x73, 0x00, 0x10, 0x00],
            7,
            "grinc: trap breakpoint at 65620\n",
        ),
        (
            84,
            &[0x93, 0x08, 0xE0, 0x05],
            7,
            "grinc: trap unknown-call 94 at 65628\n",
        ),
        (
            84,
            &[0x83, 0x22, 0x00, 0x00],
            7,
            "grinc: trap access-outside 0 at 65620\n",
        ),
        // lw x5, 1(x0)
        (
            84,
            &[0x83, 0x22, 0x10, 0x00],
            7,
            "grinc: trap misaligned-access 1 at 65620\n",
        ),
        (
            84,
            &[0x6F, 0x00, 0x20, 0x00],
            7,
            "grinc: trap misaligned-jump at 65620\n",
        ),
        // addi x10, x0, 0
        (88, &[0x13, 0x05, 0x00, 0x00], 0, ""),
    ];
    for (offset, bytes, code, err) in rows {
        let image = changed(rt.alloc(), offset, bytes)?;
        let is_so = Outside::of(&image).answers(rt.alloc(), &EXEC, code, "", err)?;
        assert!(rt; is_so, "{err}");
    }
    Ok(())
}

#[test]
fn other_images(rt: HostRuntime) -> Result<(), Fail> {
    let rows: [(&[u8], u8, &str); 6] = [
        (&[], 1, "grinc: refused 41 at 0\n"),
        (&EXITS_WITH_7[..51], 1, "grinc: refused 41 at 0\n"),
        (&EXITS_WITH_7[..83], 1, "grinc: refused 44 at 0\n"),
        (&EXITS_WITH_7[..95], 1, "grinc: refused 45 at 0\n"),
        (&TWO_HEADERS, 1, "grinc: refused 46 at 1\n"),
        (&CAPITALS, 0, ""),
    ];
    for (image, code, err) in rows {
        let is_so = Outside::of(image).answers(rt.alloc(), &EXEC, code, "", err)?;
        assert!(rt; is_so, "{err}");
    }
    Ok(())
}

#[test]
fn images_with_other_bytes(rt: HostRuntime) -> Result<(), Fail> {
    let rows: [(usize, &[u8], u8, &str); 12] = [
        (0, &[0x00], 1, "grinc: refused 42 at 0\n"),
        (4, &[0x02], 1, "grinc: refused 43 at 0\n"),
        (42, &[0x1F], 1, "grinc: refused 43 at 0\n"),
        (28, &[0xFF; 4], 1, "grinc: refused 44 at 0\n"),
        (44, &[0xFF; 2], 1, "grinc: refused 44 at 0\n"),
        (60, &[0xFC, 0xFF, 0xFF, 0xFF], 1, "grinc: refused 45 at 0\n"),
        (72, &[0x08], 1, "grinc: refused 45 at 0\n"),
        (24, &[0x00; 4], 1, "grinc: refused 47 at 0\n"),
        (76, &[0x04], 1, "grinc: refused 47 at 0\n"),
        (44, &[0x00], 1, "grinc: refused 47 at 0\n"),
        (72, &[0x01, 0x00, 0x00, 0x80], 1, "grinc: refused 48 at 0\n"),
        (24, &[0x55], 7, "grinc: trap misaligned-jump at 65621\n"),
    ];
    for (offset, bytes, code, err) in rows {
        let image = changed(rt.alloc(), offset, bytes)?;
        let is_so = Outside::of(&image).answers(rt.alloc(), &EXEC, code, "", err)?;
        assert!(rt; is_so, "{offset} {err}");
    }
    Ok(())
}

#[test]
fn steps_of_an_image(rt: HostRuntime) -> Result<(), Fail> {
    // jal x0, 0
    let endless = changed(rt.alloc(), 84, &[0x6F, 0x00, 0x00, 0x00])?;
    let rows: [(&[u8], &str, u8, &str); 3] = [
        (&EXITS_WITH_7, "2", 6, "grinc: step limit\n"),
        (&EXITS_WITH_7, "3", 7, "grinc: exited 7\n"),
        (&endless, "1000", 6, "grinc: step limit\n"),
    ];
    for (image, steps, code, err) in rows {
        let words = ["grinc", "exec", "a", "--steps", steps];
        let is_so = Outside::of(image).answers(rt.alloc(), &words, code, "", err)?;
        assert!(rt; is_so, "{steps}");
    }
    Ok(())
}

#[test]
fn what_an_image_cost(rt: HostRuntime) -> Result<(), Fail> {
    let trap = changed(rt.alloc(), 88, &[0x00, 0x00, 0x00, 0x00])?;
    let ends = changed(rt.alloc(), 88, &[0x13, 0x05, 0x00, 0x00])?;
    let rows: [(&[u8], &[&str], u8, &str); 6] = [
        (
            &EXITS_WITH_7,
            &["grinc", "exec", "a", "--stats"],
            7,
            "grinc: exited 7\ngrinc: instructions 3\n",
        ),
        (
            &EXITS_WITH_7,
            &["grinc", "exec", "--stats", "a", "--steps", "2"],
            6,
            "grinc: step limit\ngrinc: instructions 2\n",
        ),
        (
            &trap,
            &["grinc", "exec", "a", "--stats"],
            7,
            "grinc: trap illegal-instruction 0 at 65624\ngrinc: instructions 2\n",
        ),
        (
            &ends,
            &["grinc", "exec", "a", "--stats"],
            0,
            "grinc: instructions 3\n",
        ),
        (
            &[],
            &["grinc", "exec", "a", "--stats"],
            1,
            "grinc: refused 41 at 0\n",
        ),
        (
            &EXITS_WITH_7,
            &["grinc", "exec", "a", "--stats=3"],
            2,
            "grinc: usage\n",
        ),
    ];
    for (image, words, code, err) in rows {
        let is_so = Outside::of(image).answers(rt.alloc(), words, code, "", err)?;
        assert!(rt; is_so, "{err}");
    }
    Ok(())
}

#[test]
fn no_cost_of_a_run_that_broke_off(rt: HostRuntime) -> Result<(), Fail> {
    let rows = [
        (Some((Object::Input, 1)), 9, "A", "grinc: read fault\n"),
        (Some((Object::Out, 2)), 10, "AB", "grinc: write fault\n"),
    ];
    for (failing, code, out, err) in rows {
        let outside = Outside {
            file: &CAPITALS,
            input: b"abc",
            failing,
        };
        let words = ["grinc", "exec", "a", "--stats"];
        let is_so = outside.answers(rt.alloc(), &words, code, out, err)?;
        assert!(rt; is_so, "{err}");
    }
    Ok(())
}

#[test]
fn an_image_that_reads_and_writes(rt: HostRuntime) -> Result<(), Fail> {
    let rows = [
        (None, 7, "ABC", "grinc: exited 9\n"),
        (Some((Object::Input, 1)), 9, "A", "grinc: read fault\n"),
        (Some((Object::Out, 2)), 10, "AB", "grinc: write fault\n"),
    ];
    for (failing, code, out, err) in rows {
        let outside = Outside {
            file: &CAPITALS,
            input: b"abc",
            failing,
        };
        let is_so = outside.answers(rt.alloc(), &EXEC, code, out, err)?;
        assert!(rt; is_so, "{err}");
    }
    Ok(())
}
