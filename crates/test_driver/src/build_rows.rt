//! Texts whose images are put, and whose code is listed.

use crate::outside::{LISTS, Object, Outside};
use rv32_isa::{decode, show};
use std::alloc::{AllocError, Global};
use std::process::Abort;
use std::test::Fail;
use worked_texts::QUEENS;

/// A program that prints two bytes.
const GREETS: &str = "data Nil 0; data Cons 2; main = Cons 72 (Cons 105 Nil);";

/// The words that build an image with the default heap and stack.
const BUILD: [&str; 3] = ["grinc", "build", "a"];

/// What these words put out where the file holds this text and the status of the process is 0; else
/// nothing.
fn put_out(alloc: Global, text: &str, words: &[&str]) -> Result<Vec<u8>, AllocError> {
    let ended = Outside::of(text.as_bytes()).run(alloc, words)?;
    if ended.is_done() {
        Vec::from_slice(alloc, ended.bytes())
    } else {
        Ok(Vec::new(alloc))
    }
}

#[test]
fn images_that_are_executed(rt: HostRuntime) -> Result<(), Fail> {
    let rows: [(&str, &[&str], u8, &str, &str); 5] = [
        ("main = Nil;", &BUILD, 0, "", ""),
        ("main = Cons 72 (Cons 105 Nil);", &BUILD, 0, "Hi", ""),
        ("main = Cons 65 1;", &BUILD, 7, "A", "grinc: exited 3\n"),
        (
            "main = Cons 72 (Cons 105 Nil);",
            &["grinc", "build", "a", "--heap", "1"],
            7,
            "",
            "grinc: exited 4\n",
        ),
        ("main = main;", &BUILD, 7, "", "grinc: exited 5\n"),
    ];
    for (text, words, code, out, err) in rows {
        let text = format!(in rt.alloc(); "{LISTS}{text}")?;
        let image = put_out(rt.alloc(), text.as_str(), words)?;
        // No image of no bytes is executed.
        let exec = ["grinc", "exec", "a"];
        let is_so = Outside::of(&image).answers(rt.alloc(), &exec, code, out, err)?;
        assert!(rt; is_so, "{text}");
    }
    Ok(())
}

#[test]
fn parts_of_an_image(rt: HostRuntime) -> Result<(), Fail> {
    let words = ["grinc", "build", "a", "--heap", "7", "--stack", "1027"];
    let image = put_out(rt.alloc(), GREETS, &words)?;
    // The second and the third program header: a heap of 7 cells of three words each, and the stack
    // rounded down to whole words, which ends at 0x78000000.
    let rows: [(usize, &[u8]); 6] = [
        (0, &[0x7F, b'E', b'L', b'F', 1, 1, 1, 0]),
        (16, &[2, 0, 0xF3, 0, 1, 0, 0, 0, 0, 0, 1, 0, 52, 0, 0, 0]),
        (92, &[0, 0, 0, 0x50]),
        (104, &[84, 0, 0, 0, 6, 0, 0, 0]),
        (124, &[0, 0xFC, 0xFF, 0x77]),
        (136, &[0, 4, 0, 0, 6, 0, 0, 0]),
    ];
    for (at, bytes) in rows {
        let part = image.get(at..).ok_or("a short image")?;
        assert!(rt; part.starts_with(bytes), "{at}");
    }
    are_cut_short(&rt, rt.alloc(), &words, &image)?;
    let image = put_out(rt.alloc(), GREETS, &BUILD)?;
    are_cut_short(&rt, rt.alloc(), &BUILD, &image)
}

/// These words build this image. Each put takes 4,096 bytes or what is left, so nothing of it is put
/// where the first put fails, and 4,096 bytes where the second does.
fn are_cut_short(rt: &impl Abort, alloc: Global, words: &[&str], image: &[u8]) -> Result<(), Fail> {
    for (call, bytes) in [(0, 0), (1, 4096)] {
        let outside = Outside {
            file: GREETS.as_bytes(),
            input: b"",
            failing: Some((Object::Out, call)),
        };
        let front = image.get(..bytes).ok_or("a short image")?;
        let is_so = outside.answers_bytes(alloc, words, 10, front, "grinc: write fault\n")?;
        assert!(rt; is_so, "{call}");
    }
    Ok(())
}

/// How the listing of the first text begins: the end of the frames, the first cell, and the end of
/// a million cells of three words.
const FIRST_LINES: &str = "\
00010000 78000137 lui x2, 491520
00010004 500001b7 lui x3, 327680
00010008 50b72237 lui x4, 330610
0001000c b0020213 addi x4, x4, -1280
";

/// The line of a word at an address, of which these are the bytes.
fn line_of(alloc: Global, address: u32, bytes: &[u8]) -> Result<Vec<u8>, Fail> {
    let mut word: u32 = 0;
    for byte in bytes.iter().rev() {
        word = word.wrapping_mul(256).wrapping_add(u32::from(*byte));
    }
    let front = format!(in alloc; "{address:08x} {word:08x} ")?;
    let shown = show(alloc, decode(word).ok_or("no instruction")?)?;
    let mut line = Vec::from_slice(alloc, front.as_bytes())?;
    line.extend_from_slice(shown.as_slice())?;
    Ok(line)
}

#[test]
fn code_of_the_default_image(rt: HostRuntime) -> Result<(), Fail> {
    for (text, first) in [(GREETS, FIRST_LINES), (QUEENS, "")] {
        let image = put_out(rt.alloc(), text, &BUILD)?;
        let listing = put_out(rt.alloc(), text, &["grinc", "list", "a", "--after", "code"])?;
        assert!(rt; listing.starts_with(first.as_bytes()));
        let mut lines = listing.split(|byte| *byte == b'\n');
        let code = image.get(4096..).ok_or("an image without code")?;
        let mut address: u32 = 0x0001_0000;
        for word in code.chunks(4) {
            let line = line_of(rt.alloc(), address, word)?;
            assert_eq!(rt; lines.next(), Some(line.as_slice()));
            address = address.wrapping_add(4);
        }
        assert_eq!(rt; lines.next(), Some(&b""[..]));
        assert!(rt; lines.next().is_none());
    }
    Ok(())
}
