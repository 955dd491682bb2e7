// Programs.

use crate::at::At;
use crate::error::ReadError;
use crate::levels::Levels;
use crate::lines::{Line, Lines, TagName, front};
use crate::pieces::Piece;
use crate::values::inside;
use grin_syntax::{GlobalCell, Grin, Proc, ProcId, Site, Tag, TagKind};
use seq::{Seq, Text};
use std::alloc::{AllocError, Global};

/// The program of a listing. A tag stands for the procedure of its name, if there is one, and the
/// start is given the first global cell, if it has a parameter. `Malformed` says which line cannot
/// be read.
pub fn program(alloc: Global, text: &str) -> Result<Grin, ReadError> {
    let all = Lines::of(alloc, text)?;
    let procs = procs(alloc, &all)?;
    let start = start(alloc, &all)?;
    Ok(Grin {
        tags: tags(alloc, &all)?,
        globals: globals(alloc, &all)?,
        argument: argument(&procs, start),
        procs,
        start,
    })
}

// The procedure that a run begins with.
fn start(alloc: Global, all: &Lines) -> Result<ProcId, ReadError> {
    let last = all.procs.last().copied();
    let name = all.start.or(last).ok_or(ReadError::Malformed(0))?;
    At::head(alloc, all).proc(name)
}

fn argument(procs: &Seq<Proc>, start: ProcId) -> Option<u32> {
    let proc = procs.get(start.0 as usize)?;
    if proc.params.is_empty() {
        None
    } else {
        Some(0)
    }
}

// The procedures, from the last line to the first, so that what stands below a line is there before
// it.
fn procs(alloc: Global, all: &Lines) -> Result<Seq<Proc>, ReadError> {
    let mut levels = Levels::new(alloc)?;
    let mut procs = Vec::new(alloc);
    for line in all.lines.iter().rev() {
        let at = At {
            alloc,
            all,
            line: *line,
        };
        let below = at.need(levels.take(line.depth.saturating_add(1)))?;
        if line.depth == 0 {
            procs.push(at.procedure(below)?)?;
        } else {
            levels.put(line.depth, at.piece(below)?)?;
        }
    }
    procs.reverse();
    Ok(Seq::from_vec(procs))
}

fn tags(alloc: Global, all: &Lines) -> Result<Seq<Tag>, ReadError> {
    let mut tags = Seq::new(alloc);
    for tag in all.tags.as_slice() {
        tags.push(tag_of(alloc, all, tag)?)?;
    }
    Ok(tags)
}

// The tag that is written so.
fn tag_of(alloc: Global, all: &Lines, tag: &TagName) -> Result<Tag, ReadError> {
    let (kind, rest) = kind(tag.name).ok_or(ReadError::Malformed(0))?;
    let name = if kind == TagKind::Part {
        rest.trim_start_matches(|c: char| c.is_ascii_digit())
    } else {
        rest
    };
    let missing = rest.strip_suffix(name).unwrap_or("").parse::<u32>();
    Ok(Tag {
        kind,
        name: text_of(alloc, name)?,
        missing: missing.unwrap_or(0),
        fields: tag.fields,
        proc: At::head(alloc, all).proc(name).ok(),
    })
}

// The kind of a tag by its first letter, and what follows.
fn kind(name: &str) -> Option<(TagKind, &str)> {
    if let Some(rest) = name.strip_prefix("C") {
        return Some((TagKind::Con, rest));
    }
    if let Some(rest) = name.strip_prefix("F") {
        return Some((TagKind::Fun, rest));
    }
    Some((TagKind::Part, name.strip_prefix("P")?))
}

fn text_of(alloc: Global, name: &str) -> Result<Text, AllocError> {
    Seq::from_slice(alloc, name.as_bytes())
}

fn globals(alloc: Global, all: &Lines) -> Result<Seq<GlobalCell>, ReadError> {
    let mut globals = Seq::new(alloc);
    for line in all.globals.as_slice() {
        let at = At {
            alloc,
            all,
            line: *line,
        };
        globals.push(at.global_cell()?)?;
    }
    Ok(globals)
}

impl<'a> At<'a> {
    // Where no line is read.
    fn head(alloc: Global, all: &'a Lines<'a>) -> At<'a> {
        let line = Line {
            number: 0,
            depth: 0,
            base: 0,
            site: 0,
            text: "",
        };
        At { alloc, all, line }
    }

    // The cell of a line, without its first word.
    fn global_cell(&self) -> Result<GlobalCell, ReadError> {
        let (name, node) = self.need(self.line.text.split_once(" = "))?;
        let tag = self.need(inside(node, "(", ")"))?;
        Ok(GlobalCell {
            name: text_of(self.alloc, name)?,
            site: Site(self.line.site),
            tag: self.tag(tag)?,
        })
    }

    // The procedure that the line begins, with what stands below it.
    fn procedure(&self, below: Vec<Piece>) -> Result<Proc, ReadError> {
        let (name, params) = front(self.need(self.line.text.strip_suffix(" ="))?);
        Ok(Proc {
            name: text_of(self.alloc, name)?,
            params: self.vars(params)?,
            body: self.block(below)?,
        })
    }
}
