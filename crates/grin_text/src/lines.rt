// The lines of a listing, and the names that stand in it.

use crate::error::ReadError;
use std::alloc::Global;

// A tag of a head line, as it is written in the listing, with the number of its fields.
#[derive(Clone, Copy)]
pub(crate) struct TagName<'a> {
    pub name: &'a str,
    pub fields: u32,
}

// A line without its margin.
#[derive(Clone, Copy)]
pub(crate) struct Line<'a> {
    // Its place in the text, counted from 1.
    pub number: usize,
    // How many blocks it stands in: 0 for the first line of a procedure.
    pub depth: usize,
    // The number of the variable `v0` of its procedure.
    pub base: u32,
    // The number of the next place that makes cells.
    pub site: u32,
    pub text: &'a str,
}

// The lines of the procedures, and the names of what the whole text has.
#[derive(Drop)]
pub(crate) struct Lines<'a> {
    pub tags: Vec<TagName<'a>>,
    pub globals: Vec<Line<'a>>,
    pub procs: Vec<&'a str>,
    pub lines: Vec<Line<'a>>,
    pub start: Option<&'a str>,
    // Whether a variable may stand for a node.
    pub nodes: bool,
    site: u32,
    base: u32,
    // A number past those of the variables so far.
    past: u32,
    depth: usize,
}

impl<'a> Line<'a> {
    pub(crate) fn malformed(&self) -> ReadError {
        ReadError::Malformed(self.number)
    }
}

// The first word of a text, and the rest.
pub(crate) fn front(text: &str) -> (&str, &str) {
    text.split_once(' ').unwrap_or((text, ""))
}

// The number of a variable in its procedure.
pub(crate) fn rank(word: &str) -> Option<u32> {
    word.strip_prefix("v")?.parse::<u32>().ok()
}

// The number of the first variable behind those of a line, of which `v0` has the number `base`.
fn past(text: &str, base: u32, past: u32) -> u32 {
    let mut next = past;
    for word in text.split_whitespace() {
        if let Some(rank) = rank(bare(word)) {
            next = next.max(base.saturating_add(rank).saturating_add(1));
        }
    }
    next
}

// A word without brackets.
fn bare(word: &str) -> &str {
    word.trim_matches(|c: char| c == '[' || c == ']' || c == '(' || c == ')')
}

impl<'a> Lines<'a> {
    fn new(alloc: Global) -> Lines<'a> {
        Lines {
            tags: Vec::new(alloc),
            globals: Vec::new(alloc),
            procs: Vec::new(alloc),
            lines: Vec::new(alloc),
            start: None,
            nodes: true,
            site: 0,
            base: 0,
            past: 0,
            depth: 0,
        }
    }

    // The lines of a text.
    pub(crate) fn of(alloc: Global, text: &'a str) -> Result<Lines<'a>, ReadError> {
        let mut lines = Lines::new(alloc);
        let mut number: usize = 0;
        for text in text.lines() {
            number = number.saturating_add(1);
            lines.add(number, text)?;
        }
        Ok(lines)
    }

    fn add(&mut self, number: usize, text: &'a str) -> Result<(), ReadError> {
        let bare = text.trim_start_matches(' ');
        let line = Line {
            number,
            depth: text.len().saturating_sub(bare.len()) / 2,
            base: self.base,
            site: self.site,
            text: bare,
        };
        if bare.is_empty() {
            return Ok(());
        }
        if line.depth > 0 {
            return self.add_inner(line);
        }
        self.add_outer(line)
    }

    // A line of a block, which is not more than one level deeper than the one before it.
    fn add_inner(&mut self, line: Line<'a>) -> Result<(), ReadError> {
        if line.depth > self.depth.saturating_add(1) {
            return Err(line.malformed());
        }
        if line.text.contains(" = ") {
            self.site = self.site.saturating_add(1);
        }
        self.past = past(line.text, self.base, self.past);
        self.depth = line.depth;
        self.lines.push(line)?;
        Ok(())
    }

    // A head line, one of a global cell, or the first one of a procedure.
    fn add_outer(&mut self, line: Line<'a>) -> Result<(), ReadError> {
        let (name, rest) = front(line.text);
        if line.text.ends_with(" =") {
            return self.add_proc(line, name);
        }
        match name {
            "tags" => self.add_tags(line, rest),
            "start" => {
                self.start = Some(rest);
                Ok(())
            }
            "words" => {
                self.nodes = false;
                Ok(())
            }
            "global" => {
                self.site = self.site.saturating_add(1);
                self.globals.push(Line { text: rest, ..line })?;
                Ok(())
            }
            _ => Err(line.malformed()),
        }
    }

    fn add_tags(&mut self, line: Line<'a>, words: &'a str) -> Result<(), ReadError> {
        for word in words.split_whitespace() {
            let (name, fields) = word.split_once('/').ok_or(line.malformed())?;
            let fields = fields.parse::<u32>().ok().ok_or(line.malformed())?;
            self.tags.push(TagName { name, fields })?;
        }
        Ok(())
    }

    fn add_proc(&mut self, line: Line<'a>, name: &'a str) -> Result<(), ReadError> {
        self.base = self.past;
        self.past = past(line.text, self.base, self.past);
        self.depth = 0;
        self.procs.push(name)?;
        self.lines.push(Line {
            base: self.base,
            ..line
        })?;
        Ok(())
    }
}
