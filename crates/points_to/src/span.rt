// How many fields the tags of a vector have.

use crate::origin::value_in;
use crate::tags::fields_of;
use flow_system::inclusion::{FlowSystem, Inclusion, Source};
use grin_syntax::program::{TagId, Val, Word};
use std::alloc::{AllocError, Global};

/// The tags of a vector: one with the most fields, and the least number of fields.
#[derive(Clone, Copy)]
pub struct TagSpan {
    pub most: Option<(u32, u32)>,
    pub least: Option<u32>,
}

impl TagSpan {
    /// No tags.
    pub fn none() -> TagSpan {
        TagSpan {
            most: None,
            least: None,
        }
    }

    fn is_higher(self, m: u32) -> bool {
        match self.most {
            None => true,
            Some((_, most)) => most < m,
        }
    }

    fn is_lower(self, m: u32) -> bool {
        match self.least {
            None => true,
            Some(least) => m < least,
        }
    }

    /// Whether a number of fields is more or less than all before.
    pub fn is_widened(self, m: u32) -> bool {
        self.is_higher(m) || self.is_lower(m)
    }

    /// The same with a tag with so many fields.
    pub fn with(self, t: u32, m: u32) -> TagSpan {
        TagSpan {
            most: if self.is_higher(m) {
                Some((t, m))
            } else {
                self.most
            },
            least: if self.is_lower(m) {
                Some(m)
            } else {
                self.least
            },
        }
    }

    /// A tag that has field i, counted from 1, if there is one.
    pub fn tag_with(self, i: u32) -> Option<u32> {
        match self.most {
            Some((t, m)) => if i <= m { Some(t) } else { None },
            None => None,
        }
    }

    /// Whether some tag has no field i, counted from 1.
    pub fn lacks(self, i: u32) -> bool {
        match self.least {
            Some(m) => i > m,
            None => false,
        }
    }
}

/// The spans of values, by their numbers.
#[derive(Drop)]
pub struct Spans {
    by_value: Vec<TagSpan>,
}

impl Spans {
    /// So many values, without tags.
    pub fn new(alloc: Global, count: u32) -> Result<Spans, AllocError> {
        let mut by_value = Vec::new(alloc);
        for _ in 0..count {
            by_value.push(TagSpan::none())?;
        }
        Ok(Spans { by_value })
    }

    /// Notes a tag of a vector. Says whether there are more or fewer fields than before.
    pub fn note(&mut self, system: &FlowSystem, n: u32, t: u32, width: usize) -> bool {
        if let Some(m) = fields_of(system, t) {
            if (m as usize) < width && (n as usize) < self.by_value.len() {
                let span = self.by_value[n as usize];
                self.by_value[n as usize] = span.with(t, m);
                return span.is_widened(m);
            }
        }
        false
    }

    /// The tag of a value that has a field for word i, and whether there is one that has not.
    pub fn tag_for(&self, system: &FlowSystem, n: u32, i: u32) -> (Option<u32>, bool) {
        if let Some(Inclusion::Flows(Source::Value(Val::Node(t, _)), _)) = system
            .inclusions
            .get(n as usize)
        {
            return match fields_of(system, t.0) {
                Some(m) => (if i <= m { Some(t.0) } else { None }, i > m),
                None => (None, false),
            };
        }
        if n as usize >= self.by_value.len() {
            return (None, false);
        }
        let span = self.by_value[n as usize];
        (span.tag_with(i), span.lacks(i))
    }
}

/// The tag of the value with a number, where that is a literal.
pub fn literal_tag(system: &FlowSystem, n: u32) -> Option<TagId> {
    match value_in(system.inclusions.get(n as usize)?) {
        Some(Val::Node(t, _)) => Some(*t),
        Some(Val::Vector(words)) => match words.get(0) {
            Some(Word::TagWord(t)) => Some(*t),
            _ => None,
        },
        _ => None,
    }
}

/// The variable that is word i of the value with a number, counted from 1.
pub fn variable_at(system: &FlowSystem, n: u32, i: u32) -> Option<u32> {
    let word = match value_in(system.inclusions.get(n as usize)?) {
        Some(Val::Node(_, words)) => {
            if i == 0 {
                return None;
            }
            words.get(i as usize - 1)?
        }
        Some(Val::Vector(words)) => words.get(i as usize)?,
        _ => {
            return None;
        }
    };
    match word {
        Word::Var(x) => Some(x.0),
        _ => None,
    }
}
