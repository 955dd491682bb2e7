// The tags that an application meets.

ghost use Rattle.std.specs.Prelude.{◌≡◌, ◌&&◌, not, true, false, ℕ, map, Some, slice_get, MatchOption};
ghost use Rattle.std.specs.List.Sorted.{IsStrictlyIncreasing};
ghost use Rattle.grin_meaning.specs.Run.{is_part_kind};
ghost use Rattle.inline_theory.specs.Applications.{word_has, others_of};
ghost use Rattle.apply_inline.specs.Known.{program, solution};
ghost use Rattle.seq.specs.Lists.{In};
ghost use Rattle.apply_inline.specs.Applied.{words_fit, fits, meets_part, meets_other, is_nonempty, Candidates};

use flow_system::starts::is_part;
use grin_syntax::{Grin, Tag, TagId, Val, Word};
use points_to::Flow;
use std::slice;

/// A program and a solution of its flow system.
#[derive(Drop)]
pub(crate) struct Known<'a> {
    pub program: &'a Grin,
    pub flow: &'a Flow,
}

impl Known<'_> {
    /// The tag of this number, where it is that of a function that lacks arguments, and one that
    /// the solution has for a value. The number is one of the value's candidates.
    pub(crate) fn part(&self, v: &Val, t: TagId) -> Option<&Tag>
        ensures { MatchOption result (meets_part (program self.now) (solution self.now) v.now t.0
            ≡ false) (λ i. (meets_part (program self.now) (solution self.now) v.now t.0 ≡ true)
            × (slice_get self.now.program.now.tags t.0 ≡ Some i.now)) }
    {
        match self.program.tags.get(t.0 as usize) {
            Some(tag) => {
                if self.is_part(v, t, tag) {
                    Some(tag)
                } else {
                    None
                }
            }
            None => None,
        }
    }

    /// Whether the solution has a tag for a value that is not one of a function that lacks
    /// arguments.
    pub(crate) fn has_other(&self, v: &Val) -> bool
        ensures { result ≡ is_nonempty (others_of (program self.now) (solution self.now) v.now) }
    {
        for t in self.candidates(v) {
            if self.is_other(v, *t) {
                return true;
            }
        }
        false
    }

    fn is_part(&self, v: &Val, t: TagId, tag: &Tag) -> bool
        ensures { result ≡ (is_part_kind tag.now.kind && fits (program self.now) (solution self.now)
            v.now t.0 tag.now) }
    {
        is_part(tag.kind) && self.fits(v, t, tag)
    }

    fn is_other(&self, v: &Val, t: TagId) -> bool
        ensures { result ≡ meets_other (program self.now) (solution self.now) v.now t.0 }
    {
        match self.program.tags.get(t.0 as usize) {
            Some(tag) => !is_part(tag.kind) && self.fits(v, t, tag),
            None => false,
        }
    }

    /// Tags among which are all that the solution has for a value, ascending.
    pub(crate) fn candidates<'b>(&'b self, v: &'b Val) -> &'b [TagId]
        ensures { Candidates (program self.now) (solution self.now) v.now
            (map (λ t. t.0) result.now) }
    {
        match v {
            Val::NodeVar(x) => self.flow.nodes_of(*x),
            Val::Node(t, _) => slice::from_ref(t),
            Val::Vector(words) => match words.get(0) {
                Some(word) => self.first_tags(word),
                None => &[],
            },
            Val::One(word) => self.first_tags(word),
        }
    }

    // Tags among which are all that the solution has for a word, ascending.
    fn first_tags<'b>(&'b self, word: &'b Word) -> &'b [TagId]
        ensures ascending { IsStrictlyIncreasing (map (λ t. t.0) result.now) }
        ensures all { (t : ℕ) → word_has (program self.now) (solution self.now) t word.now ≡ true
            → In t (map (λ t. t.0) result.now) }
    {
        match word {
            Word::Var(x) => self.flow.nodes_of(*x),
            Word::TagWord(t) => slice::from_ref(t),
            Word::Lit(_) => &[],
            Word::Global(_) => &[],
        }
    }

    // Whether the solution has one of a value's candidates for the value.
    fn fits(&self, v: &Val, t: TagId, tag: &Tag) -> bool
        ensures { result ≡ fits (program self.now) (solution self.now) v.now t.0 tag.now }
    {
        match v {
            Val::NodeVar(_) => true,
            Val::Node(own, _) => t.0 == own.0,
            Val::Vector(words) => self.words_fit(words.as_slice(), t, tag.fields),
            Val::One(word) => self.word_has(t, word) && tag.fields == 0,
        }
    }

    fn words_fit(&self, words: &[Word], t: TagId, fields: u32) -> bool
        ensures { result ≡ words_fit (program self.now) (solution self.now) words.now t.0 fields }
    {
        match words.first() {
            Some(word) => self.word_has(t, word) && (fields as usize) < words.len(),
            None => false,
        }
    }

    fn word_has(&self, t: TagId, word: &Word) -> bool
        ensures { result ≡ word_has (program self.now) (solution self.now) t.0 word.now }
    {
        match word {
            Word::Var(x) => self.flow.holds_tag(*x, t),
            Word::TagWord(own) => t.0 == own.0,
            Word::Lit(_) => false,
            Word::Global(_) => false,
        }
    }
}
