// Blocks in which the updates have literal tags.
#![tactic(auto, using(grin_syntax::proofs::TreeOf::tree_of), unfolding(grin_rewrite::specs::Rewriting::rewrite_act))]

ghost use Rattle.std.specs.Prelude.{◌≡◌, ◌&&◌, [], map, length, nat_lt, nat_le, IfOk};
ghost use Rattle.grin_syntax.specs.Tree.{act_of, arm_of};
ghost use Rattle.points_to.specs.Found.{found};
ghost use Rattle.pass_ground.specs.OpenUpdates.{variable_of, tag_variable};
ghost use Rattle.update_special.specs.Known.{tags_by_solution};
ghost use Rattle.update_special.specs.Updates.{may_have_tag, with_literal_tag, max_case_tags, over_tags, if_few, by_variable, update_leaf};
ghost use Rattle.grin_rewrite.specs.Expanding.{alternative, expanded};
ghost use Rattle.grin_syntax.specs.Tree.{update};

use grin_rewrite::{Alternative, Rule, alternatives};
use grin_syntax::{Alt, Block, Op, Shape, TagId, Val, VarId, Word};
use points_to::Flow;
use seq::Seq;
use std::alloc::{AllocError, Global};

// An update with more tags than these stays.
const MOST_TAGS: usize = 8;

/// The tags that a variable may stand for, by a solution of the program's flow system.
#[derive(Drop)]
pub struct Tags<'a> {
    /// How many tags the program has.
    pub count: usize,
    /// The solution.
    pub flow: &'a Flow,
}

impl Rule for Tags<'_> {
    ghost becomes = { λ tags. update_leaf (tags_by_solution tags) };

    fn leaf(&self, alloc: Global, op: Op) -> Result<Op, AllocError> {
        match op {
            Op::Update(word, value) => self.update(alloc, word, value),
            other => Ok(other),
        }
    }
}

impl Tags<'_> {
    // An update, or a case over the tags of what it puts into the cell.
    fn update(&self, alloc: Global, word: Word, value: Val) -> Result<Op, AllocError>
        ensures { IfOk result (λ o. act_of o
            ≡ expanded (update word value) (by_variable (tags_by_solution self.now) word value
            (tag_variable value))) }
    {
        match tag_variable(&value) {
            Some(var) => {
                let tags = self.tags_of(alloc, var)?;
                over_tags(alloc, word, value, tags)
            }
            None => Ok(Op::Update(word, value)),
        }
    }

    /// The tags that a variable may stand for, ascending.
    pub fn tags_of(&self, alloc: Global, var: VarId) -> Result<Seq<TagId>, AllocError>
        ensures { IfOk result (λ ts. map (λ t. t.0) ts ≡ tags_by_solution self.now var.0) }
    {
        let mut made = Seq::new(alloc);
        for tag in self.flow.nodes_of(var) {
            if self.may_be(var, *tag) {
                made.push(*tag)?;
            }
        }
        Ok(made)
    }

    // Whether a variable may stand for a tag of the program.
    fn may_be(&self, var: VarId, tag: TagId) -> bool
        ensures { result ≡ (nat_lt tag.0 self.now.count && may_have_tag (found self.now.flow.now)
            var.0 tag.0) }
    {
        (tag.0 as usize) < self.count && self.flow.holds_tag(var, tag)
    }
}

// A case with an alternative for each of these tags, or the update where they are too many.
fn over_tags(alloc: Global, word: Word, value: Val, tags: Seq<TagId>) -> Result<Op, AllocError>
    ensures { IfOk result (λ o. act_of o
        ≡ expanded (update word value) (if_few word value (map (λ t. t.0) tags))) }
{
    if !are_few(&tags) {
        return Ok(Op::Update(word, value));
    }
    let update = OpenUpdate {
        word,
        value: &value,
    };
    let alts = alternatives(alloc, &update, &tags)?;
    Ok(Op::Case(value, alts))
}

fn are_few(tags: &Seq<TagId>) -> bool
    ensures { result ≡ nat_le (length (map (λ t. t.0) tags.now)) max_case_tags }
{
    tags.len() <= MOST_TAGS
}

// An update whose tag is a variable.
#[derive(Drop)]
struct OpenUpdate<'a> {
    word: Word,
    value: &'a Val,
}

impl Alternative for OpenUpdate<'_> {
    ghost at_tag = { λ o. alternative (over_tags o.word o.value.now []).each };

    // The update by a value with this tag.
    fn alternative(&self, alloc: Global, tag: TagId) -> Result<Alt, AllocError> {
        let update = Op::Update(self.word, with_tag(alloc, self.value, tag)?);
        Ok(Alt {
            pattern: Shape::Node(tag, Seq::new(alloc)),
            body: Block {
                stmts: Seq::new(alloc),
                last: Box::new(alloc, update)?,
            },
        })
    }
}

// A value with this tag in place of its first word.
fn with_tag(alloc: Global, value: &Val, tag: TagId) -> Result<Val, AllocError>
    ensures { IfOk result (λ v. v ≡ with_literal_tag tag.0 value.now) }
{
    match value {
        Val::Vector(words) => {
            let mut made = Seq::from_slice(alloc, words.as_slice())?;
            if !made.is_empty() {
                made.set(0, Word::TagWord(tag));
            }
            Ok(Val::Vector(made))
        }
        Val::One(_) => Ok(Val::One(Word::TagWord(tag))),
        Val::NodeVar(x) => Ok(Val::NodeVar(*x)),
        Val::Node(t, words) => Ok(Val::Node(*t, Seq::from_slice(alloc, words.as_slice())?)),
    }
}

/// The variable that stands for the tag of a value.
pub fn tag_variable(value: &Val) -> Option<VarId>
    ensures { result ≡ tag_variable value.now }
{
    match value {
        Val::Vector(words) => match words.get(0) {
            Some(word) => variable_of(word),
            None => None,
        },
        Val::One(word) => variable_of(word),
        Val::NodeVar(_) => None,
        Val::Node(_, _) => None,
    }
}

fn variable_of(word: &Word) -> Option<VarId>
    ensures { result ≡ variable_of word.now }
{
    match word {
        Word::Var(x) => Some(*x),
        Word::Lit(_) => None,
        Word::Global(_) => None,
        Word::TagWord(_) => None,
    }
}
