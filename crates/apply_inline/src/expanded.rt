// The size of a program once its evaluations and applications are inlined, from its text.
// A sum that passes the largest number stays there.
#![tactic(auto, using(grin_syntax::proofs::TreeOf::tree_of), unfolding(inline_theory::specs::Expanded::expanded_act, inline_theory::specs::Size::act_size))]

ghost use Rattle.std.specs.Prelude.{◌≡◌, ◌+◌, ℕ, Bool, true, false, List, map, Some, slice_get, MatchOption};
ghost use Rattle.std.specs.List.{filter};
ghost use Rattle.grin_syntax.specs.declared.program.Tag.{Tag};
ghost use Rattle.grin_syntax.specs.Tree.{Code, act_of, before_of, arm_of, arms_of, code_of, procedure_of};
ghost use Rattle.inline_theory.specs.Applications.{part_tags_of};
ghost use Rattle.inline_theory.specs.Size.{val_size, target_size, shape_size, cells_size, total};
ghost use Rattle.apply_inline.specs.Applied.{meets_part};
ghost use Rattle.apply_inline.specs.Known.{program, solution};
ghost use Rattle.eval_inline.specs.Met.{is_tag};
ghost use Rattle.inline_theory.specs.Expanded.{saturated_at_64_bits, eval_body_size, evaluation_size, applied_size, tags_size, application_size, expanded_act, expanded_code, expanded_arms, expanded_procedure};

use crate::known::Known;
use eval_inline::met::tags_met;
use grin_syntax::{
    Alt, Block, Cell, Op, Proc, Shape, Stmt, Tag, TagId, TagKind, Target, Val, Word,
};

impl Known<'_> {
    /// The size of these procedures once they are inlined.
    pub(crate) fn procs_size(&self, procs: &[Proc]) -> u64
        ensures { result ≡ saturated_at_64_bits (total (expanded_procedure (program self.now) (solution self.now))
            (map procedure_of procs.now)) }
    {
        let mut size = 0u64;
        for proc in procs {
            size = size.saturating_add(self.proc_size(proc));
        }
        size
    }

    fn proc_size(&self, proc: &Proc) -> u64
        ensures { result ≡ saturated_at_64_bits (expanded_procedure (program self.now) (solution self.now)
            (procedure_of proc.now)) }
    {
        let params = proc.params.len() as u64;
        params.saturating_add(self.block_size(&proc.body))
    }

    #[cycle(size)]
    fn block_size(&self, block: &Block) -> u64
        ensures { result ≡ saturated_at_64_bits (expanded_code (program self.now) (solution self.now)
            (code_of block.now)) }
    {
        let mut size = 0u64;
        for stmt in block.stmts.as_slice() {
            size = size.saturating_add(self.stmt_size(stmt));
        }
        size.saturating_add(self.op_size(&block.last))
    }

    #[cycle(size)]
    fn stmt_size(&self, stmt: &Stmt) -> u64
        ensures { (c : Code) → saturated_at_64_bits (expanded_code (program self.now) (solution self.now)
            (before_of stmt.now c)) ≡ saturated_at_64_bits (result + expanded_code (program self.now)
            (solution self.now) c) }
    {
        match stmt {
            Stmt::Store(cells) => cells_size(cells.as_slice()),
            Stmt::Bind(target, op) => target_size(target).saturating_add(self.op_size(op)),
        }
    }

    #[cycle(size)]
    fn alts_size(&self, alts: &[Alt]) -> u64
        ensures { result ≡ saturated_at_64_bits (expanded_arms (program self.now) (solution self.now)
            (arms_of (map arm_of alts.now))) }
    {
        let mut size = 0u64;
        for alt in alts {
            let pattern = shape_size(&alt.pattern);
            size = size.saturating_add(pattern.saturating_add(self.block_size(&alt.body)));
        }
        size
    }

    #[cycle(size)]
    fn op_size(&self, op: &Op) -> u64
        ensures { result ≡ saturated_at_64_bits (expanded_act (program self.now) (solution self.now)
            (act_of op.now)) }
    {
        match op {
            Op::Unit(v) => val_size(v).saturating_add(1),
            Op::Fetch(_) => 2,
            Op::FetchWord(_, _) => 2,
            Op::Update(_, v) => val_size(v).saturating_add(2),
            Op::Eval(word) => self.evaluation_size(word),
            Op::Apply(v, _) => self.application_size(v),
            Op::Call(_, words) => (words.len() as u64).saturating_add(1),
            Op::Prim(_, _, _) => 3,
            Op::Read => 1,
            Op::Write(_) => 2,
            Op::Case(v, alts) => {
                let scrutinee = val_size(v).saturating_add(1);
                scrutinee.saturating_add(self.alts_size(alts.as_slice()))
            }
            Op::Nested(block) => self.block_size(block).saturating_add(1),
            Op::Fail => 1,
        }
    }

    // The fetch that binds a node variable, and the case on it.
    fn evaluation_size(&self, word: &Word) -> u64
        ensures { result ≡ saturated_at_64_bits (evaluation_size (program self.now) (solution self.now)
            word.now) }
    {
        let tags = tags_met(self.program, self.flow, word);
        tags_size(&Evaluated { known: self }, tags).saturating_add(5)
    }

    fn application_size(&self, v: &Val) -> u64
        ensures { result ≡ saturated_at_64_bits (application_size (program self.now) (solution self.now) v.now) }
    {
        let scrutinee = val_size(v).saturating_add(1);
        let last = u64::from(self.has_other(v));
        scrutinee
            .saturating_add(self.parts_size(v))
            .saturating_add(last)
    }

    // The alternatives of an application.
    fn parts_size(&self, v: &Val) -> u64
        ensures { result ≡ saturated_at_64_bits (tags_size applied_size self.now.program.now.tags
            (part_tags_of (program self.now) (solution self.now) v.now)) }
    {
        let applied = Applied {
            known: self,
            value: v,
        };
        tags_size(&applied, self.candidates(v))
    }
}

// What opens a node by a case, as far as sizes go.
trait OpensBySize {
    ghost tags: { Self → List Tag };

    ghost meets: { Self → ℕ → Bool };

    ghost size: { Self → Tag → ℕ };

    // What is known of a tag that the node may have.
    fn met(&self, tag: TagId) -> Option<&Tag>
        ensures { MatchOption result (meets self.now tag.0 ≡ false) (λ i.
            (meets self.now tag.0 ≡ true) × (slice_get (tags self.now) tag.0 ≡ Some i.now)) };

    // The size of what is done with a node of a tag.
    fn body_size(&self, tag: &Tag) -> u64
        ensures { result ≡ size self.now tag.now };
}

// The alternatives for these tags.
fn tags_size<O: OpensBySize>(of: &O, tags: &[TagId]) -> u64
    ensures { result ≡ saturated_at_64_bits (tags_size (O.size of.now) (O.tags of.now)
        (filter (O.meets of.now) (map (λ t. t.0) tags.now))) }
{
    let mut size = 0u64;
    for t in tags {
        if let Some(tag) = of.met(*t) {
            let fields = u64::from(tag.fields);
            size = size.saturating_add(of.body_size(tag).saturating_add(fields));
        }
    }
    size
}

#[derive(Drop)]
struct Evaluated<'a, 'b> {
    known: &'b Known<'a>,
}

impl OpensBySize for Evaluated<'_, '_> {
    ghost tags = { λ k. k.known.now.program.now.tags };

    ghost meets = { λ k. is_tag (program k.known.now) };

    ghost size = { λ k. eval_body_size };

    fn met(&self, tag: TagId) -> Option<&Tag> {
        self.known.program.tags.get(tag.0 as usize)
    }

    fn body_size(&self, tag: &Tag) -> u64 {
        eval_body_size(tag)
    }
}

#[derive(Drop)]
struct Applied<'a, 'b> {
    known: &'b Known<'a>,
    value: &'b Val,
}

impl OpensBySize for Applied<'_, '_> {
    ghost tags = { λ k. k.known.now.program.now.tags };

    ghost meets = { λ k. meets_part (program k.known.now) (solution k.known.now) k.value.now };

    ghost size = { λ k. applied_size };

    fn met(&self, tag: TagId) -> Option<&Tag> {
        self.known.part(self.value, tag)
    }

    fn body_size(&self, tag: &Tag) -> u64 {
        applied_size(tag)
    }
}

// What is done with a node that lacked an argument and has it now.
fn applied_size(tag: &Tag) -> u64
    ensures { result ≡ applied_size tag.now }
{
    match tag.proc {
        Some(_) => match tag.missing {
            0 => 1,
            _ => u64::from(tag.fields) + 2,
        },
        None => 1,
    }
}

// What is done with a node of this tag once it is fetched.
fn eval_body_size(tag: &Tag) -> u64
    ensures { result ≡ eval_body_size tag.now }
{
    match tag.kind {
        TagKind::Fun => match tag.proc {
            Some(_) => u64::from(tag.fields) + 7,
            None => 1,
        },
        TagKind::Con => 2,
        TagKind::Part => 2,
    }
}

fn val_size(v: &Val) -> u64
    ensures { result ≡ val_size v.now }
{
    match v {
        Val::NodeVar(_) => 1,
        Val::Node(_, words) => words.len() as u64,
        Val::Vector(words) => words.len() as u64,
        Val::One(_) => 1,
    }
}

fn target_size(target: &Target) -> u64
    ensures { result ≡ target_size target.now }
{
    match target {
        Target::Nothing => 0,
        Target::Node(_) => 1,
        Target::One(_) => 1,
        Target::Vector(xs) => xs.len() as u64,
    }
}

fn shape_size(shape: &Shape) -> u64
    ensures { result ≡ shape_size shape.now }
{
    match shape {
        Shape::Node(_, xs) => xs.len() as u64,
        Shape::Int(_) => 0,
        Shape::Else => 0,
    }
}

fn cells_size(cells: &[Cell]) -> u64
    ensures { result ≡ saturated_at_64_bits (cells_size cells.now) }
{
    let mut size = 0u64;
    for cell in cells {
        size = size.saturating_add(val_size(&cell.val).saturating_add(2));
    }
    size
}
