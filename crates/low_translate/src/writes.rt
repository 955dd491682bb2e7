// How many words of its cells a program writes.
#![tactic(auto, using(grin_syntax::proofs::TreeOf::tree_of), unfolding(crate::specs::Writes::act_writes))]

ghost use Rattle.std.specs.Prelude.{◌≡◌, map, max};
ghost use Rattle.grin_syntax.specs.Tree.{Code, act_of, before_of, arm_of, arms_of, code_of, procedure_of};
ghost use Rattle.low_translate.specs.Writes.{behind, vector_fields, fields_in, cells_write, act_writes, code_writes, arms_write, procs_write};

use grin_syntax::{Alt, Block, Cell, Op, Proc, Stmt, Tag, Val, Word};

// How many of so many words behind its first one a vector writes: past the fields of a literal tag
// it has only zeros.
fn behind(tags: &[Tag], first: Word, count: usize) -> usize
    ensures { result ≡ behind tags.now first count }
{
    match first {
        Word::TagWord(tag) => match tags.get(tag.0 as usize) {
            Some(tag) => count.min(tag.fields as usize),
            None => count,
        },
        Word::Lit(_) => count,
        Word::Var(_) => count,
        Word::Global(_) => count,
    }
}

fn vector_fields(tags: &[Tag], words: &[Word]) -> usize
    ensures { result ≡ vector_fields tags.now words.now }
{
    match words {
        [first, rest @ ..] => behind(tags, *first, rest.len()),
        [] => 0,
    }
}

// How many words a value writes behind the first one.
fn fields_in(tags: &[Tag], v: &Val) -> usize
    ensures { result ≡ fields_in tags.now v.now }
{
    match v {
        Val::NodeVar(_) => 0,
        Val::Node(_, words) => words.len(),
        Val::Vector(words) => vector_fields(tags, words.as_slice()),
        Val::One(_) => 0,
    }
}

// The most fields of new cells.
fn cells(tags: &[Tag], cells: &[Cell]) -> usize
    ensures { result ≡ cells_write tags.now cells.now }
{
    let mut most = 0;
    for cell in cells {
        most = fields_in(tags, &cell.val).max(most);
    }
    most
}

#[cycle(writes)]
fn block(tags: &[Tag], block: &Block) -> usize
    ensures { result ≡ code_writes tags.now (code_of block.now) }
{
    let mut most = 0;
    for stmt in block.stmts.as_slice() {
        most = statement(tags, stmt).max(most);
    }
    operation(tags, &block.last).max(most)
}

#[cycle(writes)]
fn statement(tags: &[Tag], stmt: &Stmt) -> usize
    ensures { (b : Code) → code_writes tags.now (before_of stmt.now b) ≡ max result (code_writes tags.now b) }
{
    match stmt {
        Stmt::Store(stored) => cells(tags, stored.as_slice()),
        Stmt::Bind(_, op) => operation(tags, op),
    }
}

#[cycle(writes)]
fn alternatives(tags: &[Tag], alts: &[Alt]) -> usize
    ensures { result ≡ arms_write tags.now (arms_of (map arm_of alts.now)) }
{
    let mut most = 0;
    for alt in alts {
        most = block(tags, &alt.body).max(most);
    }
    most
}

#[cycle(writes)]
fn operation(tags: &[Tag], op: &Op) -> usize
    ensures { result ≡ act_writes tags.now (act_of op.now) }
{
    match op {
        Op::Update(_, v) => fields_in(tags, v),
        Op::Case(_, alts) => alternatives(tags, alts.as_slice()),
        Op::Nested(inner) => block(tags, inner),
        Op::Unit(_)
        | Op::Fetch(_)
        | Op::FetchWord(_, _)
        | Op::Eval(_)
        | Op::Apply(_, _)
        | Op::Call(_, _)
        | Op::Prim(_, _, _)
        | Op::Read
        | Op::Write(_)
        | Op::Fail => 0,
    }
}

/// The most fields that a program writes into a cell.
pub(crate) fn most_written(tags: &[Tag], procs: &[Proc]) -> usize
    ensures { result ≡ procs_write tags.now (map procedure_of procs.now) }
{
    let mut most = 0;
    for proc in procs {
        most = block(tags, &proc.body).max(most);
    }
    most
}
