// Whether a piece of a program uses a variable.
#![tactic(auto, using(grin_syntax::proofs::TreeOf::tree_of), unfolding(crate::specs::Uses::act_mentions))]

ghost use Rattle.std.specs.Prelude.{◌≡◌, ◌||◌, map};
ghost use Rattle.grin_syntax.specs.Tree.{Code, act_of, before_of, arms_of, arm_of, code_of};
ghost use Rattle.pass_ground.specs.Uses.{word_is, words_use, val_uses, cells_use, act_mentions, code_mentions, arms_mention, act_uses, code_uses, code_uses_as_value};

use crate::truth::{both, either};
use grin_syntax::{Alt, Block, Cell, Op, Stmt, Val, VarId, Word};

/// The word is this variable.
pub fn word_is(x: VarId, word: Word) -> bool
    ensures { result ≡ word_is x.0 word }
{
    match word {
        Word::Var(y) => y.0 == x.0,
        Word::Lit(_) => false,
        Word::Global(_) => false,
        Word::TagWord(_) => false,
    }
}

fn words_use(x: VarId, words: &[Word]) -> bool
    ensures { result ≡ words_use x.0 words.now }
{
    let mut used = false;
    for word in words {
        used = either(used, word_is(x, *word));
    }
    used
}

/// The value uses the variable.
pub fn val_uses(x: VarId, v: &Val) -> bool
    ensures { result ≡ val_uses x.0 v.now }
{
    match v {
        Val::NodeVar(y) => y.0 == x.0,
        Val::Node(_, words) => words_use(x, words.as_slice()),
        Val::Vector(words) => words_use(x, words.as_slice()),
        Val::One(word) => word_is(x, *word),
    }
}

/// The cells use the variable.
pub fn cells_use(x: VarId, cells: &[Cell]) -> bool
    ensures { result ≡ cells_use x.0 cells.now }
{
    let mut used = false;
    for cell in cells {
        used = either(used, val_uses(x, &cell.val));
    }
    used
}

// Here and below, the cell of a fetch counts as a use only where `fetched` says so.
#[cycle(mentions)]
fn op_mentions(fetched: bool, x: VarId, op: &Op) -> bool
    ensures { result ≡ act_mentions fetched x.0 (act_of op.now) }
{
    match op {
        Op::Unit(v) => val_uses(x, v),
        Op::Fetch(a) => both(fetched, word_is(x, *a)),
        Op::FetchWord(a, _) => both(fetched, word_is(x, *a)),
        Op::Update(a, v) => either(word_is(x, *a), val_uses(x, v)),
        Op::Eval(a) => word_is(x, *a),
        Op::Apply(v, a) => either(val_uses(x, v), word_is(x, *a)),
        Op::Call(_, words) => words_use(x, words.as_slice()),
        Op::Prim(_, a, b) => either(word_is(x, *a), word_is(x, *b)),
        Op::Read => false,
        Op::Write(a) => word_is(x, *a),
        Op::Case(v, alts) => either(val_uses(x, v), alts_mention(fetched, x, alts.as_slice())),
        Op::Nested(block) => block_mentions(fetched, x, block),
        Op::Fail => false,
    }
}

#[cycle(mentions)]
fn alts_mention(fetched: bool, x: VarId, alts: &[Alt]) -> bool
    ensures { result ≡ arms_mention fetched x.0 (arms_of (map arm_of alts.now)) }
{
    let mut used = false;
    for alt in alts {
        used = either(used, block_mentions(fetched, x, &alt.body));
    }
    used
}

#[cycle(mentions)]
fn stmt_mentions(fetched: bool, x: VarId, stmt: &Stmt) -> bool
    ensures { (c : Code) → code_mentions fetched x.0 (before_of stmt.now c)
        ≡ (result || code_mentions fetched x.0 c) }
{
    match stmt {
        Stmt::Store(cells) => cells_use(x, cells.as_slice()),
        Stmt::Bind(_, op) => op_mentions(fetched, x, op),
    }
}

#[cycle(mentions)]
fn block_mentions(fetched: bool, x: VarId, block: &Block) -> bool
    ensures { result ≡ code_mentions fetched x.0 (code_of block.now) }
{
    let mut used = false;
    for stmt in block.stmts.as_slice() {
        used = either(used, stmt_mentions(fetched, x, stmt));
    }
    either(used, op_mentions(fetched, x, &block.last))
}

/// The operation uses the variable.
pub fn op_uses(x: VarId, op: &Op) -> bool
    ensures { result ≡ act_uses x.0 (act_of op.now) }
{
    op_mentions(true, x, op)
}

/// The block uses the variable.
pub fn block_uses(x: VarId, block: &Block) -> bool
    ensures { result ≡ code_uses x.0 (code_of block.now) }
{
    block_mentions(true, x, block)
}

/// The block uses the variable otherwise than as the cell of a fetch.
pub fn block_uses_as_value(x: VarId, block: &Block) -> bool
    ensures { result ≡ code_uses_as_value x.0 (code_of block.now) }
{
    block_mentions(false, x, block)
}
