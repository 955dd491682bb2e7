// The listing of a program.
#![tactic(auto)]

ghost use Rattle.std.specs.Prelude.{◌≡◌, ◌++◌, OnOk, IfOk, codes, slice_get};
ghost use Rattle.std.specs.List.{flat_map};
ghost use Rattle.std.specs.Ordering.{nat_cmp};
ghost use Rattle.std.specs.BTreeMap as tree;
ghost use Rattle.grin_syntax.specs.Tree.{act_of, code_of, procedure_of, program_of};
ghost use Rattle.grin_syntax.specs.Binders.{procedure_vars};
ghost use Rattle.grin_syntax.specs.Listing.{place, tag_name, global_line, procedure_name, operator, deeper, first_line, spaced, joined, var_text, word_text, val_text, target_text, shape_text, cell_line, act_text, rest_text, code_text, procedure_text, listing};
ghost use Rattle.grin_syntax.specs.Statements.{stmt_text, alt_text};

use crate::listing_text::ListingText;
use crate::program::{
    Alt, Block, Cell, GlobalCell, Grin, Op, PrimOp, Proc, ProcId, Shape, Stmt, TagId, TagKind,
    Target, Val, VarId, Word,
};
use crate::ranks::{Ranks, ranks};
use std::alloc::{AllocError, Global};

/// The listing of a program: a line for each global cell, then each procedure after an empty line,
/// its variables named `v0`, `v1` and so on in the order of the text. Time and memory are linear in
/// the listing, but for the ordered table of a procedure's variables.
pub fn list(alloc: Global, g: &Grin) -> Result<Vec<u8>, AllocError>
    ensures { IfOk result (λ text. text.items ≡ listing (program_of g.now)) }
{
    let mut text = ListingText::new(alloc);
    put_globals(&mut text, g)?;
    for proc in g.procs.as_slice() {
        let ranks = ranks(alloc, proc)?;
        put_proc(alloc, &mut text, g, &ranks, proc)?;
    }
    Ok(text.into_vec())
}

fn put_globals(text: &mut ListingText, g: &Grin) -> Result<(), AllocError>
    ensures { OnOk result (text.new ≡ text.old
        ++ flat_map (global_line (program_of g.now)) g.now.globals) }
{
    for cell in g.globals.as_slice() {
        put_global(text, g, cell)?;
    }
    Ok(())
}

fn put_global(text: &mut ListingText, g: &Grin, cell: &GlobalCell) -> Result<(), AllocError>
    ensures { OnOk result (text.new ≡ text.old ++ global_line (program_of g.now) cell.now) }
{
    text.put("global ")?;
    text.bytes(cell.name.as_slice())?;
    text.put(" = (")?;
    put_tag(text, g, cell.tag)?;
    text.put(")\n")
}

fn put_proc(
    alloc: Global,
    text: &mut ListingText,
    g: &Grin,
    ranks: &Ranks,
    proc: &Proc,
) -> Result<(), AllocError>
    requires { tree.get nat_cmp ranks.now
        ≡ (λ x. place x (procedure_vars (procedure_of proc.now))) }
    ensures { OnOk result (text.new ≡ text.old
        ++ procedure_text (program_of g.now) (procedure_of proc.now)) }
{
    let mut margin = ListingText::new(alloc);
    margin.deepen()?;
    text.put("\n")?;
    text.bytes(proc.name.as_slice())?;
    put_vars(text, ranks, proc.params.as_slice())?;
    text.put(" =\n")?;
    put_block(text, &mut margin, g, ranks, &proc.body)?;
    Ok(())
}

// The letter of a tag's kind and the tag's name.
fn put_tag(text: &mut ListingText, g: &Grin, tag: TagId) -> Result<(), AllocError>
    ensures { OnOk result (text.new ≡ text.old ++ tag_name (program_of g.now) tag) }
{
    match g.tags.get(tag.0 as usize) {
        Some(tag) => {
            match tag.kind {
                TagKind::Con => text.put("C")?,
                TagKind::Fun => text.put("F")?,
                TagKind::Part => {
                    text.put("P")?;
                    text.number(tag.missing as usize)?;
                }
            }
            text.bytes(tag.name.as_slice())
        }
        None => Ok(()),
    }
}

#[tactic(auto, unfolding(crate::specs::Listing::var_text))]
fn put_var(text: &mut ListingText, ranks: &Ranks, var: VarId) -> Result<(), AllocError>
    ensures { OnOk result (text.new ≡ text.old ++ var_text (tree.get nat_cmp ranks.now) var) }
{
    text.put("v")?;
    match ranks.get(&var.0) {
        Some(rank) => text.number(*rank),
        None => Ok(()),
    }
}

// Each variable after a space.
fn put_vars(text: &mut ListingText, ranks: &Ranks, vars: &[VarId]) -> Result<(), AllocError>
    ensures { OnOk result (text.new ≡ text.old
        ++ spaced (var_text (tree.get nat_cmp ranks.now)) vars.now) }
{
    for var in vars {
        text.put(" ")?;
        put_var(text, ranks, *var)?;
    }
    Ok(())
}

// The variables with a space between them.
fn put_joined_vars(text: &mut ListingText, ranks: &Ranks, vars: &[VarId]) -> Result<(), AllocError>
    ensures { OnOk result (text.new ≡ text.old
        ++ joined (var_text (tree.get nat_cmp ranks.now)) vars.now) }
{
    match vars {
        [] => Ok(()),
        [first, rest @ ..] => {
            put_var(text, ranks, *first)?;
            put_vars(text, ranks, rest)
        }
    }
}

fn put_word(text: &mut ListingText, g: &Grin, ranks: &Ranks, word: Word) -> Result<(), AllocError>
    ensures { OnOk result (text.new ≡ text.old
        ++ word_text (program_of g.now) (tree.get nat_cmp ranks.now) word) }
{
    match word {
        Word::Lit(number) => text.signed(number),
        Word::Var(var) => put_var(text, ranks, var),
        Word::Global(at) => match g.globals.get(at as usize) {
            Some(cell) => text.bytes(cell.name.as_slice()),
            None => Ok(()),
        },
        Word::TagWord(tag) => {
            text.put("#")?;
            put_tag(text, g, tag)
        }
    }
}

// Each word after a space.
fn put_words(
    text: &mut ListingText,
    g: &Grin,
    ranks: &Ranks,
    words: &[Word],
) -> Result<(), AllocError>
    ensures { OnOk result (text.new ≡ text.old
        ++ spaced (word_text (program_of g.now) (tree.get nat_cmp ranks.now)) words.now) }
{
    for word in words {
        text.put(" ")?;
        put_word(text, g, ranks, *word)?;
    }
    Ok(())
}

// The words with a space between them.
fn put_joined(
    text: &mut ListingText,
    g: &Grin,
    ranks: &Ranks,
    words: &[Word],
) -> Result<(), AllocError>
    ensures { OnOk result (text.new ≡ text.old
        ++ joined (word_text (program_of g.now) (tree.get nat_cmp ranks.now)) words.now) }
{
    match words {
        [] => Ok(()),
        [first, rest @ ..] => {
            put_word(text, g, ranks, *first)?;
            put_words(text, g, ranks, rest)
        }
    }
}

fn put_val(text: &mut ListingText, g: &Grin, ranks: &Ranks, val: &Val) -> Result<(), AllocError>
    ensures { OnOk result (text.new ≡ text.old
        ++ val_text (program_of g.now) (tree.get nat_cmp ranks.now) val.now) }
{
    match val {
        Val::NodeVar(var) => put_var(text, ranks, *var),
        Val::Node(tag, words) => {
            text.put("(")?;
            put_tag(text, g, *tag)?;
            put_words(text, g, ranks, words.as_slice())?;
            text.put(")")
        }
        Val::Vector(words) => {
            text.put("[")?;
            put_joined(text, g, ranks, words.as_slice())?;
            text.put("]")
        }
        Val::One(word) => put_word(text, g, ranks, *word),
    }
}

fn put_target(text: &mut ListingText, ranks: &Ranks, target: &Target) -> Result<(), AllocError>
    ensures { OnOk result (text.new ≡ text.old
        ++ target_text (tree.get nat_cmp ranks.now) target.now) }
{
    match target {
        Target::Nothing => Ok(()),
        Target::Node(var) => {
            put_var(text, ranks, *var)?;
            text.put(" <- ")
        }
        Target::One(var) => {
            put_var(text, ranks, *var)?;
            text.put(" <- ")
        }
        Target::Vector(vars) => {
            text.put("[")?;
            put_joined_vars(text, ranks, vars.as_slice())?;
            text.put("] <- ")
        }
    }
}

fn put_shape(
    text: &mut ListingText,
    g: &Grin,
    ranks: &Ranks,
    shape: &Shape,
) -> Result<(), AllocError>
    ensures { OnOk result (text.new ≡ text.old
        ++ shape_text (program_of g.now) (tree.get nat_cmp ranks.now) shape.now) }
{
    match shape {
        Shape::Node(tag, vars) => {
            text.put("(")?;
            put_tag(text, g, *tag)?;
            put_vars(text, ranks, vars.as_slice())?;
            text.put(")")
        }
        Shape::Int(number) => {
            text.put("(CInt ")?;
            text.signed(*number)?;
            text.put(")")
        }
        Shape::Else => text.put("else"),
    }
}

fn put_cell(
    text: &mut ListingText,
    margin: &ListingText,
    g: &Grin,
    ranks: &Ranks,
    cell: &Cell,
) -> Result<(), AllocError>
    ensures { OnOk result (text.new ≡ text.old
        ++ cell_line (program_of g.now) (tree.get nat_cmp ranks.now) margin.now cell.now) }
{
    text.append(margin)?;
    put_var(text, ranks, cell.var)?;
    text.put(" = ")?;
    put_val(text, g, ranks, &cell.val)?;
    text.put("\n")
}

fn put_cells(
    text: &mut ListingText,
    margin: &ListingText,
    g: &Grin,
    ranks: &Ranks,
    cells: &[Cell],
) -> Result<(), AllocError>
    ensures { OnOk result (text.new ≡ text.old
        ++ flat_map (cell_line (program_of g.now) (tree.get nat_cmp ranks.now) margin.now)
        cells.now) }
{
    for cell in cells {
        put_cell(text, margin, g, ranks, cell)?;
    }
    Ok(())
}

fn operator_name(op: PrimOp) -> &'static str
    ensures { result.now ≡ operator op }
{
    match op {
        PrimOp::Add => "add",
        PrimOp::Sub => "sub",
        PrimOp::Mul => "mul",
        PrimOp::Quot => "quot",
        PrimOp::Rem => "rem",
        PrimOp::Eq => "eq",
        PrimOp::Lt => "lt",
    }
}

fn put_name(text: &mut ListingText, g: &Grin, proc: ProcId) -> Result<(), AllocError>
    ensures { OnOk result (text.new ≡ text.old
        ++ procedure_name (slice_get (program_of g.now).procs proc.0)) }
{
    match g.procs.get(proc.0 as usize) {
        Some(proc) => text.bytes(proc.name.as_slice()),
        None => Ok(()),
    }
}

fn put_word_after(
    text: &mut ListingText,
    lead: &str,
    g: &Grin,
    ranks: &Ranks,
    word: Word,
) -> Result<(), AllocError>
    ensures { OnOk result (text.new ≡ text.old ++ lead.now
        ++ word_text (program_of g.now) (tree.get nat_cmp ranks.now) word) }
{
    text.put(lead)?;
    put_word(text, g, ranks, word)
}

fn put_val_after(
    text: &mut ListingText,
    lead: &str,
    g: &Grin,
    ranks: &Ranks,
    val: &Val,
) -> Result<(), AllocError>
    ensures { OnOk result (text.new ≡ text.old ++ lead.now
        ++ val_text (program_of g.now) (tree.get nat_cmp ranks.now) val.now) }
{
    text.put(lead)?;
    put_val(text, g, ranks, val)
}

fn put_call(
    text: &mut ListingText,
    g: &Grin,
    ranks: &Ranks,
    proc: ProcId,
    words: &[Word],
) -> Result<(), AllocError>
    ensures { OnOk result (text.new ≡ text.old ++ codes "call "
        ++ procedure_name (slice_get (program_of g.now).procs proc.0)
        ++ spaced (word_text (program_of g.now) (tree.get nat_cmp ranks.now)) words.now) }
{
    text.put("call ")?;
    put_name(text, g, proc)?;
    put_words(text, g, ranks, words)
}

fn put_prim(
    text: &mut ListingText,
    g: &Grin,
    ranks: &Ranks,
    op: PrimOp,
    left: Word,
    right: Word,
) -> Result<(), AllocError>
    ensures { OnOk result (text.new ≡ text.old ++ operator op
        ++ codes " " ++ word_text (program_of g.now) (tree.get nat_cmp ranks.now) left
        ++ codes " " ++ word_text (program_of g.now) (tree.get nat_cmp ranks.now) right) }
{
    text.put(operator_name(op))?;
    put_word_after(text, " ", g, ranks, left)?;
    put_word_after(text, " ", g, ranks, right)
}

// The first line of an operation.
fn put_first_line(
    text: &mut ListingText,
    g: &Grin,
    ranks: &Ranks,
    op: &Op,
) -> Result<(), AllocError>
    ensures { OnOk result (text.new ≡ text.old
        ++ first_line (program_of g.now) (tree.get nat_cmp ranks.now) (act_of op.now)) }
{
    match op {
        Op::Unit(val) => put_val_after(text, "unit ", g, ranks, val),
        Op::Fetch(word) => put_word_after(text, "fetch ", g, ranks, *word),
        Op::FetchWord(word, at) => {
            put_word_after(text, "fetch ", g, ranks, *word)?;
            text.put(" ")?;
            text.number(*at as usize)
        }
        Op::Update(word, val) => {
            put_word_after(text, "update ", g, ranks, *word)?;
            put_val_after(text, " ", g, ranks, val)
        }
        Op::Eval(word) => put_word_after(text, "eval ", g, ranks, *word),
        Op::Apply(val, word) => {
            put_val_after(text, "apply ", g, ranks, val)?;
            put_word_after(text, " ", g, ranks, *word)
        }
        Op::Call(proc, words) => put_call(text, g, ranks, *proc, words.as_slice()),
        Op::Prim(op, left, right) => put_prim(text, g, ranks, *op, *left, *right),
        Op::Read => text.put("read"),
        Op::Write(word) => put_word_after(text, "write ", g, ranks, *word),
        Op::Fail => text.put("fail"),
        Op::Case(val, _) => {
            put_val_after(text, "case ", g, ranks, val)?;
            text.put(" of")
        }
        Op::Nested(_) => text.put("do"),
    }
}

#[cycle(lines)]
fn put_op(
    text: &mut ListingText,
    margin: &mut ListingText,
    g: &Grin,
    ranks: &Ranks,
    op: &Op,
) -> Result<(), AllocError>
    ensures { OnOk result ((text.new ≡ text.old
        ++ act_text (program_of g.now) (tree.get nat_cmp ranks.now) margin.old (act_of op.now))
        × (margin.new ≡ margin.old)) }
{
    put_first_line(text, g, ranks, op)?;
    text.put("\n")?;
    put_rest(text, margin, g, ranks, op)?;
    Ok(())
}

// The lines of an operation after its first one.
#[cycle(lines)]
#[tactic(auto, using(crate::proofs::TreeOf::tree_of), unfolding(crate::specs::Listing::rest_text))]
fn put_rest(
    text: &mut ListingText,
    margin: &mut ListingText,
    g: &Grin,
    ranks: &Ranks,
    op: &Op,
) -> Result<(), AllocError>
    ensures text { OnOk result (text.new ≡ text.old
        ++ rest_text (program_of g.now) (tree.get nat_cmp ranks.now) margin.old (act_of op.now)) }
    ensures margin { OnOk result (margin.new ≡ margin.old) }
{
    match op {
        Op::Case(_, alts) => {
            put_alts(text, margin, g, ranks, alts.as_slice())?;
            Ok(())
        }
        Op::Nested(block) => {
            put_deeper(text, margin, g, ranks, block)?;
            Ok(())
        }
        Op::Unit(_) => Ok(()),
        Op::Fetch(_) => Ok(()),
        Op::FetchWord(_, _) => Ok(()),
        Op::Update(_, _) => Ok(()),
        Op::Eval(_) => Ok(()),
        Op::Apply(_, _) => Ok(()),
        Op::Call(_, _) => Ok(()),
        Op::Prim(_, _, _) => Ok(()),
        Op::Read => Ok(()),
        Op::Write(_) => Ok(()),
        Op::Fail => Ok(()),
    }
}

// A block one level deeper.
#[cycle(lines)]
fn put_deeper(
    text: &mut ListingText,
    margin: &mut ListingText,
    g: &Grin,
    ranks: &Ranks,
    block: &Block,
) -> Result<(), AllocError>
    ensures { OnOk result ((text.new ≡ text.old
        ++ code_text (program_of g.now) (tree.get nat_cmp ranks.now) (deeper margin.old)
        (code_of block.now)) × (margin.new ≡ margin.old)) }
{
    let len = margin.len();
    margin.deepen()?;
    put_block(text, margin, g, ranks, block)?;
    margin.cut(len);
    Ok(())
}

// Alternatives, one level deeper.
#[cycle(lines)]
fn put_alts(
    text: &mut ListingText,
    margin: &mut ListingText,
    g: &Grin,
    ranks: &Ranks,
    alts: &[Alt],
) -> Result<(), AllocError>
    ensures { OnOk result ((text.new ≡ text.old
        ++ flat_map (alt_text (program_of g.now) (tree.get nat_cmp ranks.now) (deeper margin.old))
        alts.now) × (margin.new ≡ margin.old)) }
{
    let len = margin.len();
    margin.deepen()?;
    for alt in alts {
        text.append(margin)?;
        put_shape(text, g, ranks, &alt.pattern)?;
        text.put(" ->\n")?;
        put_deeper(text, margin, g, ranks, &alt.body)?;
    }
    margin.cut(len);
    Ok(())
}

#[cycle(lines)]
fn put_stmt(
    text: &mut ListingText,
    margin: &mut ListingText,
    g: &Grin,
    ranks: &Ranks,
    stmt: &Stmt,
) -> Result<(), AllocError>
    ensures { OnOk result ((text.new ≡ text.old
        ++ stmt_text (program_of g.now) (tree.get nat_cmp ranks.now) margin.old stmt.now)
        × (margin.new ≡ margin.old)) }
{
    text.append(margin)?;
    match stmt {
        Stmt::Store(cells) => put_store(text, margin, g, ranks, cells.as_slice()),
        Stmt::Bind(target, op) => {
            put_target(text, ranks, target)?;
            put_op(text, margin, g, ranks, op)
        }
    }
}

fn put_store(
    text: &mut ListingText,
    margin: &mut ListingText,
    g: &Grin,
    ranks: &Ranks,
    cells: &[Cell],
) -> Result<(), AllocError>
    ensures { OnOk result ((text.new ≡ text.old ++ codes "store\n"
        ++ flat_map (cell_line (program_of g.now) (tree.get nat_cmp ranks.now) (deeper margin.old))
        cells.now) × (margin.new ≡ margin.old)) }
{
    let len = margin.len();
    margin.deepen()?;
    text.put("store\n")?;
    put_cells(text, margin, g, ranks, cells)?;
    margin.cut(len);
    Ok(())
}

#[cycle(lines)]
fn put_block(
    text: &mut ListingText,
    margin: &mut ListingText,
    g: &Grin,
    ranks: &Ranks,
    block: &Block,
) -> Result<(), AllocError>
    ensures { OnOk result ((text.new ≡ text.old
        ++ code_text (program_of g.now) (tree.get nat_cmp ranks.now) margin.old (code_of block.now))
        × (margin.new ≡ margin.old)) }
{
    for stmt in block.stmts.as_slice() {
        put_stmt(text, margin, g, ranks, stmt)?;
    }
    text.append(margin)?;
    put_op(text, margin, g, ranks, &block.last)?;
    Ok(())
}
