// Which comparisons do no more than decide the choice right behind them.
#![tactic(auto, using(low_code::proofs::TreeOf::tree_of, crate::proofs::VariableUsed::variable_used, crate::proofs::Deciding::deciding))]

ghost use Rattle.std.specs.Prelude.{◌≡◌, ◌++◌, ◌||◌, nat_lt, if◌then◌else◌, false, map};
ghost use Rattle.low_code.specs.Tree.{Code, before_of, end_of, code_of, arm_of, arms_before};
ghost use Rattle.low_code.specs.Formed.{used_by_all, used_by_tests, uses, arms_uses};
ghost use Rattle.rv32_select.specs.Decides.{compares as is_comparison, is_var as is_that_var, tests_result as tests_its_result, decides_arms as decides_those, decides_code as decides_that, decides as decides_all, tested as number_tested, condition_one as true_condition, condition_zero as false_condition, condition as condition_of, other_condition as other_condition_of};
ghost use Rattle.rv32_select.specs.Emitting.{IsDecidingComparison, DecidesBlockEnd};
ghost use Rattle.seq.specs.Lists.{is_among};

use low_code::{LowArm, LowBlock, LowEnd, LowStmt, LowTest, Operand, PrimOp};
use rv32_items::Cond;

/// A comparison of two words, for a variable.
#[derive(Clone, Copy)]
pub(crate) struct Comparison {
    pub(crate) operation: PrimOp,
    pub(crate) variable: u32,
    pub(crate) left: Operand,
    pub(crate) right: Operand,
}

fn either(p: bool, q: bool) -> bool
    ensures { result ≡ p || q }
{
    if p {
        return true;
    }
    q
}

fn is_var(variable: u32, operand: &Operand) -> bool
    ensures { result ≡ is_that_var variable operand.now }
{
    match operand {
        Operand::Var(x) => variable == *x,
        Operand::Num(_) => false,
        Operand::Cell(_) => false,
    }
}

/// Whether operands have the variable.
fn are_using(variable: u32, operands: &[Operand]) -> bool
    ensures { result ≡ is_among variable (used_by_all operands.now) }
{
    let mut found = false;
    for operand in operands {
        found = either(found, is_var(variable, operand));
    }
    found
}

/// Whether tests have the variable.
fn are_testing(variable: u32, tests: &[LowTest]) -> bool
    ensures { result ≡ is_among variable (used_by_tests tests.now) }
{
    let mut found = false;
    for test in tests {
        found = either(found, is_var(variable, &test.left));
    }
    found
}

/// Whether a block uses the variable.
#[cycle(uses)]
fn block_uses(variable: u32, block: &LowBlock) -> bool
    ensures { result ≡ is_among variable (uses (code_of block.now)) }
{
    let mut found = false;
    for stmt in block.stmts.as_slice() {
        found = either(found, stmt_uses(variable, stmt));
    }
    either(found, end_uses(variable, &block.last))
}

#[cycle(uses)]
fn stmt_uses(variable: u32, stmt: &LowStmt) -> bool
    ensures { (c : Code) → is_among variable (uses (before_of stmt.now c))
        ≡ (result || is_among variable (uses c)) }
{
    match stmt {
        LowStmt::Set(_, a) => is_var(variable, a),
        LowStmt::Prim(_, _, a, b) => either(is_var(variable, a), is_var(variable, b)),
        LowStmt::Load(_, a, _) => is_var(variable, a),
        LowStmt::Save(a, _, b) => either(is_var(variable, a), is_var(variable, b)),
        LowStmt::Take(_) => false,
        LowStmt::Put(a) => is_var(variable, a),
        LowStmt::Get(_) => false,
        LowStmt::Call(_, _, given, _) => are_using(variable, given.as_slice()),
        LowStmt::Join(_, block) => block_uses(variable, block),
    }
}

#[cycle(uses)]
fn end_uses(variable: u32, end: &LowEnd) -> bool
    ensures { result ≡ is_among variable (uses (end_of end.now)) }
{
    match end {
        LowEnd::Give(given) => are_using(variable, given.as_slice()),
        LowEnd::Tail(_, _, given) => are_using(variable, given.as_slice()),
        LowEnd::Choose(arms, block) => either(
            arms_use(variable, arms.as_slice()),
            block_uses(variable, block),
        ),
        LowEnd::Fail => false,
    }
}

/// Whether arms use the variable.
#[cycle(uses)]
fn arms_use(variable: u32, arms: &[LowArm]) -> bool
    ensures { (c : Code) → is_among variable (arms_uses (arms_before (map arm_of arms.now) c))
        ≡ (result || is_among variable (uses c)) }
{
    let mut found = false;
    for arm in arms {
        let tested = are_testing(variable, arm.tests.as_slice());
        found = either(found, either(tested, block_uses(variable, &arm.block)));
    }
    found
}

/// Whether an operation gives 1 or 0.
fn compares(f: PrimOp) -> bool
    ensures { result ≡ is_comparison f }
{
    match f {
        PrimOp::Add => false,
        PrimOp::Sub => false,
        PrimOp::Mul => false,
        PrimOp::Quot => false,
        PrimOp::Rem => false,
        PrimOp::Eq => true,
        PrimOp::Lt => true,
    }
}

/// Whether a test is of the variable, for 0 or 1.
fn tests_bit(variable: u32, test: LowTest) -> bool
    ensures { result ≡ (if is_that_var variable test.left then nat_lt test.right 2 else false) }
{
    if is_var(variable, &test.left) {
        return test.right < 2;
    }
    false
}

/// Whether tests are one such test.
fn tests_result(variable: u32, tests: &[LowTest]) -> bool
    ensures { result ≡ tests_its_result variable tests.now }
{
    if tests.len() == 1 {
        return tests_bit(variable, tests[0]);
    }
    false
}

/// Whether the first of some arms tests the variable, and nothing else there uses it.
fn decides_arms(variable: u32, arms: &[LowArm], otherwise: &LowBlock) -> bool
    ensures { result ≡ decides_those variable
        (arms_before (map arm_of arms.now) (code_of otherwise.now)) }
{
    match arms.split_first() {
        None => false,
        Some((first, others)) => {
            if tests_result(variable, first.tests.as_slice()) {
                let later = either(arms_use(variable, others), block_uses(variable, otherwise));
                return !either(block_uses(variable, &first.block), later);
            }
            false
        }
    }
}

/// Whether an end is a choice that the variable decides and that uses it nowhere else.
fn decides_end(variable: u32, end: &LowEnd) -> bool
    ensures { result ≡ decides_that variable (end_of end.now) }
{
    match end {
        LowEnd::Give(_) => false,
        LowEnd::Tail(_, _, _) => false,
        LowEnd::Choose(arms, otherwise) => decides_arms(variable, arms.as_slice(), otherwise),
        LowEnd::Fail => false,
    }
}

/// Whether the result of an operation does no more than decide the choice with which a block ends.
fn decides(f: PrimOp, variable: u32, end: &LowEnd) -> bool
    ensures { result ≡ decides_all f variable (end_of end.now) }
{
    if compares(f) {
        return decides_end(variable, end);
    }
    false
}

/// The comparison of a statement that decides the end right behind it.
fn compared(stmt: &LowStmt, end: &LowEnd) -> Option<Comparison>
    ensures { IsDecidingComparison (before_of stmt.now) (end_of end.now) result }
{
    match stmt {
        LowStmt::Set(_, _) => None,
        LowStmt::Prim(f, x, a, b) => {
            if decides(*f, *x, end) {
                return Some(Comparison {
                    operation: *f,
                    variable: *x,
                    left: *a,
                    right: *b,
                });
            }
            None
        }
        LowStmt::Load(_, _, _) => None,
        LowStmt::Save(_, _, _) => None,
        LowStmt::Take(_) => None,
        LowStmt::Put(_) => None,
        LowStmt::Get(_) => None,
        LowStmt::Call(_, _, _, _) => None,
        LowStmt::Join(_, _) => None,
    }
}

/// The same, where the statement is the last one of a block.
pub(crate) fn deciding_last_comparison(
    is_last: bool,
    stmt: &LowStmt,
    end: &LowEnd,
) -> Option<Comparison>
    ensures { DecidesBlockEnd is_last (before_of stmt.now) (end_of end.now) result }
{
    if is_last {
        return compared(stmt, end);
    }
    None
}

/// The number for which the first test is.
pub(crate) fn tested(tests: &[LowTest]) -> u32
    ensures { result ≡ number_tested tests.now }
{
    match tests.split_first() {
        None => 0,
        Some((test, _)) => test.right,
    }
}

/// How the words of a comparison compare where it gives 1.
fn condition_one(f: PrimOp) -> Cond
    ensures { result ≡ true_condition f }
{
    match f {
        PrimOp::Add => Cond::Eq,
        PrimOp::Sub => Cond::Eq,
        PrimOp::Mul => Cond::Eq,
        PrimOp::Quot => Cond::Eq,
        PrimOp::Rem => Cond::Eq,
        PrimOp::Eq => Cond::Eq,
        PrimOp::Lt => Cond::Lt,
    }
}

/// And where it gives 0.
fn condition_zero(f: PrimOp) -> Cond
    ensures { result ≡ false_condition f }
{
    match f {
        PrimOp::Add => Cond::Ne,
        PrimOp::Sub => Cond::Ne,
        PrimOp::Mul => Cond::Ne,
        PrimOp::Quot => Cond::Ne,
        PrimOp::Rem => Cond::Ne,
        PrimOp::Eq => Cond::Ne,
        PrimOp::Lt => Cond::Ge,
    }
}

/// The condition on which a comparison gives this number, 0 or 1.
pub(crate) fn condition(f: PrimOp, number: u32) -> Cond
    ensures { result ≡ condition_of f number }
{
    if number == 1 {
        condition_one(f)
    } else {
        condition_zero(f)
    }
}

/// The condition on which it gives the other one.
pub(crate) fn other_condition(f: PrimOp, number: u32) -> Cond
    ensures { result ≡ other_condition_of f number }
{
    if number == 1 {
        condition_zero(f)
    } else {
        condition_one(f)
    }
}
