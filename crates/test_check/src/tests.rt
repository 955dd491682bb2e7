//! Each rule once with its place, the limits on large texts, and normal forms worked by hand.

use arity_check::check::check;
use arity_check::normal::{Body, Bound, Branch, Checked, Flat, PrimOp, Var};
use arity_check::refusal::CheckRefusal;
use core_reader::read;
use std::alloc::{AllocError, Global};
use std::fmt::Write;
use std::process::Abort;
use std::test::Fail;

/// `Nil` and `Cons`, 25 bytes.
const LISTS: &str = "data Nil 0; data Cons 2; ";

/// What the check says of a program: the number of its functions, or the rule that it breaks first
/// and that rule's number.
#[derive(Clone, Copy, PartialEq, Eq, Debug)]
enum Verdict {
    Accepted(usize),
    Refused(u8, u64),
}

/// What the check says of the program of a text. Want of memory is no verdict.
fn judged(alloc: Global, text: &str) -> Result<Verdict, Fail> {
    let core = read(alloc, text.as_bytes())?;
    match check(alloc, core) {
        Ok(checked) => Ok(Verdict::Accepted(checked.funs.as_slice().len())),
        Err(CheckRefusal::Memory(error)) => Err(Fail::from(error)),
        Err(refusal) => Ok(Verdict::Refused(refusal.rule(), refusal.number())),
    }
}

/// What the check says of the program of a text.
fn is_judged(rt: &impl Abort, alloc: Global, text: &str, want: Verdict) -> Result<(), Fail> {
    let verdict = judged(alloc, text)?;
    assert_eq!(rt; verdict, want, "{text}");
    Ok(())
}

/// A text behind the declarations of lists, the rule that it breaks, and the number of that rule.
const BROKEN: [(&str, u8, u64); 16] = [
    ("data Nil 0; main = Nil;", 11, 30),
    ("main = Nil; main = Nil;", 12, 37),
    ("f x x = x; main = Nil;", 13, 29),
    ("f x = case x of { y -> y; Nil -> x }; main = Nil;", 16, 43),
    (
        "f x = case x of { Nil -> x; Nil -> x }; main = Nil;",
        17,
        53,
    ),
    ("f x = case x of { Nil -> x; 1 -> x }; main = Nil;", 18, 53),
    ("f = Nil;", 19, 0),
    ("main x y = x;", 20, 25),
    ("f add = Nil; main = Nil;", 22, 27),
    ("main = let x = add; add = 1 in x;", 23, 40),
    ("main = Cons 1 1 1 1 1 1 1 1 1 1 1 1 1;", 33, 32),
    ("data Big 13; main = Nil;", 34, 30),
    // Two at once: the limits come first, in the order of their numbers, and rules without a place
    // last.
    ("main = foo; data Big 13;", 34, 42),
    (
        "data Big 13; main = Cons 1 1 1 1 1 1 1 1 1 1 1 1 1;",
        33,
        45,
    ),
    ("f = foo;", 14, 29),
    ("main x y = Cons 1;", 15, 36),
];

/// The texts break these rules.
fn are_broken(rt: &impl Abort, alloc: Global, rows: &[(&str, u8, u64)]) -> Result<(), Fail> {
    for (text, rule, number) in rows {
        let text = format!(in alloc; "{LISTS}{text}")?;
        is_judged(rt, alloc, text.as_str(), Verdict::Refused(*rule, *number))?;
    }
    Ok(())
}

#[test]
fn each_rule_has_its_place(rt: HostRuntime) -> Result<(), Fail> {
    are_broken(&rt, rt.alloc(), &BROKEN)?;
    is_judged(&rt, rt.alloc(), "main = 1;", Verdict::Refused(21, 0))
}

/// A text behind the declarations of lists that breaks no rule, and the number of its functions.
const ACCEPTED: [(&str, usize); 3] = [
    ("main = (((Nil)));", 1),
    ("main xs = xs;", 1),
    ("f x = x; g x = x; main = Nil;", 3),
];

/// The texts break no rule.
fn are_accepted(rt: &impl Abort, alloc: Global, rows: &[(&str, usize)]) -> Result<(), Fail> {
    for (text, functions) in rows {
        let text = format!(in alloc; "{LISTS}{text}")?;
        is_judged(rt, alloc, text.as_str(), Verdict::Accepted(*functions))?;
    }
    Ok(())
}

#[test]
fn programs_that_break_no_rule_are_accepted(rt: HostRuntime) -> Result<(), Fail> {
    are_accepted(&rt, rt.alloc(), &ACCEPTED)
}

/// A text, so many times, between two others.
fn repeated(
    alloc: Global,
    before: &str,
    text: &str,
    count: u32,
    after: &str,
) -> Result<String, AllocError> {
    let mut all = String::new(alloc);
    all.push_str(before)?;
    for _ in 0..count {
        all.push_str(text)?;
    }
    all.push_str(after)?;
    Ok(all)
}

/// So many functions, each of a name of its own, and then `main`.
fn functions(alloc: Global, count: u32) -> Result<String, AllocError> {
    let mut all = String::from_str(alloc, LISTS)?;
    for number in 0..count {
        write!(all, "f{number} = Nil; ")?;
    }
    all.push_str("main = Nil;")?;
    Ok(all)
}

/// A case over so many integers, each with itself.
fn integers(alloc: Global, before: &str, count: u32) -> Result<String, AllocError> {
    let mut all = String::from_str(alloc, LISTS)?;
    all.push_str(before)?;
    for number in 0..count {
        write!(all, "{number} -> {number}; ")?;
    }
    all.push_str("}; main = Nil;")?;
    Ok(all)
}

#[test]
fn limits_hold(rt: HostRuntime) -> Result<(), Fail> {
    let text = functions(rt.alloc(), 4095)?;
    is_judged(&rt, rt.alloc(), text.as_str(), Verdict::Accepted(4096))?;
    let text = integers(rt.alloc(), "f = case 1 of { ", 8188)?;
    is_judged(&rt, rt.alloc(), text.as_str(), Verdict::Accepted(2))
}

#[test]
fn more_than_the_limits_is_refused(rt: HostRuntime) -> Result<(), Fail> {
    let alloc = rt.alloc();
    let text = repeated(alloc, LISTS, "f = Nil; ", 4097, "main = Nil;")?;
    is_judged(&rt, alloc, text.as_str(), Verdict::Refused(31, 36889))?;
    let text = repeated(alloc, LISTS, "data C 0; ", 1023, "main = Nil;")?;
    is_judged(&rt, alloc, text.as_str(), Verdict::Refused(32, 10250))?;
    let text = integers(alloc, "f x = case x of { ", 8188)?;
    is_judged(&rt, alloc, text.as_str(), Verdict::Refused(35, 16385))
}

fn show_var(out: &mut String, var: Var) -> Result<(), AllocError> {
    match var {
        Var::Local(local) => write!(out, " l{local}")?,
        Var::Global(global) => write!(out, " g{global}")?,
    }
    Ok(())
}

fn show_vars(out: &mut String, vars: &[Var]) -> Result<(), AllocError> {
    for var in vars {
        show_var(out, *var)?;
    }
    Ok(())
}

fn show_flat(out: &mut String, flat: &Flat) -> Result<(), AllocError> {
    match flat {
        Flat::Int(number) => write!(out, "int {number}")?,
        Flat::Con(con, args) => {
            write!(out, "con {con}")?;
            show_vars(out, args.as_slice())?;
        }
        Flat::Prim(op, first, second) => {
            write!(out, "prim {op:?}")?;
            show_var(out, *first)?;
            show_var(out, *second)?;
        }
        Flat::Apply(head, args) => {
            out.push_str("apply")?;
            show_var(out, *head)?;
            out.push_str(" to")?;
            show_vars(out, args.as_slice())?;
        }
        Flat::Call(function, args) => {
            write!(out, "call {function}")?;
            show_vars(out, args.as_slice())?;
        }
        Flat::Part(function, args) => {
            write!(out, "part {function}")?;
            show_vars(out, args.as_slice())?;
        }
    }
    Ok(())
}

fn show_group(out: &mut String, group: &[Bound]) -> Result<(), AllocError> {
    for bound in group {
        write!(out, "l{} = ", bound.local)?;
        show_flat(out, &bound.flat)?;
        out.push_str("; ")?;
    }
    Ok(())
}

#[cycle(show)]
fn show_body(out: &mut String, body: &Body) -> Result<(), AllocError> {
    match body {
        Body::App(flat) => show_flat(out, flat),
        Body::Let(group, inner) => {
            out.push_str("let ")?;
            show_group(out, group.as_slice())?;
            out.push_str("in ")?;
            show_body(out, inner)
        }
        Body::Case(tested, branches) => {
            out.push_str("case ")?;
            show_body(out, tested)?;
            out.push_str(" of")?;
            for branch in branches.as_slice() {
                out.push_str(" | ")?;
                show_branch(out, branch)?;
            }
            Ok(())
        }
    }
}

#[cycle(show)]
fn show_branch(out: &mut String, branch: &Branch) -> Result<(), AllocError> {
    match branch {
        Branch::Con(con, fields, body) => {
            write!(out, "con {con}")?;
            for field in fields.as_slice() {
                write!(out, " l{field}")?;
            }
            out.push_str(" -> ")?;
            show_body(out, body)
        }
        Branch::Int(number, body) => {
            write!(out, "{number} -> ")?;
            show_body(out, body)
        }
        Branch::Default(Some(local), body) => {
            write!(out, "l{local} -> ")?;
            show_body(out, body)
        }
        Branch::Default(None, body) => {
            out.push_str("_ -> ")?;
            show_body(out, body)
        }
    }
}

/// The functions of a normal form, one after another, and the number of `main`.
fn show_program(out: &mut String, checked: &Checked) -> Result<(), AllocError> {
    for fun in checked.funs.as_slice() {
        write!(out, "{}: ", fun.params)?;
        show_body(out, &fun.body)?;
        out.push_str(". ")?;
    }
    write!(out, "main {}", checked.main)?;
    Ok(())
}

/// The normal form of a text behind the declarations of lists.
fn checked(alloc: Global, text: &str) -> Result<Checked, Fail> {
    let text = format!(in alloc; "{LISTS}{text}")?;
    let core = read(alloc, text.as_bytes())?;
    Ok(check(alloc, core)?)
}

/// A text, and its normal form.
const FORMS: [(&str, &str); 3] = [
    (
        "f x = x; main = (f) (f 1) 2;",
        "1: apply l0 to. 0: let l0 = int 1; l1 = call 0 l0; l2 = call 0 l1; l3 = int 2; in apply l2 to l3. main 1",
    ),
    (
        "g x = let a = Cons 1 b; b = Cons x a in case b of { Cons h t -> h; n -> n }; main = Nil;",
        "1: let l1 = int 1; l2 = con 1 l1 l3; l3 = con 1 l0 l2; in case apply l3 to of | con 1 l4 l5 -> apply l4 to | l6 -> apply l6 to. 0: con 0. main 1",
    ),
    (
        "k x y = x; z = 3; main = case add z 1 of { 4 -> Cons z (k z); _ -> Nil };",
        "2: apply l0 to. 0: int 3. 0: case let l0 = int 1; in prim Add g1 l0 of | 4 -> let l1 = part 0 g1; in con 1 g1 l1 | _ -> con 0. main 2",
    ),
];

/// The texts have these normal forms.
fn forms_are(rt: &impl Abort, alloc: Global, rows: &[(&str, &str)]) -> Result<(), Fail> {
    for (text, form) in rows {
        let mut out = String::new(alloc);
        show_program(&mut out, &checked(alloc, text)?)?;
        assert_eq!(rt; out.as_str(), *form);
    }
    Ok(())
}

#[test]
fn normal_forms(rt: HostRuntime) -> Result<(), Fail> {
    forms_are(&rt, rt.alloc(), &FORMS)
}
