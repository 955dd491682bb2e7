//! The solution by the list of waiting inclusions, against the one by rounds over all inclusions.

use crate::solutions::{partial, takes};
use crate::translations::{BRANCHES, ECHO, FORMS, translated, whole};
use flow_system::system::system;
use grin_syntax::program::{Grin, ProcId, Site, TagId, VarId};
use points_to::{Flow, solve, solve_by_rounds};
use std::alloc::{AllocError, Global};
use std::fmt::Write;
use std::test::Fail;
use worked_texts::{INTERPRETER, LIFE, QUEENS, SORT, TAKE_TWICE, many_delayed};

/// Programs over lists: with and without delayed calls, waiting functions, global cells, cells that
/// hold themselves, and numbers.
static TEXTS: [&str; 23] = [
    "main = Nil;",
    "main = Cons 72 (Cons 105 Nil);",
    "main = let c = Cons 65 Nil in Cons 66 c;",
    "main = let c = Cons 46 c in c;",
    "main = Cons 46 main;",
    "take n xs = case n of { 0 -> Nil; m -> case xs of { Nil -> Nil; Cons h t -> Cons h (take (sub m 1) t) } }; \
     from n = Cons n (from (add n 1)); main = take 3 (from 65);",
    "twice x = Cons x (Cons x Nil); main = twice (add 32 33);",
    "bad = case 1 of { 2 -> Nil }; second a b = b; main = second bad Nil;",
    "bad = case 1 of { 2 -> Nil }; main = Cons 65 bad;",
    "id x = x; main = Cons (id id 66) Nil;",
    "k x y = x; main = case k 65 of { p -> Cons (p Nil) Nil };",
    "main = Cons (quot -2147483648 -1) (Cons (quot 7 0) (Cons (rem 7 0) Nil));",
    "main = main;",
    "main = Cons (add Nil 1) Nil;",
    "main = Cons Nil Nil;",
    "main = 7;",
    "upto i n = case lt n i of { 1 -> Nil; _ -> Cons i (upto (add i 1) n) }; \
     sum xs = case xs of { Nil -> 0; Cons h t -> add h (sum t) }; main = Cons (sum (upto 1 100000)) Nil;",
    "upto i n = case lt n i of { 1 -> Nil; _ -> Cons i (upto (add i 1) n) }; \
     count xs acc = case xs of { Nil -> acc; Cons h t -> case add acc 1 of { a -> count t a } }; \
     main = case count (upto 1 100000) 0 of { 100000 -> Cons 79 Nil };",
    TAKE_TWICE,
    "hd c = case c of { Cons h t -> h }; main = case hd (Cons 65 Nil) of { x -> Cons x Nil };",
    "f x = add x 1; g x = case x of { 0 -> Nil; _ -> f x }; main = case g 64 of { y -> Cons y Nil };",
    "main xs = xs;",
    "f x y z = Cons x (Cons y z); main = case f 65 of { g -> case g 66 of { h -> h (h Nil) } };",
];

/// A function of 300 numbers, which gives a list of its argument.
fn many_alternatives(alloc: Global) -> Result<String, AllocError> {
    let mut text = String::from_str(alloc, "f n = case n of { 0 -> Cons 0 Nil")?;
    for k in 1..300 {
        write!(text, "; {k} -> Cons {k} Nil")?;
    }
    text.push_str(" }; main = f 299;")?;
    Ok(text)
}

/// Two solutions of one program.
#[derive(Drop)]
struct Pair {
    waiting: Flow,
    rounds: Flow,
}

impl Pair {
    fn of(alloc: Global, g: &Grin) -> Result<Pair, AllocError> {
        let inclusions = system(alloc, g)?;
        let waiting = solve(alloc, &inclusions)?;
        let rounds = solve_by_rounds(alloc, &inclusions)?;
        Ok(Pair { waiting, rounds })
    }

    /// Whether both have the same lists for the site, the variable and the procedure of a number.
    fn has_same_lists(&self, n: u32) -> bool {
        let (a, b) = (&self.waiting, &self.rounds);
        a.tags_at(Site(n)) == b.tags_at(Site(n))
            && a.locs_of(VarId(n)) == b.locs_of(VarId(n))
            && a.tags_met(VarId(n)) == b.tags_met(VarId(n))
            && a.nodes_of(VarId(n)) == b.nodes_of(VarId(n))
            && a.result_of(ProcId(n)) == b.result_of(ProcId(n))
    }

    /// Whether both have the same words for the variable of a number, among a number and these
    /// tags.
    fn has_same_words(&self, n: u32, tags: u32) -> bool {
        let (a, b) = (&self.waiting, &self.rounds);
        let mut same = a.holds_number(VarId(n)) == b.holds_number(VarId(n));
        for t in 0..tags {
            same = same && a.holds_tag(VarId(n), TagId(t)) == b.holds_tag(VarId(n), TagId(t));
        }
        same
    }

    /// Whether something is known of the site, the variable or the procedure of a number.
    fn tells(&self, n: u32) -> bool {
        let flow = &self.waiting;
        !flow.tags_at(Site(n)).is_empty()
            || !flow.locs_of(VarId(n)).is_empty()
            || !flow.nodes_of(VarId(n)).is_empty()
            || !flow.result_of(ProcId(n)).is_empty()
    }
}

/// For how many of the first numbers the two solutions of a program tell something, or none where
/// they differ.
fn agreed(alloc: Global, g: &Grin, numbers: u32) -> Result<Option<u32>, AllocError> {
    let pair = Pair::of(alloc, g)?;
    let tags = g.tags.len().min(65535) as u32;
    let mut count = 0_u32;
    for n in 0..numbers {
        if !pair.has_same_lists(n) || !pair.has_same_words(n, tags) {
            return Ok(None);
        }
        if pair.tells(n) {
            count = count.saturating_add(1);
        }
    }
    Ok(Some(count))
}

/// Whether the two solutions of a program agree on its first 9,000 numbers, and tell something.
fn agree(alloc: Global, g: &Grin) -> Result<bool, AllocError> {
    Ok(agreed(alloc, g, 9_000)?.is_some_and(|n| n > 0))
}

/// For how many sites the first parameter of the first procedure may stand.
fn sites_of_the_first(flow: &Flow, g: &Grin) -> usize {
    match g.procs.get(0) {
        Some(proc) => match proc.params.get(0) {
            Some(param) => flow.locs_of(*param).len(),
            None => 0,
        },
        None => 0,
    }
}

#[test]
fn both_agree_on_worked_programs(rt: HostRuntime) -> Result<(), Fail> {
    let alloc = rt.alloc();
    assert_eq!(rt; agreed(alloc, &takes(alloc)?, 40)?, Some(14));
    assert!(rt; agreed(alloc, &partial(alloc)?, 40)?.is_some());
    Ok(())
}

#[test]
fn both_agree_on_listed_texts(rt: HostRuntime) -> Result<(), Fail> {
    for text in [ECHO, FORMS, BRANCHES] {
        assert!(rt;
            agree(rt.alloc(), &translated(rt.alloc(), text)?)?,
            "{text}"
        );
    }
    Ok(())
}

#[test]
fn both_agree_on_texts(rt: HostRuntime) -> Result<(), Fail> {
    for text in TEXTS {
        assert!(rt;
            agree(rt.alloc(), &translated(rt.alloc(), text)?)?,
            "{text}"
        );
    }
    Ok(())
}

#[test]
fn both_agree_on_examples(rt: HostRuntime) -> Result<(), Fail> {
    for text in [QUEENS, SORT, LIFE, INTERPRETER] {
        assert!(rt; agree(rt.alloc(), &whole(rt.alloc(), text)?)?, "{text}");
    }
    Ok(())
}

#[test]
fn both_agree_where_much_meets(rt: HostRuntime) -> Result<(), Fail> {
    let alloc = rt.alloc();
    let text = many_alternatives(alloc)?;
    assert!(rt; agree(alloc, &translated(alloc, &text)?)?);
    let g = whole(alloc, &many_delayed(alloc, 20)?)?;
    assert!(rt; agree(alloc, &g)?);
    // The parameter of each function that is delayed holds Nil's cell and all that is delayed.
    let flow = solve(alloc, &system(alloc, &g)?)?;
    assert_eq!(rt; sites_of_the_first(&flow, &g), 21);
    Ok(())
}
