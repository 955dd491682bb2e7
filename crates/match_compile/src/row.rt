//! Rows: equations on their way into a tree.
#![tactic(auto, using(crate::proofs::Rows::steps))]

ghost use Rattle.std.specs.Prelude.{◌≡◌, ◌+◌, ◌++◌, [], IfOk, map, length};
ghost use Rattle.seq.specs.Lists.{numbers_from};
ghost use Rattle.match_compile.specs.SourceOf.{pat_of, pats_of};
ghost use Rattle.match_compile.specs.Trees.{pending_patterns_at, fields_of};
ghost use Rattle.match_compile.specs.RowOf.{pending, rows_of, names_bound_row, opening, first_of, test_of, name_of};

use crate::head::Head;
use crate::source::Pat;
use core_reader::Binder;
use seq::Seq;
use std::alloc::{AllocError, Global};

/// What is known of an equation on its way, its body aside: the names that it has bound to places,
/// and the patterns that are still to be matched, each at its place, the first one last.
#[derive(Drop)]
pub struct Pending<'a> {
    pub bound: Seq<(Binder, u32)>,
    pub jobs: Seq<(u32, &'a Pat)>,
}

/// The test that comes next: its place, what it accepts, and the number of its fields.
#[derive(Clone, Copy)]
pub struct Test {
    pub place: u32,
    pub head: Head,
    pub fields: usize,
}

/// Patterns at places go before those that are there.
fn put<'a>(
    jobs: &mut Seq<(u32, &'a Pat)>,
    places: &[u32],
    pats: &'a [Pat],
) -> Result<(), AllocError>
    ensures { IfOk result (λ _. pending jobs.new
        ≡ pending_patterns_at places.now (pats_of (map pat_of pats.now)) ++ pending jobs.old) }
{
    let mut at = pats.len();
    'pats: while at > 0 {
        at -= 1;
        if let Some(place) = places.get(at) {
            jobs.push((*place, &pats[at]))?;
        }
    }
    Ok(())
}

/// The patterns for the fields, at these places, go before those that are there.
fn put_fields<'a>(
    jobs: &mut Seq<(u32, &'a Pat)>,
    places: &[u32],
    pat: &'a Pat,
) -> Result<(), AllocError>
    ensures { IfOk result (λ _. pending jobs.new
        ≡ pending_patterns_at places.now (fields_of (pat_of pat.now)) ++ pending jobs.old) }
{
    match pat {
        Pat::Name(_) | Pat::Int(_, _) => Ok(()),
        Pat::Con(_, fields) => put(jobs, places, fields.as_slice()),
    }
}

/// Names before the first test are bound.
fn settle<'a>(
    bound: Seq<(Binder, u32)>,
    jobs: Seq<(u32, &'a Pat)>,
) -> Result<Pending<'a>, AllocError>
    ensures { IfOk result (λ made. rows_of made ≡ names_bound_row bound (pending jobs.entry)) }
{
    let mut bound = bound;
    let mut jobs = jobs;
    'names: loop {
        match jobs.pop() {
            None => return Ok(Pending { bound, jobs }),
            Some((place, pat)) => match name_of(pat) {
                Some(binder) => bound.push((binder, place))?,
                None => {
                    jobs.push((place, pat))?;
                    return Ok(Pending { bound, jobs });
                }
            },
        }
    }
}

/// The name that a pattern is, if it is no test.
fn name_of(pat: &Pat) -> Option<Binder>
    ensures { result ≡ name_of (pat_of pat.now) }
{
    match pat {
        Pat::Name(binder) => Some(*binder),
        Pat::Int(_, _) => None,
        Pat::Con(_, _) => None,
    }
}

/// So many numbers, one after the other, and the number behind them.
pub fn numbers_from(alloc: Global, first: u32, count: usize) -> Result<(Seq<u32>, u32), AllocError>
    ensures numbers { IfOk result (λ made. made.0 ≡ numbers_from first count) }
    ensures next { IfOk result (λ made. made.1 ≡ first + count) }
{
    let mut numbers = Seq::new(alloc);
    let mut next = first;
    for k in 0..count {
        numbers.push(next)?;
        if next == u32::MAX {
            return Err(AllocError);
        }
        next += 1;
    }
    Ok((numbers, next))
}

/// An equation with these patterns, whose parameters have these places.
pub fn begun<'a>(alloc: Global, places: &[u32], pats: &'a [Pat]) -> Result<Pending<'a>, AllocError>
    ensures { IfOk result (λ made. rows_of made
        ≡ names_bound_row [] (pending_patterns_at places.now (pats_of (map pat_of pats.now)))) }
{
    let mut jobs = Seq::new(alloc);
    put(&mut jobs, places, pats)?;
    settle(Seq::new(alloc), jobs)
}

impl<'a> Pending<'a> {
    /// The test that comes next, if there is one.
    pub fn first(&self) -> Option<Test>
        ensures { result ≡ first_of (pending self.now.jobs) }
    {
        match self.jobs.as_slice().last() {
            Some((place, pat)) => test_for(*place, pat),
            None => None,
        }
    }

    /// The way behind its first pattern, where the fields have these places.
    pub fn opened(self, places: &[u32]) -> Result<Pending<'a>, AllocError>
        ensures { IfOk result (λ made. rows_of made ≡ opening self.entry places.now) }
    {
        let Pending { bound, mut jobs } = self;
        match jobs.pop() {
            None => Ok(Pending { bound, jobs }),
            Some((_, pat)) => {
                put_fields(&mut jobs, places, pat)?;
                settle(bound, jobs)
            }
        }
    }

    /// The same way.
    pub fn copied(&self, alloc: Global) -> Result<Pending<'a>, AllocError>
        ensures { IfOk result (λ made. made ≡ self.now) }
    {
        Ok(Pending {
            bound: self.bound.copied(alloc)?,
            jobs: self.jobs.copied(alloc)?,
        })
    }
}

/// The test that a pattern at a place is, if it is one.
fn test_for(place: u32, pat: &Pat) -> Option<Test>
    ensures { result ≡ test_of place (pat_of pat.now) }
{
    match pat {
        Pat::Name(_) => None,
        Pat::Int(k, _) => Some(Test {
            place,
            head: Head::Integer(*k),
            fields: 0,
        }),
        Pat::Con(con, fields) => Some(Test {
            place,
            head: Head::Constructor(con.name.0),
            fields: fields.as_slice().len(),
        }),
    }
}
