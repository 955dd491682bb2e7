//! The numbers of the tags, procedures and global cells of a program, by what they stand for.

ghost use Rattle.std.specs.Prelude.{◌≡◌, ◌≤◌, length, drop};
ghost use Rattle.core_meaning.specs.Evaluation.{global};
ghost use Rattle.grin_translate.specs.Source.{source};
ghost use Rattle.grin_translate.specs.Tags.{tag, proc, first_index_where, same_thunk_kind};
ghost use Rattle.grin_translate.specs.Numbered.{IsNotCall};

use crate::numbering::{NumberedProgram, params};
use crate::tags::{Delay, Kind};
use grin_syntax::program::{ProcId, TagId};

/// The place of what waits in a list, or the list's length where it isn't there.
fn place_in(delay: Delay, list: &[Delay]) -> usize
    ensures place { result ≡ first_index_where (same_thunk_kind delay) list.now }
    ensures within { result ≤ length list.now }
{
    for (at, other) in list.iter().enumerate() {
        if delay.is_same(*other) {
            return at;
        }
    }
    list.len()
}

fn rest(list: &[Delay], from: usize) -> &[Delay]
    requires { from ≤ length list.now }
    ensures { result.now ≡ drop from list.now }
{
    &list[from..]
}

impl NumberedProgram<'_> {
    fn place_of_call(&self, f: u32) -> u32
        ensures { result ≡ (proc (source self.now) (Delay.Calls f)).0 }
    {
        if f < self.numbers.functions {
            return f;
        }
        self.numbers.waiting
    }

    fn place_of_other(&self, delay: Delay) -> u32
        ensures { IsNotCall delay → result ≡ (proc (source self.now) delay).0 }
    {
        let _waiting = self.numbers.waiting;
        let others = rest(
            self.numbers.delays.as_slice(),
            self.numbers.functions as usize,
        );
        self.numbers.functions + place_in(delay, others) as u32
    }

    /// The place of what waits among all that waits, or their number where it isn't there.
    fn place(&self, delay: Delay) -> u32
        ensures { result ≡ (proc (source self.now) delay).0 }
    {
        match delay {
            Delay::Calls(f) => self.place_of_call(f),
            Delay::Applies(_) => self.place_of_other(delay),
            Delay::Operates(_) => self.place_of_other(delay),
            Delay::Reads => self.place_of_other(delay),
        }
    }

    /// The procedure of what waits.
    pub fn proc(&self, delay: Delay) -> ProcId
        ensures { result ≡ proc (source self.now) delay }
    {
        ProcId(self.place(delay))
    }

    fn constructor(&self, c: u32) -> u32
        ensures { result ≡ (tag (source self.now) (Kind.Constructor c)).0 }
    {
        if c < self.numbers.constructors {
            return 1 + c;
        }
        self.numbers.tags
    }

    fn waits(&self, delay: Delay) -> u32
        ensures { result ≡ (tag (source self.now) (Kind.Waits delay)).0 }
    {
        let tags = self.numbers.tags;
        let place = self.place(delay);
        if place < self.numbers.waiting {
            return 1 + self.numbers.constructors + place;
        }
        tags
    }

    fn lacks(&self, f: u32, missing: u32) -> u32
        ensures { result ≡ (tag (source self.now) (Kind.Lacks f missing)).0 }
    {
        let tags = self.numbers.tags;
        let params = params(self.p, f);
        if missing == 0 {
            return tags;
        }
        if params < missing {
            return tags;
        }
        match self.numbers.parts.get(f as usize) {
            Some(first) => *first + (params - missing),
            None => tags,
        }
    }

    /// The tag of a kind.
    pub fn tag(&self, kind: Kind) -> TagId
        ensures { result ≡ tag (source self.now) kind }
    {
        let number = match kind {
            Kind::Number => 0,
            Kind::Constructor(c) => self.constructor(c),
            Kind::Waits(delay) => self.waits(delay),
            Kind::Lacks(f, missing) => self.lacks(f, missing),
        };
        TagId(number)
    }

    /// The global cell of a function without parameters.
    pub fn global(&self, f: u32) -> u32
        ensures { result ≡ global (source self.now) f }
    {
        match self.numbers.globals.get(f as usize) {
            Some(n) => *n,
            None => self.numbers.shared,
        }
    }
}
