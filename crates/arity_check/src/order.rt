//! Which refusals count, and the first of those that were met.

ghost use Rattle.std.specs.Prelude.{◌≡◌};
ghost use Rattle.arity_check.specs.Order.{counts};
ghost use Rattle.arity_check.specs.Refusal.{rank_of, rank_of_first, before, precedes, earlier_refusal};

use crate::refusal::CheckRefusal;

/// Which refusals count, in the order of the rules.
#[derive(Clone, Copy, Debug)]
pub enum Order {
    /// All of them.
    Check,
    /// Those of rule 22: a name is reserved.
    Reserved,
    /// Those of rules 11 and 12: a name is declared again.
    Doubles,
    /// Those of rule 14: a name is not bound.
    Unknown,
}

/// Whether one rank comes before another.
fn is_before(rank: (u64, u64, u64), other: (u64, u64, u64)) -> bool
    ensures { result ≡ before rank other }
{
    let (group, first, second) = rank;
    let (other_group, other_first, other_second) = other;
    if group != other_group {
        return group < other_group;
    }
    if first != other_first {
        return first < other_first;
    }
    second < other_second
}

/// Whether a refusal with this rank comes before the one that was kept. What has no rank doesn't
/// count.
fn precedes(rank: Option<(u64, u64, u64)>, kept: Option<(u64, u64, u64)>) -> bool
    ensures { result ≡ precedes rank kept }
{
    match rank {
        None => false,
        Some(rank) => match kept {
            None => true,
            Some(kept) => is_before(rank, kept),
        },
    }
}

impl Order {
    /// Whether a broken rule counts.
    pub fn counts(self, rule: u8) -> bool
        ensures { result ≡ counts self rule }
    {
        match self {
            Order::Check => true,
            Order::Reserved => rule == 22,
            Order::Doubles => rule == 11 || rule == 12,
            Order::Unknown => rule == 14,
        }
    }

    /// The rank of a refusal, if it counts.
    pub fn rank(self, refusal: &CheckRefusal) -> Option<(u64, u64, u64)>
        ensures { result ≡ rank_of self refusal.now }
    {
        if self.counts(refusal.rule()) {
            Some(refusal.rank())
        } else {
            None
        }
    }
}

/// The first refusal that was met of those that count.
#[derive(Drop)]
pub struct First {
    pub order: Order,
    pub refusal: Option<CheckRefusal>,
}

impl First {
    /// The rank of the refusal.
    fn rank(&self) -> Option<(u64, u64, u64)>
        ensures { result ≡ rank_of_first self.now.order self.now.refusal }
    {
        match &self.refusal {
            None => None,
            Some(refusal) => self.order.rank(refusal),
        }
    }

    /// Notes a refusal.
    #[tactic(auto, unfolding(crate::specs::Refusal::earlier_refusal))]
    pub fn note(&mut self, refusal: CheckRefusal)
        ensures { self.new ≡ earlier_refusal self.old refusal }
    {
        if precedes(self.order.rank(&refusal), self.rank()) {
            self.refusal = Some(refusal);
        }
    }
}
