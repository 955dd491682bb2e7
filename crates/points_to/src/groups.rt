// Sets of numbers as groups of 64, with a bit for each number: those that wait.

ghost use Rattle.std.specs.Prelude.{◌≡◌, ℕ, ◌<◌, ◌≤◌, ◌*◌, ◌^◌, [], length, IfSome, IfNone, IfOk, OnOk};
ghost use Rattle.points_to.specs.Held.{In};
ghost use Rattle.points_to.specs.Waiting.{numbers_from, GroupIsNonempty, GroupsEmptyFrom, GroupsEmptyTo, Waits, Takes};

use crate::bits::{with_bit, without_bit};
use std::alloc::{AllocError, Global};

/// Groups of which all numbers wait.
pub fn full_groups(alloc: Global, count: u32) -> Result<Vec<u64>, AllocError>
    requires { count ≤ 2 ^ 26 }
    ensures small { IfOk result (λ groups. length groups.items ≤ 2 ^ 26) }
    ensures all { IfOk result (λ groups. (n : ℕ) → n < 64 * count
        → In n (numbers_from 0 groups.items)) }
{
    let mut groups = Vec::new(alloc);
    for g in 0..count {
        groups.push(u64::MAX)?;
    }
    Ok(groups)
}

// Makes empty groups up to the one with this number.
fn grow(groups: &mut Vec<u64>, k: usize) -> Result<(), AllocError>
    requires bound { k < 2 ^ 26 }
    requires small { length groups.old.items ≤ 2 ^ 26 }
    ensures small { length groups.new.items ≤ 2 ^ 26 }
    ensures there { OnOk result (k < length groups.new.items) }
    ensures same { OnOk result (numbers_from 0 groups.new.items ≡ numbers_from 0 groups.old.items) }
{
    'growing: while groups.len() <= k {
        groups.push(0)?;
    }
    Ok(())
}

/// Lets a number wait.
pub fn put_number(groups: &mut Vec<u64>, n: u32) -> Result<(), AllocError>
    requires { length groups.old.items ≤ 2 ^ 26 }
    ensures small { length groups.new.items ≤ 2 ^ 26 }
    ensures waits { OnOk result (Waits (numbers_from 0 groups.old.items)
        (numbers_from 0 groups.new.items) n) }
{
    let k = n as usize / 64;
    grow(groups, k)?;
    groups[k] = with_bit(groups[k], n % 64);
    Ok(())
}

/// Takes the least number of a group that has some.
pub fn take_lowest(groups: &mut Vec<u64>, k: usize) -> u32
    requires small { length groups.old.items ≤ 2 ^ 26 }
    requires some { GroupIsNonempty groups.old.items k }
    ensures small { length groups.new.items ≤ 2 ^ 26 }
    ensures takes { Takes (numbers_from 0 groups.old.items)
        (numbers_from 0 groups.new.items) result }
{
    let bits = groups[k];
    let lowest = bits.trailing_zeros();
    groups[k] = without_bit(bits, lowest);
    k as u32 * 64 + lowest
}

/// The next group that has some, and the direction in which it was found: the one that is given, or
/// the other one where there is none.
pub fn next_nonempty_group(groups: &[u64], at: usize, upwards: bool) -> Option<(usize, bool)>
    ensures some { IfSome result (λ r. GroupIsNonempty groups.now r.0) }
    ensures none { IfNone result (numbers_from 0 groups.now ≡ []) }
{
    if upwards {
        return up_or_down(groups, at);
    }
    down_or_up(groups, at)
}

fn up_or_down(groups: &[u64], at: usize) -> Option<(usize, bool)>
    ensures some { IfSome result (λ r. GroupIsNonempty groups.now r.0) }
    ensures none { IfNone result (numbers_from 0 groups.now ≡ []) }
{
    match next_up(groups, at) {
        Some(k) => Some((k, true)),
        None => match next_down(groups, at) {
            Some(k) => Some((k, false)),
            None => None,
        },
    }
}

fn down_or_up(groups: &[u64], at: usize) -> Option<(usize, bool)>
    ensures some { IfSome result (λ r. GroupIsNonempty groups.now r.0) }
    ensures none { IfNone result (numbers_from 0 groups.now ≡ []) }
{
    match next_down(groups, at) {
        Some(k) => Some((k, false)),
        None => match next_up(groups, at) {
            Some(k) => Some((k, true)),
            None => None,
        },
    }
}

// The first group that has some, from a place on.
fn next_up(groups: &[u64], from: usize) -> Option<usize>
    ensures some { IfSome result (GroupIsNonempty groups.now) }
    ensures none { IfNone result (GroupsEmptyFrom groups.now from) }
{
    let mut k = from;
    'up: while k < groups.len() {
        if groups[k] != 0 {
            return Some(k);
        }
        k += 1;
    }
    None
}

// The last group that has some, up to a place.
fn next_down(groups: &[u64], to: usize) -> Option<usize>
    ensures some { IfSome result (GroupIsNonempty groups.now) }
    ensures none { IfNone result (GroupsEmptyTo groups.now to) }
{
    let mut k = groups.len();
    if to < k {
        k = to + 1;
    }
    'down: while k > 0 {
        k -= 1;
        if groups[k] != 0 {
            return Some(k);
        }
    }
    None
}
