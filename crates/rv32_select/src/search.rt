// Arms whose numbers are looked for by halves.
#![tactic(auto)]

ghost use Rattle.std.specs.Prelude.{◌≡◌, ◌∷◌, [], ◌≤◌, length, None, IfSome, true};
ghost use Rattle.low_code.specs.declared.program.LowTest.{LowTest};
ghost use Rattle.rv32_select.specs.Halves.{is_alone as is_alone_from};
ghost use Rattle.rv32_select.specs.Emitting.{TestsAscend, TestsAscendIfSearched};

use crate::rare::is_common;
use low_code::{LowArm, LowBlock, Operand};

/// The most words of a test of a number.
const WORDS_OF_TEST: u32 = 4;

/// The fewest arms that are looked for by halves.
const FEWEST: usize = 9;

/// The label where no arm's number is the word, the word, and the bounds of what it can be.
#[derive(Clone, Copy)]
pub(crate) struct Search {
    pub(crate) miss: u32,
    pub(crate) word: Operand,
    pub(crate) low: u32,
    pub(crate) high: Option<u32>,
}

impl Search {
    /// Whether the word can be one number only.
    pub(crate) fn is_alone(self) -> bool
        ensures { result ≡ is_alone_from self.low self.high }
    {
        match self.high {
            None => false,
            Some(high) => u64::from(self.low) + 1 == u64::from(high),
        }
    }
}

/// The number of an arm with one test, of this word.
fn number_where(arm: &LowArm, word: Operand) -> Option<u32>
    ensures { IfSome result (λ number.
        arm.now.tests ≡ record { left = word; right = number } ∷ []) }
{
    let tests = arm.tests.as_slice();
    if tests.len() != 1 {
        return None;
    }
    let test = tests[0];
    if test.left != word {
        return None;
    }
    Some(test.right)
}

/// Whether each arm has one test, of this word, and the numbers rise.
fn rises(arms: &[LowArm], word: Operand) -> bool
    ensures { result ≡ true → TestsAscend word 0 None arms.now }
{
    let mut low = 0;
    for arm in arms {
        let Some(number) = number_where(arm, word) else {
            return false;
        };
        if u64::from(number) < low {
            return false;
        }
        low = u64::from(number) + 1;
    }
    true
}

/// The number against which an arm's first test is.
pub(crate) fn number_of(arm: &LowArm) -> u32
    requires { 1 ≤ length arm.now.tests }
    ensures { (test : LowTest) → arm.now.tests ≡ test ∷ [] → result ≡ test.right }
{
    arm.tests.as_slice()[0].right
}

/// The words by which a search is longer than tests one after another: a number is tested where the
/// one right behind it isn't there, and the first number where it isn't 0.
pub(crate) fn extra_words(arms: &[LowArm], word: Operand) -> u32 {
    let mut words: u32 = 0;
    let mut next: u64 = 0;
    for arm in arms {
        let number = number_where(arm, word).unwrap_or(0);
        if u64::from(number) != next {
            words = words.saturating_add(WORDS_OF_TEST);
        }
        next = u64::from(number) + 1;
    }
    words
}

/// The word that arms look for by halves, where that takes no more words than were spared, and the
/// first arm isn't likely the common one.
pub(crate) fn searched_word(spared: u32, arms: &[LowArm], otherwise: &LowBlock) -> Option<Operand>
    ensures { TestsAscendIfSearched result arms.now }
{
    if arms.len() < FEWEST {
        return None;
    }
    if is_common(&arms[0].block, otherwise) {
        return None;
    }
    let Some(test) = arms[0].tests.as_slice().first() else {
        return None;
    };
    if extra_words(arms, test.left) > spared {
        return None;
    }
    if rises(arms, test.left) {
        return Some(test.left);
    }
    None
}
