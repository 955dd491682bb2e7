// How items go to their labels.

ghost use Rattle.std.specs.Prelude.{◌≡◌, ◌≤◌, nat_lt, nat_le};
ghost use Rattle.rv32_layout.specs.Forms.{reaches, shortest, width};
ghost use Rattle.rv32_layout.specs.Places.{way_at};
ghost use Rattle.limits.specs.Limits.{most_code};

use rv32_items::Item;

/// How many words back a branch goes; forward it goes one less.
pub const BRANCH_RANGE: u32 = 1024;

/// How many words back a jump goes; forward it goes one less.
pub const JUMP_RANGE: u32 = 262144;

/// How a branch or a jump goes to its label.
#[derive(Clone, Copy, Debug, PartialEq, Eq, Drop)]
pub enum Way {
    /// By itself.
    ByBranch,
    /// By JAL. A branch becomes the opposite branch over it.
    ByJump,
    /// By AUIPC and JALR. A branch becomes the opposite branch over them.
    ByAddress,
}

/// The way of item `n`, which is the longest where none is given.
pub fn way_of(ways: &[Way], n: usize) -> Way
    ensures { result ≡ way_at ways.now n }
{
    match ways.get(n) {
        Some(way) => *way,
        None => Way::ByAddress,
    }
}

/// How many words an item takes that goes this way.
pub fn width(way: Way, item: &Item) -> u32
    ensures { result ≡ width way item.now }
{
    match item {
        Item::Label(_) => 0,
        Item::Plain(_) => 1,
        Item::Branch { .. } => match way {
            Way::ByBranch => 1,
            Way::ByJump => 2,
            Way::ByAddress => 3,
        },
        Item::Jump { .. } => match way {
            Way::ByBranch | Way::ByJump => 1,
            Way::ByAddress => 2,
        },
    }
}

/// The shortest way of an item that begins at word `at`, ends before word `end` and goes to word
/// `to`. It still reaches where distances shrink.
pub fn shortest(at: u32, end: u32, to: u32, item: &Item) -> Way
    requires { (at ≤ most_code) × ((end ≤ most_code) × (to ≤ most_code)) }
    ensures { result ≡ shortest at end to item.now }
{
    match item {
        Item::Label(_) | Item::Plain(_) => Way::ByBranch,
        Item::Branch { .. } => {
            if reaches(BRANCH_RANGE, 0, at, end, to) {
                Way::ByBranch
            } else if reaches(JUMP_RANGE, 1, at, end, to) {
                Way::ByJump
            } else {
                Way::ByAddress
            }
        }
        Item::Jump { .. } => {
            if reaches(JUMP_RANGE, 0, at, end, to) {
                Way::ByJump
            } else {
                Way::ByAddress
            }
        }
    }
}

fn reaches(range: u32, before: u32, at: u32, end: u32, to: u32) -> bool
    requires range { (range ≤ 262144) × (before ≤ 2) }
    requires room { (at ≤ most_code) × ((end ≤ most_code) × (to ≤ most_code)) }
    ensures { result ≡ reaches range before at end to }
{
    to + 1 < end + range && at + before <= to + range
}
