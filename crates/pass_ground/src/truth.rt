// Truth values joined without a branch, so that one fact tells what came of it.

ghost use Rattle.std.specs.Prelude.{◌≡◌, ◌||◌, ◌&&◌};

/// One of the two holds.
pub fn either(a: bool, b: bool) -> bool
    ensures { result ≡ (a || b) }
{
    if a { true } else { b }
}

/// Both hold.
pub fn both(a: bool, b: bool) -> bool
    ensures { result ≡ (a && b) }
{
    if a { b } else { false }
}
