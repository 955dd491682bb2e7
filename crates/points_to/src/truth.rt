// Two truth values together.

ghost use Rattle.std.specs.Prelude.{◌≡◌, ◌||◌};

/// Whether one of two holds.
pub fn either(a: bool, b: bool) -> bool
    ensures { result ≡ (a || b) }
{
    a || b
}
