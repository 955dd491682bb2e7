//! What one test accepts.

ghost use Rattle.std.specs.Prelude.{◌≡◌};
ghost use Rattle.match_compile.specs.Heads.{same_head, same_kind};

/// What a branch accepts.
#[derive(Clone, Copy)]
pub enum Head {
    /// This integer.
    Integer(i32),
    /// The values of the constructor of this name.
    Constructor(u32),
}

impl Head {
    /// Whether both accept the same values.
    pub fn is_same(self, other: Head) -> bool
        ensures { result ≡ same_head self other }
    {
        match self {
            Head::Integer(k) => match other {
                Head::Integer(j) => k == j,
                Head::Constructor(_) => false,
            },
            Head::Constructor(c) => match other {
                Head::Integer(_) => false,
                Head::Constructor(d) => c == d,
            },
        }
    }

    /// Whether both are integers, or both constructors.
    pub fn is_like(self, other: Head) -> bool
        ensures { result ≡ same_kind self other }
    {
        match self {
            Head::Integer(_) => match other {
                Head::Integer(_) => true,
                Head::Constructor(_) => false,
            },
            Head::Constructor(_) => match other {
                Head::Integer(_) => false,
                Head::Constructor(_) => true,
            },
        }
    }
}
