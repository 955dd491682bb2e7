//! Why texts are not linked.

ghost use Rattle.std.specs.Prelude.{◌≡◌, alloc_error};
ghost use Rattle.core_link.specs.Rules.{rule_of};

use std::alloc::AllocError;
use thiserror::Error;

/// The first rule that the texts break, with the text and the place in it, or want of memory.
#[derive(Clone, Copy, Debug, Error)]
#[error("in text {file}: {kind}")]
pub struct LinkRefusal {
    /// The number of the text, in the order in which they were added, from 0; 0 for want of memory.
    pub file: u32,
    /// The rule and the place.
    pub kind: LinkKind,
}

/// A rule with the place in bytes at which a text breaks it, or want of memory.
#[derive(Clone, Copy, Debug, Error)]
pub enum LinkKind {
    /// Rule 1: no token begins at this byte.
    #[error("no token begins at byte {0}")]
    BadByte(u32),
    /// Rule 2: no module begins with the tokens up to this one, or the text ends too early.
    #[error("the token at byte {0} cannot stand there")]
    Syntax(u32),
    /// Rule 3: an integer is outside -2147483648 to 2147483647.
    #[error("the integer at byte {0} is out of range")]
    NumberRange(u32),
    /// Rule 4: this `(`, `let` or `case` would be the 201st open one.
    #[error("too many constructs are open at byte {0}")]
    TooDeep(u32),
    /// Rule 5: the text has more than 1,048,576 bytes, which is the place.
    #[error("the text has more than {0} bytes")]
    TextTooLong(u32),
    /// Rule 22: a function or a binder has the name of a primitive, or a constructor is named
    /// `Int`; the name.
    #[error("the name at byte {0} is reserved")]
    ReservedName(u32),
    /// Rule 52: an earlier text has this module's name; the name.
    #[error("the module at byte {0} stands again")]
    DuplicateModule(u32),
    /// Rule 53: an import names no module of the texts; the module's name.
    #[error("the module at byte {0} is unknown")]
    UnknownModule(u32),
    /// Rule 54: the module doesn't export the name; the name.
    #[error("the name at byte {0} is not exported")]
    NotExported(u32),
    /// Rule 55: an exported name isn't declared in the module; the name.
    #[error("the exported name at byte {0} is not declared")]
    ExportUnknown(u32),
    /// Rule 56: an imported name was imported before or is declared in the module; the name.
    #[error("the imported name at byte {0} is there already")]
    DuplicateImport(u32),
    /// Rule 57: a name or a constructor is neither local, declared, imported nor a primitive; the
    /// use.
    #[error("the name at byte {0} is not bound")]
    UnknownName(u32),
    /// Rule 58: a function is declared again in its module, or a constructor in any; the name.
    #[error("the name at byte {0} is declared again")]
    DuplicateDeclaration(u32),
    /// Rule 59: no module `Main` declares a `main`; the place is 0.
    #[error("no module `Main` declares a `main`")]
    NoMainModule(u32),
    #[error("out of memory")]
    Memory(AllocError),
}

impl From<AllocError> for LinkRefusal {
    ghost use Rattle.core_link.specs.declared.refusal.LinkKind.TheVariants.{Memory};

    ghost from_gives = { λ _ e. e ≡ record { file = 0; kind = Memory alloc_error } };

    fn from(error: AllocError) -> LinkRefusal {
        LinkRefusal {
            file: 0,
            kind: LinkKind::Memory(error),
        }
    }
}

impl LinkKind {
    /// The number of the broken rule with its place; none for want of memory.
    pub fn rule(self) -> Option<(u8, u32)>
        ensures { result ≡ rule_of self }
    {
        match self {
            LinkKind::BadByte(at) => Some((1, at)),
            LinkKind::Syntax(at) => Some((2, at)),
            LinkKind::NumberRange(at) => Some((3, at)),
            LinkKind::TooDeep(at) => Some((4, at)),
            LinkKind::TextTooLong(at) => Some((5, at)),
            LinkKind::ReservedName(at) => Some((22, at)),
            LinkKind::DuplicateModule(at) => Some((52, at)),
            LinkKind::UnknownModule(at) => Some((53, at)),
            LinkKind::NotExported(at) => Some((54, at)),
            LinkKind::ExportUnknown(at) => Some((55, at)),
            LinkKind::DuplicateImport(at) => Some((56, at)),
            LinkKind::UnknownName(at) => Some((57, at)),
            LinkKind::DuplicateDeclaration(at) => Some((58, at)),
            LinkKind::NoMainModule(at) => Some((59, at)),
            LinkKind::Memory(_) => None,
        }
    }
}
