//! Which keywords and signs a text may have.

/// Core, or one of the languages around it, each of which has Core's tokens and a few of its own.
#[derive(Clone, Copy, Debug, PartialEq, Eq)]
pub enum Dialect {
    /// Core itself, which has no further token.
    Core,
    /// Modules, with the keywords `module`, `export` and `import`.
    Modules,
    /// Core with lambdas, with the sign `\`.
    Lambdas,
    /// Core with types, with the keywords `type` and `sig` and the signs `|` and `:`.
    Types,
}
