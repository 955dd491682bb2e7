//! What the definitions of equations, their rules and their trees say by themselves.

ghost use Rattle.match_compile.specs.Laws.{SourceIsUnique, FirstFaultIsUnique, ReadIsReadable, UnbrokenIsCompilable, InsertionKeepsTree, SingleRowIsTree, TreesCoverEquations, SizeIsBounded, SourceBreaksOnlySize, BreaksOnlySize, SourceKeepsSimpleWhole, SimpleStaysOneFunction, FormIsUnique, ServedWithin, ServedInStep, SourceKeepsMeaning, TranslationKeepsMeaning};
ghost use Rattle.match_compile.specs.Stays.{EvaluationKeepsValues};
ghost use Rattle.match_compile.specs.Jobs.{KnownValueSpecialises};
ghost use Rattle.match_compile.specs.Examples.{Examples};

/// A text stands for the equations of one source at most.
pub fn source_is_unique()
    ensures { SourceIsUnique }
{}

/// At most one rule is the first that a text breaks, at one place.
pub fn first_fault_is_unique()
    ensures { FirstFaultIsUnique }
{}

/// The equations of a text that breaks none of the rules 1 to 5 are readable.
pub fn read_is_readable()
    ensures { ReadIsReadable }
{}

/// The equations of a text that breaks no rule can be compiled.
pub fn unbroken_is_compilable()
    ensures { UnbrokenIsCompilable }
{}

/// A row that goes into a tree for others makes it a tree for all of them, in their order.
pub fn insertion_keeps_tree()
    ensures { InsertionKeepsTree }
{}

/// A row by itself is a tree.
pub fn single_row_is_tree()
    ensures { SingleRowIsTree }
{}

/// The trees of a function stand for its equations, each for some of them, in their order.
pub fn trees_cover_equations()
    ensures { TreesCoverEquations }
{}

/// The evaluation of equations takes no name from the heap and leaves each value as it was.
pub fn evaluation_keeps_values()
    ensures { EvaluationKeepsValues }
{}

/// The program that equations become is no larger than they are, with 16 for each test.
pub fn size_is_bounded()
    ensures { SizeIsBounded }
{}

/// Equations that break no rule, of which each as a function of its own is in a program that breaks
/// none, become a program that breaks no rule but the one on its size.
pub fn source_breaks_only_size()
    ensures { SourceBreaksOnlySize }
{}

/// The same of the equations of a text.
pub fn breaks_only_size()
    ensures { BreaksOnlySize }
{}

/// A function that is simple, or one equation of names alone, becomes one function.
pub fn source_keeps_simple_whole()
    ensures { SourceKeepsSimpleWhole }
{}

/// The same of the equations of a text.
pub fn simple_stays_one_function()
    ensures { SimpleStaysOneFunction }
{}

/// A value that is known decides the tests of its name that come first, whatever was tried before.
pub fn known_value_specialises()
    ensures { KnownValueSpecialises }
{}

/// Equations have one normal form at most.
pub fn form_is_unique()
    ensures { FormIsUnique }
{}

/// A program whose functions serve equations puts out what they do, and needs no more units for one
/// of theirs than the functions that serve one function at most.
pub fn served_within()
    ensures { ServedWithin }
{}

/// Where each function is served by one, they put out the same within the same units.
pub fn served_in_step()
    ensures { ServedInStep }
{}

/// Where equations that have a meaning become a program that breaks no rule, they have a normal
/// form, and the program puts out what they do.
pub fn source_keeps_meaning()
    ensures { SourceKeepsMeaning }
{}

/// The same of the equations of a text.
pub fn translation_keeps_meaning()
    ensures { TranslationKeepsMeaning }
{}

/// What small texts of equations become and put out, computed from the definitions.
pub fn examples()
    ensures { Examples }
{}
