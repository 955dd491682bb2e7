// A program: procedures, blocks, statements and operations.

use seq::{Seq, Text};

/// The number of a variable. In a well-formed program each is bound at one place.
#[derive(Clone, Copy, Debug, PartialEq, Eq)]
pub struct VarId(pub u32);

/// The number of a place at which cells are made: a global cell, or a cell of a store.
#[derive(Clone, Copy, Debug, PartialEq, Eq)]
pub struct Site(pub u32);

/// The number of a procedure: its place in the list of procedures, from 0.
#[derive(Clone, Copy, Debug, PartialEq, Eq)]
pub struct ProcId(pub u32);

/// The number of a tag: its place in the list of tags, from 0.
#[derive(Clone, Copy, Debug, PartialEq, Eq)]
pub struct TagId(pub u32);

/// The operations on two numbers: the sum, difference and product modulo 2^32, the quotient and the
/// remainder as RISC-V divides, and whether the first is equal to or less than the second, as 1 or
/// 0.
#[derive(Clone, Copy, Debug, PartialEq, Eq)]
pub enum PrimOp {
    Add,
    Sub,
    Mul,
    Quot,
    Rem,
    Eq,
    Lt,
}

/// What one field, parameter or word of a vector is.
#[derive(Clone, Copy, Debug, PartialEq, Eq)]
pub enum Word {
    /// A number.
    Lit(i32),
    /// What this variable stands for.
    Var(VarId),
    /// The address of the global cell at this place in the list of global cells.
    Global(u32),
    /// A tag, as the first word of a vector.
    TagWord(TagId),
}

/// A value: a node or words.
#[derive(Drop)]
pub enum Val {
    /// The node that this variable stands for.
    NodeVar(VarId),
    /// A node of this tag with these fields.
    Node(TagId, Seq<Word>),
    /// Several words, the first of which is a tag where they are meant as a node.
    Vector(Seq<Word>),
    /// One word.
    One(Word),
}

/// What takes the value of an operation.
#[derive(Drop)]
pub enum Target {
    /// Nobody: the operation is done for what it does.
    Nothing,
    /// A variable that stands for a node.
    Node(VarId),
    /// A variable that stands for one word.
    One(VarId),
    /// A variable for each word.
    Vector(Seq<VarId>),
}

/// A new cell of a store.
#[derive(Drop)]
pub struct Cell {
    /// What stands for the address, in all cells of the store and after it.
    pub var: VarId,
    /// The place that makes it.
    pub site: Site,
    /// What it holds.
    pub val: Val,
}

/// The pattern of an alternative.
#[derive(Drop)]
pub enum Shape {
    /// Fits nodes of this tag, and binds their fields, or nothing where the list is empty.
    Node(TagId, Seq<VarId>),
    /// Fits this number alone.
    Int(i32),
    /// Fits everything.
    Else,
}

/// An operation. `write` and `update` are done for what they do; the others give a value.
#[derive(Drop)]
#[cycle(code)]
pub enum Op {
    /// Gives the value.
    Unit(Val),
    /// Gives the node of the cell at this address.
    Fetch(Word),
    /// Gives one word of that node: 0 is the tag, and the fields follow.
    FetchWord(Word, u32),
    /// Writes the value over the cell at this address.
    Update(Word, Val),
    /// Evaluates the cell at this address, and gives its node.
    Eval(Word),
    /// Gives the function one argument more, and calls its procedure where none is missing then.
    Apply(Val, Word),
    /// Calls the procedure with these arguments.
    Call(ProcId, Seq<Word>),
    /// Gives the number that the operation makes of two numbers.
    Prim(PrimOp, Word, Word),
    /// Takes the next byte of the input, and gives it, or -1 at the end.
    Read,
    /// Puts out the low byte of a number.
    Write(Word),
    /// Does the first alternative that fits the value.
    Case(Val, Seq<Alt>),
    /// Does the block, and gives what it gives.
    Nested(Box<Block>),
    /// Ends the program, as no alternative accepts a value.
    Fail,
}

/// A statement of a block.
#[derive(Drop)]
#[cycle(code)]
pub enum Stmt {
    /// Makes new cells at once; they may hold the addresses of one another.
    Store(Seq<Cell>),
    /// Does the operation, whose value the target takes.
    Bind(Target, Op),
}

/// Statements, one after another, and a last operation, which says what the block gives.
#[derive(Drop)]
#[cycle(code)]
pub struct Block {
    /// The statements, in the order in which they are done.
    pub stmts: Seq<Stmt>,
    /// The last operation.
    pub last: Box<Op>,
}

/// An alternative of a case.
#[derive(Drop)]
#[cycle(code)]
pub struct Alt {
    /// What it fits.
    pub pattern: Shape,
    /// What is done where it fits.
    pub body: Block,
}

/// What nodes of a tag are.
#[derive(Clone, Copy, Debug, PartialEq, Eq)]
pub enum TagKind {
    /// A constructor or a number.
    Con,
    /// Something that is put off: a call of the procedure of the tag.
    Fun,
    /// A function that lacks arguments.
    Part,
}

/// What a tag stands for.
#[derive(Drop)]
pub struct Tag {
    /// What its nodes are.
    pub kind: TagKind,
    /// Its name in a listing, after the letter of its kind.
    pub name: Text,
    /// How many arguments are missing of a function that lacks some.
    pub missing: u32,
    /// How many fields its nodes have.
    pub fields: u32,
    /// The procedure that is called once no argument is missing; a constructor needs none.
    pub proc: Option<ProcId>,
}

/// A cell that is there from the start. Its node has no fields.
#[derive(Drop)]
pub struct GlobalCell {
    /// Its name in a listing.
    pub name: Text,
    /// The place that makes it.
    pub site: Site,
    /// The tag of its node.
    pub tag: TagId,
}

/// A procedure.
#[derive(Drop)]
pub struct Proc {
    /// Its name in a listing.
    pub name: Text,
    /// The variables that stand for its arguments, a word each.
    pub params: Seq<VarId>,
    /// What it does, and what it gives.
    pub body: Block,
}

/// A program.
#[derive(Drop)]
pub struct Grin {
    /// The tags, by their numbers; tag 0 is that of numbers.
    pub tags: Seq<Tag>,
    /// The global cells, by their numbers.
    pub globals: Seq<GlobalCell>,
    /// The procedures, by their numbers.
    pub procs: Seq<Proc>,
    /// The procedure that a run begins with.
    pub start: ProcId,
    /// The number of the global cell whose address the start is given, if it takes one.
    pub argument: Option<u32>,
}
