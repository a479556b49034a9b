// A program as a tree: every form of the language, each name and each place.
use ae_text::{Boxed, Items, Spot};

/// A name by its number in `Program::names`: 0 is `io`, 1 is `main`, 2 is `this`, the others in order of first use.
pub type Name = u32;

/// The number of `io`, the group of output.
pub const IO: Name = 0;

/// The number of `main`, the method that a program begins with.
pub const MAIN: Name = 1;

/// The number of `this`, the receiver.
pub const THIS: Name = 2;

/// A name and where it stands.
#[derive(Clone, Copy, Debug, PartialEq, Eq)]
pub struct NameAt {
    pub name: Name,
    pub at: Spot,
}

/// A permission, with its place.
#[derive(Clone, Copy, Debug, PartialEq, Eq)]
pub enum PermAt {
    Unique(Spot),
    Immutable(Spot),
    Lent(Spot),
    Shared(Spot, NameAt),
}

/// An array of integers, or a class with its groups, with their places.
#[derive(Drop)]
pub enum KindAt {
    Ints(Spot),
    Class(NameAt, Items<NameAt>),
}

/// A type as it is written.
#[derive(Drop)]
pub enum Ty {
    Int(Spot),
    Bool(Spot),
    Object(PermAt, KindAt),
}

/// A local and the fields that lead on from it.
#[derive(Drop)]
pub struct Path {
    pub root: NameAt,
    pub steps: Items<NameAt>,
}

/// An operator between two operands.
#[derive(Clone, Copy, Debug, PartialEq, Eq)]
pub enum Op {
    Or,
    And,
    Eq,
    Ne,
    Lt,
    Le,
    Gt,
    Ge,
    Add,
    Sub,
    Mul,
    Div,
    Rem,
}

/// An expression. The place of a form is that of its first token, where no part of it has it.
#[derive(Drop)]
pub enum Expr {
    Int(i64, Spot),
    Bool(bool, Spot),
    Null(Spot),
    Path(Path),
    Index(Path, Boxed<Expr>),
    Len(Path, Spot),
    Paren(Boxed<Expr>, Spot),
    Not(Boxed<Expr>, Spot),
    Neg(Boxed<Expr>, Spot),
    Bin(Op, Boxed<Expr>, Boxed<Expr>),
}

/// A call of a method, with its receiver where it has one.
#[derive(Drop)]
pub struct Call {
    pub on: Option<Path>,
    pub method: NameAt,
    pub groups: Items<NameAt>,
    pub args: Items<Expr>,
}

/// What stands right of a `=`: an expression, a field taken, new integers, a new object, or a call.
#[derive(Drop)]
pub enum Rhs {
    Expr(Expr),
    Take(Path, Spot),
    Ints(Expr, Spot),
    New(NameAt, Items<NameAt>, Items<Expr>, Spot),
    Call(Call),
}

/// What a statement does.
#[derive(Drop)]
#[cycle(tree)]
pub enum StmtKind {
    Let(Ty, NameAt, Rhs),
    Assign(NameAt, Rhs),
    Field(Path, Expr),
    Index(Path, Expr, Expr),
    Call(Call),
    If(Expr, Block, Option<Block>),
    While(Expr, Block),
    Group(NameAt),
    Split(Items<NameAt>, Block),
    Atomic(NameAt, Block),
    Freeze(NameAt),
    Share(NameAt, NameAt),
    PrintExpr(Expr),
    PrintText(Items<u8>),
    Assert(Expr),
    Return(Expr),
}

/// A statement and the place of its first token.
#[derive(Drop)]
#[cycle(tree)]
pub struct Stmt {
    pub kind: StmtKind,
    pub at: Spot,
}

/// Statements in braces. The number is the order of opening in the method; a method's body is 0.
#[derive(Drop)]
#[cycle(tree)]
pub struct Block {
    pub no: u32,
    pub stmts: Items<Stmt>,
}

/// A parameter. `away` is the place of `>> none`, where the caller gets nothing back.
#[derive(Drop)]
pub struct Param {
    pub ty: Ty,
    pub name: NameAt,
    pub away: Option<Spot>,
}

/// The receiver of a class's method, with the place of `this`.
#[derive(Clone, Copy, Debug)]
pub struct Me {
    pub perm: PermAt,
    pub at: Spot,
    pub away: Option<Spot>,
}

/// What a method needs of a group.
#[derive(Clone, Copy, Debug, PartialEq, Eq)]
pub enum Need {
    Exclusive,
    Shared,
    Protected,
}

/// A need and its group.
#[derive(Clone, Copy, Debug)]
pub struct GroupNeed {
    pub need: Need,
    pub group: NameAt,
}

/// A method, of a class where `class` has its number. No result is `void`.
#[derive(Drop)]
pub struct Method {
    pub class: Option<u32>,
    pub result: Option<Ty>,
    pub name: NameAt,
    pub groups: Items<NameAt>,
    pub me: Option<Me>,
    pub params: Items<Param>,
    pub needs: Items<GroupNeed>,
    pub body: Block,
}

/// A field of a class.
#[derive(Drop)]
pub struct Field {
    pub ty: Ty,
    pub name: NameAt,
}

/// A class. Its methods stand in `Program::methods` under these numbers.
#[derive(Drop)]
pub struct Class {
    pub name: NameAt,
    pub groups: Items<NameAt>,
    pub fields: Items<Field>,
    pub methods: Items<u32>,
}

/// A declaration at the top of a program, by its number.
#[derive(Clone, Copy, Debug, PartialEq, Eq)]
pub enum Decl {
    Class(u32),
    Method(u32),
}

/// A whole program: the spellings of its names, its classes and methods in source order, and the order of both.
#[derive(Drop)]
pub struct Program {
    pub names: Items<Items<u8>>,
    pub classes: Items<Class>,
    pub methods: Items<Method>,
    pub decls: Items<Decl>,
}

/// A statement by its numbers: the method, the block in it, the place in the block.
#[derive(Clone, Copy, Debug, PartialEq, Eq)]
pub struct StmtAt {
    pub method: u32,
    pub block: u32,
    pub stmt: u32,
}
