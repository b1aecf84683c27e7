//! The trees of a source text: one variant for each form of the grammar, each node with its span.
//!
//! A chain of operators, the suffixes of a postfix expression and the marks of a pointer type are lists. So a tree is
//! as deep as its brackets and prefix operators nest, and not as long as its text.
#![tactic(auto)]

mod decl;
mod expr;
mod identifier;
mod literal;
mod operator;
mod span;
mod stmt;
mod types;

pub use cxx_type::{BasicType, CxxType, Layer, Layers};
pub use decl::{
    Access, AliasTree, AliasedTree, AssertTree, BaseTree, BasedTree, BlockTree, ClassKey,
    ClassTree, ConstructorTree, Decl, DestructorTree, EnumTree, EnumeratorTree, Evaluated,
    FunctionTree, Item, Member, MemberInit, MemberInitValue, NamespaceAliasTree, NamespaceNamed,
    ParameterTree, Specifiers, Unit, VariableTree,
};
pub use expr::{
    ArgTree, ArgTrees, BasicTree, BracedTree, Designator, Expr, NewInit, Operation, SpliceTree,
    Suffix, TypeTree,
};
pub use identifier::{Identifier, NameTree};
pub use literal::IntegerLiteral;
pub use operator::{BinaryOp, UnaryOp};
pub use stmt::{
    AssignTree, BodyTree, BoundTree, ForHead, ForInit, ForRange, ForStep, InitTree, LocalTree,
    Returned, StepOp, Stmt,
};
pub use types::Fund;
