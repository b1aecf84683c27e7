//! Expressions, with the types, splices and lists that stand in them.

ghost use Rattle.std.specs.Prelude.{◌≡◌, MatchResult};
ghost use Rattle.cxx_tree.specs.declared.expr.NewInit.TheVariants as init_of;

use crate::identifier::{Identifier, NameTree};
use crate::literal::IntegerLiteral;
use crate::operator::{BinaryOp, UnaryOp};
use crate::types::Fund;
use containers::{Boxed, Items};
use cxx_base::{Bytes, Span};

/// An expression ([expr]).
#[cycle(tree)]
pub enum Expr {
    Integer(Span, IntegerLiteral),
    Character(Span, u8),
    /// The bytes that a string literal means, without the zero byte at its end.
    Text(Span, Bytes),
    Truth(Span, bool),
    Nullptr(Span),
    This(Span),
    Name(NameTree),
    /// `( expr )`
    Paren(Span, Boxed<Expr>),
    Splice(SpliceTree),
    /// A type and a braced list.
    Braced(Span, Boxed<BasicTree>, Boxed<BracedTree>),
    /// A fundamental type and arguments. (Where a name stands for a type, it is a `Postfix` with a call.)
    FundCall(Span, Fund, ArgTrees),
    /// `typename`, a splice and arguments.
    TypenameCall(Span, SpliceTree, Boxed<ArgTrees>),
    StaticCast(Span, Boxed<TypeTree>, Boxed<Expr>),
    /// `name < type > ( expr )`, where the last of at least two parts of the name is `extract` (P2996R13).
    Extract(Span, Boxed<NameTree>, Boxed<TypeTree>, Boxed<Expr>),
    /// An expression and its suffixes, from left to right, of which there is at least one.
    Postfix(Span, Boxed<Expr>, Items<Suffix>),
    Unary(Span, UnaryOp, Boxed<Expr>),
    /// `^^ ::`
    ReflectGlobal(Span),
    /// `^^ type` (P2996R13). A name alone is a type form, and may stand for any entity.
    Reflect(Span, Boxed<TypeTree>),
    /// `sizeof ( type )`. A name alone is a type form, and may stand for an expression.
    SizeofType(Span, Boxed<TypeTree>),
    SizeofExpr(Span, Boxed<Expr>),
    /// Whether `[ ]` stands behind `delete`, and its operand.
    Delete(Span, bool, Boxed<Expr>),
    /// The type of `new`, its bound and its initializer.
    New(Span, Boxed<TypeTree>, Option<Boxed<Expr>>, Option<Boxed<NewInit>>),
    /// The operands of a chain of operators of one line of precedence, which group to the left. There is at least one
    /// operation.
    Chain(Span, Boxed<Expr>, Items<Operation>),
    Conditional(Span, Boxed<Expr>, Boxed<Expr>, Boxed<Expr>),
}

impl Drop for Expr {
    #[cycle(dropping_tree)]
    fn drop(self) {
        match self {
            Expr::Integer(_, _) => {}
            Expr::Character(_, _) => {}
            Expr::Text(_, _) => {}
            Expr::Truth(_, _) => {}
            Expr::Nullptr(_) => {}
            Expr::This(_) => {}
            Expr::Name(_) => {}
            Expr::Paren(_, _) => {}
            Expr::Splice(_) => {}
            Expr::Braced(_, _, _) => {}
            Expr::FundCall(_, _, _) => {}
            Expr::TypenameCall(_, _, _) => {}
            Expr::StaticCast(_, _, _) => {}
            Expr::Extract(_, _, _, _) => {}
            Expr::Postfix(_, _, _) => {}
            Expr::Unary(_, _, _) => {}
            Expr::ReflectGlobal(_) => {}
            Expr::Reflect(_, _) => {}
            Expr::SizeofType(_, _) => {}
            Expr::SizeofExpr(_, _) => {}
            Expr::Delete(_, _, _) => {}
            Expr::New(_, _, _, _) => {}
            Expr::Chain(_, _, _) => {}
            Expr::Conditional(_, _, _, _) => {}
        }
    }
}

/// A binary operator and the operand behind it.
#[cycle(tree)]
pub enum Operation {
    Operation(Span, BinaryOp, Expr),
}

impl Drop for Operation {
    #[cycle(dropping_tree)]
    fn drop(self) {
        let Operation::Operation(_, _, _) = self;
    }
}

/// What stands behind an operand in a postfix expression ([expr.post]).
#[cycle(tree)]
pub enum Suffix {
    Call(ArgTrees),
    /// `[ expr ]`
    Subscript(Span, Boxed<Expr>),
    /// Whether it is `->`, and the member.
    Member(Span, bool, Identifier),
    MemberSplice(Span, bool, SpliceTree),
}

impl Drop for Suffix {
    #[cycle(dropping_tree)]
    fn drop(self) {
        match self {
            Suffix::Call(_) => {}
            Suffix::Subscript(_, _) => {}
            Suffix::Member(_, _, _) => {}
            Suffix::MemberSplice(_, _, _) => {}
        }
    }
}

/// The initializer of `new` ([expr.new]).
#[cycle(tree)]
pub enum NewInit {
    Args(ArgTrees),
    Braced(BracedTree),
}

impl Drop for NewInit {
    #[cycle(dropping_tree)]
    fn drop(self) {
        match self {
            NewInit::Args(_) => {}
            NewInit::Braced(_) => {}
        }
    }
}

impl NewInit {
    /// The arguments, or else, as the error, the braced list.
    pub fn into_args(self) -> Result<ArgTrees, BracedTree>
        ensures { MatchResult result (λ args. self ≡ init_of.Args args) (λ list. self ≡ init_of.Braced list) }
    {
        match self {
            NewInit::Args(args) => Ok(args),
            NewInit::Braced(list) => Err(list),
        }
    }
}

/// `[: expr :]` (P2996R13).
#[cycle(tree)]
pub enum SpliceTree {
    Splice(Span, Boxed<Expr>),
}

impl Drop for SpliceTree {
    #[cycle(dropping_tree)]
    fn drop(self) {
        let SpliceTree::Splice(_, _) = self;
    }
}

/// A type ([dcl.name]): whether it is const, what it is made of, for each `*` whether it is const, and whether it is a
/// reference.
#[cycle(tree)]
pub enum TypeTree {
    Type(Span, bool, BasicTree, Items<bool>, bool),
}

impl Drop for TypeTree {
    #[cycle(dropping_tree)]
    fn drop(self) {
        let TypeTree::Type(_, _, _, _, _) = self;
    }
}

/// What a type is made of ([dcl.type.simple]).
#[cycle(tree)]
pub enum BasicTree {
    Fund(Span, Fund),
    Name(NameTree),
    /// `typename` and a splice.
    Typename(Span, SpliceTree),
    /// `std::vector< name >`
    Vector(Span, NameTree),
}

impl Drop for BasicTree {
    #[cycle(dropping_tree)]
    fn drop(self) {
        match self {
            BasicTree::Fund(_, _) => {}
            BasicTree::Name(_) => {}
            BasicTree::Typename(_, _) => {}
            BasicTree::Vector(_, _) => {}
        }
    }
}

/// A braced list ([dcl.init.list]), of clauses or of designators.
#[cycle(tree)]
pub enum BracedTree {
    Clauses(Span, Items<ArgTree>),
    /// There is at least one.
    Designated(Span, Items<Designator>),
}

impl Drop for BracedTree {
    #[cycle(dropping_tree)]
    fn drop(self) {
        match self {
            BracedTree::Clauses(_, _) => {}
            BracedTree::Designated(_, _) => {}
        }
    }
}

/// A clause with a designator ([dcl.init.aggr]).
#[cycle(tree)]
pub enum Designator {
    /// `. identifier = clause`
    Equal(Span, Identifier, ArgTree),
    /// `. identifier braced`
    Braced(Span, Identifier, BracedTree),
}

impl Drop for Designator {
    #[cycle(dropping_tree)]
    fn drop(self) {
        match self {
            Designator::Equal(_, _, _) => {}
            Designator::Braced(_, _, _) => {}
        }
    }
}

/// Arguments, with the parentheses around them.
#[cycle(tree)]
pub enum ArgTrees {
    Args(Span, Items<ArgTree>),
}

impl Drop for ArgTrees {
    #[cycle(dropping_tree)]
    fn drop(self) {
        let ArgTrees::Args(_, _) = self;
    }
}

/// An argument, or a clause of a braced list.
#[cycle(tree)]
pub enum ArgTree {
    Expr(Expr),
    Braced(BracedTree),
}

impl Drop for ArgTree {
    #[cycle(dropping_tree)]
    fn drop(self) {
        match self {
            ArgTree::Expr(_) => {}
            ArgTree::Braced(_) => {}
        }
    }
}
