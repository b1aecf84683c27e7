//! Declarations and whole units.

use crate::expr::{ArgTrees, BracedTree, Expr, SpliceTree, TypeTree};
use crate::identifier::{Identifier, NameTree};
use crate::stmt::{BodyTree, BoundTree, InitTree};
use containers::{Boxed, Items};
use cxx_base::{Place, Span};

/// A source text ([basic.link]).
pub struct Unit {
    pub items: Items<Item>,
}

impl Drop for Unit {
    fn drop(self) {
        let Unit { items: _ } = self;
    }
}

/// What stands at namespace scope. A namespace is its head, its items and its closing brace.
pub enum Item {
    /// `namespace a::b {` ([namespace.def])
    NamespaceHead(Span, Items<Identifier>),
    /// `}`
    Close(Span),
    Decl(Boxed<Decl>),
    /// `;`
    Empty(Span),
}

impl Drop for Item {
    fn drop(self) {
        match self {
            Item::NamespaceHead(_, _) => {}
            Item::Close(_) => {}
            Item::Decl(_) => {}
            Item::Empty(_) => {}
        }
    }
}

/// A declaration ([dcl.dcl]).
pub enum Decl {
    NamespaceAlias(NamespaceAliasTree),
    Alias(AliasTree),
    Class(ClassTree),
    Enum(EnumTree),
    Function(FunctionTree),
    Variable(VariableTree),
    Assert(AssertTree),
    Block(BlockTree),
}

impl Drop for Decl {
    fn drop(self) {
        match self {
            Decl::NamespaceAlias(_) => {}
            Decl::Alias(_) => {}
            Decl::Class(_) => {}
            Decl::Enum(_) => {}
            Decl::Function(_) => {}
            Decl::Variable(_) => {}
            Decl::Assert(_) => {}
            Decl::Block(_) => {}
        }
    }
}

/// `namespace identifier = ..;` ([namespace.alias], P2996R13)
pub struct NamespaceAliasTree {
    pub span: Span,
    pub name: Identifier,
    pub of: NamespaceNamed,
}

impl Drop for NamespaceAliasTree {
    fn drop(self) {
        let NamespaceAliasTree {
            span: _,
            name: _,
            of: _,
        } = self;
    }
}

/// What a namespace alias stands for.
pub enum NamespaceNamed {
    Name(NameTree),
    Splice(SpliceTree),
}

impl Drop for NamespaceNamed {
    fn drop(self) {
        match self {
            NamespaceNamed::Name(_) => {}
            NamespaceNamed::Splice(_) => {}
        }
    }
}

/// `using identifier = ..;` ([dcl.typedef], P2996R13)
pub struct AliasTree {
    pub span: Span,
    pub name: Identifier,
    pub of: AliasedTree,
}

impl Drop for AliasTree {
    fn drop(self) {
        let AliasTree {
            span: _,
            name: _,
            of: _,
        } = self;
    }
}

/// What an alias stands for.
pub enum AliasedTree {
    Type(Boxed<TypeTree>),
    Splice(SpliceTree),
}

impl Drop for AliasedTree {
    fn drop(self) {
        match self {
            AliasedTree::Type(_) => {}
            AliasedTree::Splice(_) => {}
        }
    }
}

/// `static_assert ( expr , text )` ([dcl.pre]), and where the text stands, if there is one. What it says is never asked.
pub struct AssertTree {
    pub span: Span,
    pub condition: Boxed<Expr>,
    pub message: Option<Span>,
}

impl Drop for AssertTree {
    fn drop(self) {
        let AssertTree {
            span: _,
            condition: _,
            message: _,
        } = self;
    }
}

/// `consteval` and a body (P3289R1).
#[cycle(statement)]
pub struct BlockTree {
    pub span: Span,
    pub body: BodyTree,
}

impl Drop for BlockTree {
    #[cycle(dropping_statement)]
    fn drop(self) {
        let BlockTree { span: _, body: _ } = self;
    }
}

/// The words before a declared type ([dcl.spec]), each of which stands once.
#[derive(Clone, Copy, Debug, PartialEq, Eq)]
pub struct Specifiers {
    pub is_inline: bool,
    pub is_static: bool,
    pub evaluated: Evaluated,
}

/// Whether `constexpr` or `consteval` stands ([dcl.constexpr]).
#[derive(Clone, Copy, Debug, PartialEq, Eq)]
pub enum Evaluated {
    Plain,
    Constexpr,
    Consteval,
}

/// A variable, or a data member.
pub struct VariableTree {
    pub span: Span,
    pub specifiers: Specifiers,
    pub of_type: Boxed<TypeTree>,
    pub name: Identifier,
    pub bounds: Items<BoundTree>,
    pub init: Option<Boxed<InitTree>>,
}

impl Drop for VariableTree {
    fn drop(self) {
        let VariableTree {
            span: _,
            specifiers: _,
            of_type: _,
            name: _,
            bounds: _,
            init: _,
        } = self;
    }
}

/// A function ([dcl.fct]), or a member function. Without a body it is declared alone. Only a member function is const.
#[cycle(statement)]
pub struct FunctionTree {
    pub span: Span,
    pub specifiers: Specifiers,
    pub returned: Boxed<TypeTree>,
    pub name: Identifier,
    pub parameters: Items<ParameterTree>,
    pub is_const: bool,
    pub is_noexcept: bool,
    pub body: Option<Boxed<BodyTree>>,
}

impl Drop for FunctionTree {
    #[cycle(dropping_statement)]
    fn drop(self) {
        let FunctionTree {
            span: _,
            specifiers: _,
            returned: _,
            name: _,
            parameters: _,
            is_const: _,
            is_noexcept: _,
            body: _,
        } = self;
    }
}

/// A parameter, which need not have a name.
pub struct ParameterTree {
    pub span: Span,
    pub of_type: Boxed<TypeTree>,
    pub name: Option<Identifier>,
}

impl Drop for ParameterTree {
    fn drop(self) {
        let ParameterTree {
            span: _,
            of_type: _,
            name: _,
        } = self;
    }
}

/// An enumeration ([dcl.enum]): the word behind `enum`, its name, its underlying type and its enumerators.
pub struct EnumTree {
    pub span: Span,
    pub key: Option<ClassKey>,
    pub name: Identifier,
    pub underlying: Option<Boxed<TypeTree>>,
    pub enumerators: Items<EnumeratorTree>,
}

impl Drop for EnumTree {
    fn drop(self) {
        let EnumTree {
            span: _,
            key: _,
            name: _,
            underlying: _,
            enumerators: _,
        } = self;
    }
}

/// An enumerator, and its value where one is written.
pub struct EnumeratorTree {
    pub span: Span,
    pub name: Identifier,
    pub value: Option<Expr>,
}

impl Drop for EnumeratorTree {
    fn drop(self) {
        let EnumeratorTree {
            span: _,
            name: _,
            value: _,
        } = self;
    }
}

/// `struct` or `class`.
#[derive(Clone, Copy, Debug, PartialEq, Eq)]
pub enum ClassKey {
    Struct,
    Class,
}

/// `public`, `protected` or `private` ([class.access]).
#[derive(Clone, Copy, Debug, PartialEq, Eq)]
pub enum Access {
    Public,
    Protected,
    Private,
}

/// A class ([class]).
#[cycle(statement)]
pub enum ClassTree {
    Declared(Span, ClassKey, Identifier),
    Defined(Span, ClassKey, Identifier, Items<BaseTree>, Items<Member>),
}

impl Drop for ClassTree {
    #[cycle(dropping_statement)]
    fn drop(self) {
        match self {
            ClassTree::Declared(_, _, _) => {}
            ClassTree::Defined(_, _, _, _, _) => {}
        }
    }
}

/// A base class ([class.derived]), and the access that is written before it.
pub struct BaseTree {
    pub span: Span,
    pub access: Option<Access>,
    pub of: BasedTree,
}

impl Drop for BaseTree {
    fn drop(self) {
        let BaseTree {
            span: _,
            access: _,
            of: _,
        } = self;
    }
}

/// What a base is.
pub enum BasedTree {
    Name(NameTree),
    Splice(SpliceTree),
    /// `typename` and a splice.
    Typename(Span, SpliceTree),
}

impl Drop for BasedTree {
    fn drop(self) {
        match self {
            BasedTree::Name(_) => {}
            BasedTree::Splice(_) => {}
            BasedTree::Typename(_, _) => {}
        }
    }
}

/// What stands in the braces of a class ([class.mem]). As of a statement, the large parts are boxed within.
#[cycle(statement)]
pub enum Member {
    Access(Span, Access),
    /// `;`
    Empty(Span),
    Alias(AliasTree),
    Class(ClassTree),
    Enum(EnumTree),
    Assert(AssertTree),
    Block(BlockTree),
    Data(VariableTree),
    Function(FunctionTree),
    Constructor(ConstructorTree),
    Destructor(DestructorTree),
}

impl Drop for Member {
    #[cycle(dropping_statement)]
    fn drop(self) {
        match self {
            Member::Access(_, _) => {}
            Member::Empty(_) => {}
            Member::Alias(_) => {}
            Member::Class(_) => {}
            Member::Enum(_) => {}
            Member::Assert(_) => {}
            Member::Block(_) => {}
            Member::Data(_) => {}
            Member::Function(_) => {}
            Member::Constructor(_) => {}
            Member::Destructor(_) => {}
        }
    }
}

/// A constructor ([class.ctor]). Its name is that of its class.
#[cycle(statement)]
pub struct ConstructorTree {
    pub span: Span,
    pub is_explicit: bool,
    pub specifiers: Specifiers,
    pub name: Identifier,
    pub parameters: Items<ParameterTree>,
    pub is_noexcept: bool,
    pub inits: Items<MemberInit>,
    pub body: Boxed<BodyTree>,
}

impl Drop for ConstructorTree {
    #[cycle(dropping_statement)]
    fn drop(self) {
        let ConstructorTree {
            span: _,
            is_explicit: _,
            specifiers: _,
            name: _,
            parameters: _,
            is_noexcept: _,
            inits: _,
            body: _,
        } = self;
    }
}

/// A member initializer ([class.base.init]).
pub struct MemberInit {
    pub span: Span,
    pub name: NameTree,
    pub value: MemberInitValue,
}

impl Drop for MemberInit {
    fn drop(self) {
        let MemberInit {
            span: _,
            name: _,
            value: _,
        } = self;
    }
}

/// What a member is initialized with.
pub enum MemberInitValue {
    Args(ArgTrees),
    Braced(BracedTree),
}

impl Drop for MemberInitValue {
    fn drop(self) {
        match self {
            MemberInitValue::Args(_) => {}
            MemberInitValue::Braced(_) => {}
        }
    }
}

/// A destructor ([class.dtor]). Its name is that of its class, and stands behind a `~`, with which the declared name begins.
#[cycle(statement)]
pub struct DestructorTree {
    pub span: Span,
    pub specifiers: Specifiers,
    /// The place of `~`.
    pub tilde: Place,
    pub name: Identifier,
    pub is_noexcept: bool,
    pub body: BodyTree,
}

impl Drop for DestructorTree {
    #[cycle(dropping_statement)]
    fn drop(self) {
        let DestructorTree {
            span: _,
            specifiers: _,
            tilde: _,
            name: _,
            is_noexcept: _,
            body: _,
        } = self;
    }
}
