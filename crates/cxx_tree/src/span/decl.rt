//! The spans of declarations.

ghost use Rattle.std.specs.Prelude.{◌≡◌};
ghost use Rattle.cxx_tree.specs.MoreSpans.{span_of_based, span_of_class, span_of_decl, span_of_item, span_of_member, span_of_member_value};

use crate::decl::{BasedTree, ClassTree, Decl, DestructorTree, Item, Member, MemberInitValue};
use cxx_base::{Place, Span};

impl Item {
    /// Where an item stands. The head of a namespace reaches up to its opening brace.
    pub fn span(&self) -> Span
        ensures { result ≡ span_of_item self.now }
    {
        match self {
            Item::NamespaceHead(span, _) | Item::Close(span) | Item::Empty(span) => *span,
            Item::Decl(decl) => decl.get().span(),
        }
    }
}

impl Decl {
    /// Where a declaration stands.
    pub fn span(&self) -> Span
        ensures { result ≡ span_of_decl self.now }
    {
        match self {
            Decl::NamespaceAlias(alias) => alias.span,
            Decl::Alias(alias) => alias.span,
            Decl::Class(class) => class.span(),
            Decl::Enum(enumeration) => enumeration.span,
            Decl::Function(function) => function.span,
            Decl::Variable(variable) => variable.span,
            Decl::Assert(assert) => assert.span,
            Decl::Block(block) => block.span,
        }
    }
}

impl ClassTree {
    /// Where a class stands.
    pub fn span(&self) -> Span
        ensures { result ≡ span_of_class self.now }
    {
        match self {
            ClassTree::Declared(span, _, _) | ClassTree::Defined(span, _, _, _, _) => *span,
        }
    }
}

impl BasedTree {
    /// Where what a base is stands, with its `typename`.
    pub fn span(&self) -> Span
        ensures { result ≡ span_of_based self.now }
    {
        match self {
            BasedTree::Name(name) => name.span,
            BasedTree::Splice(splice) => splice.span(),
            BasedTree::Typename(span, _) => *span,
        }
    }
}

impl Member {
    /// Where a member stands.
    pub fn span(&self) -> Span
        ensures { result ≡ span_of_member self.now }
    {
        match self {
            Member::Access(span, _) | Member::Empty(span) => *span,
            Member::Alias(alias) => alias.span,
            Member::Class(class) => class.span(),
            Member::Enum(enumeration) => enumeration.span,
            Member::Assert(assert) => assert.span,
            Member::Block(block) => block.span,
            Member::Data(variable) => variable.span,
            Member::Function(function) => function.span,
            Member::Constructor(constructor) => constructor.span,
            Member::Destructor(destructor) => destructor.span,
        }
    }
}

impl MemberInitValue {
    /// Where the value of a member initializer stands, with its parentheses or braces.
    pub fn span(&self) -> Span
        ensures { result ≡ span_of_member_value self.now }
    {
        match self {
            MemberInitValue::Args(args) => args.span(),
            MemberInitValue::Braced(list) => list.span(),
        }
    }
}

impl DestructorTree {
    /// The place where the declared name begins: that of its `~`.
    pub fn declared_at(&self) -> Place
        ensures { result ≡ self.now.tilde }
    {
        self.tilde
    }
}
