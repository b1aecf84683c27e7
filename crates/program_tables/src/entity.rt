//! Entities.

use containers::Items;
use core_words::{AccessLevel, ConstexprKind};
use cxx_base::{EntityNo, Name, PieceNo, ScopeNo};

/// A namespace ([basic.namespace]). All of its heads share one scope.
#[derive(Clone, Copy, Debug, PartialEq, Eq)]
pub struct NamespaceEntity {
    pub scope: ScopeNo,
    /// The first entity that it declares.
    pub first: Option<EntityNo>,
}

/// The first definition of a class in the text.
#[derive(Clone, Copy, Debug, PartialEq, Eq)]
pub struct ClassText {
    pub opening: PieceNo,
    pub closing: PieceNo,
    /// Its scope, in which its members are found.
    pub scope: ScopeNo,
    /// Whether it has bases. A lookup that passes through a class without bases has not to read it.
    pub has_bases: bool,
    /// The first entity that it declares.
    pub first: Option<EntityNo>,
}

/// A class ([class]).
#[derive(Clone, Copy, Debug, PartialEq, Eq)]
pub struct ClassEntity {
    pub text: Option<ClassText>,
    /// The first of its constructors. Each tells the next.
    pub constructor: Option<EntityNo>,
    pub destructor: Option<EntityNo>,
}

/// An enumeration ([dcl.enum]).
#[derive(Clone, Copy, Debug, PartialEq, Eq)]
pub struct EnumEntity {
    /// The scope of its enumerators.
    pub scope: ScopeNo,
    pub is_scoped: bool,
    /// Its first enumerator.
    pub first: Option<EntityNo>,
    pub enumerators: u32,
}

/// A function ([dcl.fct]), a constructor or a destructor.
#[derive(Clone, Copy, Debug, PartialEq, Eq)]
pub struct FunctionEntity {
    pub is_static: bool,
    pub evaluated: ConstexprKind,
    /// Of a constructor, how many parameters it has; of others 0.
    pub parameters: u32,
    /// Of a constructor, the next one of its class.
    pub next: Option<EntityNo>,
    /// The piece of its first body, which tells how many pieces it encloses.
    pub body: Option<PieceNo>,
}

/// A variable of a namespace, or a data member ([class.mem]).
#[derive(Clone, Copy, Debug, PartialEq, Eq)]
pub struct VariableEntity {
    pub is_static: bool,
    pub evaluated: ConstexprKind,
    /// Of a data member that is not static, its place among those of its class, and the piece of its default initializer.
    pub place: u32,
    pub default_init: Option<PieceNo>,
}

/// What an entity is ([basic.pre]), and what is asked of it.
#[derive(Clone, Copy, Debug, PartialEq, Eq)]
pub enum EntityKind {
    Namespace(NamespaceEntity),
    NamespaceAlias,
    Alias,
    Class(ClassEntity),
    Enumeration(EnumEntity),
    /// An enumerator: its enumeration, and its place there.
    Enumerator(EntityNo, u32),
    /// A variable of a namespace, or a static data member.
    Variable(VariableEntity),
    /// A data member that is not static.
    DataMember(VariableEntity),
    Function(FunctionEntity),
    Constructor(FunctionEntity),
    Destructor(FunctionEntity),
    /// A type, a function or the template of the library, which no piece declares.
    Library,
}

/// An entity: what all pieces know of it, which is what its declarations say by their form.
pub struct Entity {
    /// Its plain name: of a constructor or a destructor that of its class. The global namespace has none: of it this is that of `std`, which
    /// nobody asks for.
    pub name: Name,
    pub kind: EntityKind,
    /// The scope in which it is declared.
    pub scope: ScopeNo,
    /// Whether a lookup in this scope can find it. Constructors and destructors are not found, nor is a class whose name was taken by
    /// another kind.
    pub is_found: bool,
    pub access: AccessLevel,
    /// The piece that declares it first. None for the global namespace and what is declared before all pieces.
    pub first: Option<PieceNo>,
    /// The pieces that declare it again, in order, those that are refused for it too.
    pub further: Items<PieceNo>,
    /// The entity that its scope declares next.
    pub next: Option<EntityNo>,
}

impl Drop for Entity {
    fn drop(self) {
        let Entity {
            name: _,
            kind: _,
            scope: _,
            is_found: _,
            access: _,
            first: _,
            further: _,
            next: _,
        } = self;
    }
}
