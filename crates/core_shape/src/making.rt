//! How objects of a class are made and ended where nothing is written for them.

use cxx_base::EntityNo;

/// The special member functions that a class declares ([special]), and what follows from them and from its parts.
#[derive(Clone, Copy, Debug, PartialEq, Eq)]
pub struct SpecialMembers {
    /// Whether it declares a constructor.
    pub has_constructor: bool,
    /// The constructor without parameters that it declares.
    pub default_constructor: Option<EntityNo>,
    /// The destructor that it declares.
    pub destructor: Option<EntityNo>,
    /// Whether a declared destructor runs where an object of it ends: its own, or that of a part.
    pub is_destroyed: bool,
    /// It declares no constructor, and no data member or base of it is private or protected ([dcl.init.aggr]).
    pub is_aggregate: bool,
    /// Objects of it are allowed in constant evaluation alone (P2996R13, [basic.types.general]).
    pub is_consteval_only: bool,
}

/// What is in the way of an object that is made without arguments, and of its end. Where its class declares a constructor, that is said
/// of this constructor; else of the parts that have no default initializer. So nobody looks at the classes of the parts again.
#[derive(Clone, Copy, Debug, PartialEq, Eq)]
pub struct ImplicitMaking {
    /// There are constructors where there would have to be one without parameters, and none is.
    pub is_missing: bool,
    /// A consteval constructor is called.
    pub is_consteval: bool,
    /// A constructor is called that is not public.
    pub is_guarded: bool,
    /// A destructor is called, at its end, that is not public.
    pub is_end_guarded: bool,
}

/// Of how many parts before one, bases first, each of these holds, where they are made without arguments. The differences of two tell what
/// holds between the two: a list with a few clauses has no need to look at each of the parts that have none.
#[derive(Clone, Copy, Debug, PartialEq, Eq)]
pub struct PartsBefore {
    pub missing: u32,
    pub consteval: u32,
    pub guarded: u32,
    pub end_guarded: u32,
}
