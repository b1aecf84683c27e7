//! Complete classes.

ghost use Rattle.std.specs.Prelude.{◌≡◌, IfOk};
ghost use Rattle.core_shape.specs.declared.class.Class.{out-Class};

use crate::making::{ImplicitMaking, PartsBefore, SpecialMembers};
use crate::shape::Shape;
use class_layout::Layout;
use containers::Items;
use core_words::AccessLevel;
use cxx_base::{EntityNo, Memory, Name, PieceNo};
use sharing::Shared;

/// What made a class complete.
#[derive(Clone, Copy, Debug, PartialEq, Eq)]
pub enum CompletedBy {
    /// Its definition in the text, whose closing is this piece.
    Text(PieceNo),
    /// The evaluation of a consteval block, which is this piece (P2996R13, [meta.reflection.define.aggregate]).
    Injection(PieceNo),
}

/// Where a part of a class begins: in bytes, and among the scalars and the leaves of the class; and what is to be known of the parts before.
#[derive(Clone, Copy, Debug, PartialEq, Eq)]
pub struct PartAt {
    pub offset: u64,
    pub scalar: u64,
    pub leaf: u64,
    pub before: PartsBefore,
}

/// A direct base ([class.derived]).
#[cycle(class)]
pub struct Base {
    pub access: AccessLevel,
    pub shape: Shape,
    pub at: PartAt,
}

impl Drop for Base {
    #[cycle(dropping_class)]
    fn drop(self) {
        let Base {
            access: _,
            shape: _,
            at: _,
        } = self;
    }
}

/// A data member that is not static ([class.mem]).
#[cycle(class)]
pub struct Member {
    pub name: Name,
    /// The entity that declares it. None where it was injected: then it is known by its class and its place.
    pub entity: Option<EntityNo>,
    pub access: AccessLevel,
    /// Its alignment, which a description can raise above that of its type ([dcl.align]).
    pub align: u64,
    /// The piece of its default initializer ([class.mem]).
    pub default_init: Option<PieceNo>,
    pub shape: Shape,
    pub at: PartAt,
}

impl Drop for Member {
    #[cycle(dropping_class)]
    fn drop(self) {
        let Member {
            name: _,
            entity: _,
            access: _,
            align: _,
            default_init: _,
            shape: _,
            at: _,
        } = self;
    }
}

/// What is known of a complete class, its parts aside.
#[derive(Clone, Copy, Debug, PartialEq, Eq)]
pub struct ClassHead {
    pub entity: EntityNo,
    pub by: CompletedBy,
    pub layout: Layout,
    /// How many scalars an object of it has, and how many leaves.
    pub scalars: u64,
    pub leaves: u64,
    pub special: SpecialMembers,
    pub making: ImplicitMaking,
}

/// A complete class ([class.mem]): all that is to be known of it, once. Whoever needs the class shares this.
///
/// Classes in each other are let go in a loop, however deep they lie: of the parts the deepest is held once more, so that it is still
/// there when all others are gone.
#[cycle(class)]
pub struct Class {
    pub head: ClassHead,
    /// Its direct bases, in order.
    pub bases: Items<Base>,
    /// Its data members, in order of declaration.
    pub members: Items<Member>,
    /// Where it was injected, the places of its members in the order of the numbers of their names. Those of a text are found by their entities.
    pub by_name: Items<u32>,
    // the class of a part that lies deepest, and how many classes lie in each other here
    deepest: Option<Shared<Class>>,
    depth: u32,
}

impl Drop for Class {
    #[cycle(dropping_class)]
    fn drop(mut self) {
        loop {
            let Class {
                head: _,
                bases,
                members,
                by_name: _,
                deepest,
                depth: _,
            } = self;
            drop(bases);
            drop(members);
            match deepest {
                None => return,
                Some(class) => match class.into_inner() {
                    None => return,
                    Some(class) => self = class,
                },
            }
        }
    }
}

// The deeper one of a class and that of a shape, if it has one.
fn deeper(deepest: Option<Shared<Class>>, shape: &Shape) -> Result<Option<Shared<Class>>, Memory> {
    let Some(class) = &shape.class else {
        return Ok(deepest);
    };
    match deepest {
        None => Ok(Some(class.copy()?)),
        Some(other) => {
            if other.get().depth < class.get().depth {
                Ok(Some(class.copy()?))
            } else {
                Ok(Some(other))
            }
        }
    }
}

impl Class {
    /// A class of these parts.
    pub fn new(
        head: ClassHead,
        bases: Items<Base>,
        members: Items<Member>,
        by_name: Items<u32>,
    ) -> Result<Class, Memory>
        ensures head { IfOk result (λ class. (out-Class class).head ≡ head) }
        ensures bases { IfOk result (λ class. (out-Class class).bases ≡ bases) }
        ensures members { IfOk result (λ class. (out-Class class).members ≡ members) }
        ensures by_name { IfOk result (λ class. (out-Class class).by_name ≡ by_name) }
    {
        let mut deepest = None;
        for base in bases.as_slice() {
            deepest = deeper(deepest, &base.shape)?;
        }
        for member in members.as_slice() {
            deepest = deeper(deepest, &member.shape)?;
        }
        let depth = match &deepest {
            None => 0,
            Some(class) => class.get().depth.saturating_add(1),
        };
        Ok(Class {
            head,
            bases,
            members,
            by_name,
            deepest,
            depth,
        })
    }
}
