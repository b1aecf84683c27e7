//! Which object it is.

ghost use Rattle.std.specs.Prelude.{◌≡◌, IfOk, IsTrue, ◌↔◌};

use cxx_base::{Bytes, EntityNo, Memory};
use sharing::Shared;

/// A string literal ([lex.string]): its number among those of the source, and its bytes without the zero byte at its end. What points to
/// it has with it what it points to, so that neither the source nor the piece in which it stands is looked at again.
pub struct Literal {
    pub number: u32,
    pub bytes: Shared<Bytes>,
}

impl Drop for Literal {
    fn drop(self) {
        let Literal {
            number: _,
            bytes: _,
        } = self;
    }
}

impl Literal {
    /// The same literal. It costs a count.
    pub fn copy(&self) -> Result<Literal, Memory>
        ensures { IfOk result (λ copy. copy ≡ self.now) }
    {
        Ok(Literal {
            number: self.number,
            bytes: self.bytes.copy()?,
        })
    }

    /// Whether two literals have one number and equal bytes. One literal of the source is one object, so those of one number are equal.
    pub fn same(&self, other: &Literal) -> bool
        ensures { IsTrue result ↔ (self.now ≡ other.now) }
    {
        self.number == other.number && self.bytes.get().as_slice() == other.bytes.get().as_slice()
    }
}

/// Where an object comes from: its storage duration, and which one of that duration it is ([basic.stc], [class.temporary]).
pub enum Origin {
    /// No object. It is the origin of the null pointer alone.
    Null,
    /// A static variable: of a namespace, or a static data member.
    Static(EntityNo),
    Literal(Literal),
    /// A local variable or a parameter of a call, by how many such objects the evaluation had made before it.
    Local(u64),
    /// A temporary, by how many the evaluation had made before it.
    Temporary(u64),
    /// What `new` allocated, by how many allocations the evaluation had made before it.
    Allocation(u64),
    /// A parameter or a local variable of the body under elaboration, by its number in that body: an evaluation that is made while a body is
    /// elaborated can name it, and never makes it.
    Foreign(u32),
    /// What `this` points to in the body under elaboration, which no evaluation makes either.
    ForeignThis,
}

impl Drop for Origin {
    fn drop(self) {
        match self {
            Origin::Null => {}
            Origin::Static(_) => {}
            Origin::Literal(_) => {}
            Origin::Local(_) => {}
            Origin::Temporary(_) => {}
            Origin::Allocation(_) => {}
            Origin::Foreign(_) => {}
            Origin::ForeignThis => {}
        }
    }
}

impl Origin {
    /// The same origin. It costs a count at most.
    pub fn copy(&self) -> Result<Origin, Memory>
        ensures { IfOk result (λ copy. copy ≡ self.now) }
    {
        Ok(match self {
            Origin::Null => Origin::Null,
            Origin::Static(variable) => Origin::Static(*variable),
            Origin::Literal(literal) => Origin::Literal(literal.copy()?),
            Origin::Local(n) => Origin::Local(*n),
            Origin::Temporary(n) => Origin::Temporary(*n),
            Origin::Allocation(n) => Origin::Allocation(*n),
            Origin::Foreign(n) => Origin::Foreign(*n),
            Origin::ForeignThis => Origin::ForeignThis,
        })
    }

    /// Whether two origins are one object, or both none.
    pub fn same(&self, other: &Origin) -> bool
        ensures { IsTrue result ↔ (self.now ≡ other.now) }
    {
        match (self, other) {
            (Origin::Null, Origin::Null) => true,
            (Origin::Static(x), Origin::Static(y)) => *x == *y,
            (Origin::Literal(x), Origin::Literal(y)) => x.same(y),
            (Origin::Local(x), Origin::Local(y)) => *x == *y,
            (Origin::Temporary(x), Origin::Temporary(y)) => *x == *y,
            (Origin::Allocation(x), Origin::Allocation(y)) => *x == *y,
            (Origin::Foreign(x), Origin::Foreign(y)) => *x == *y,
            (Origin::ForeignThis, Origin::ForeignThis) => true,
            _ => false,
        }
    }
}
