//! What pieces declare.

ghost use Rattle.std.specs.Prelude.{◌≡◌, IfOk};
ghost use Rattle.typed_code.specs.Arrays.{shape_at};

use containers::{Boxed, Items};
use core_shape::{Class, Shape};
use core_value::Value;
use core_words::{AccessLevel, ConstexprKind};
use cxx_base::{EntityNo, IntKind, Memory};
use cxx_type::CxxType;
use sharing::Shared;
use typed_code::{ExprNo, ListAt, ShapeNo, StmtNo, TypedCode, TypedExpr};

/// A direct base of a class whose definition has begun.
pub struct OpenedBase {
    pub access: AccessLevel,
    pub class: Shared<Class>,
}

impl Drop for OpenedBase {
    fn drop(self) {
        let OpenedBase {
            access: _,
            class: _,
        } = self;
    }
}

/// The type of a function ([dcl.fct]), and what its declaration says of evaluation.
pub struct Signature {
    /// None of a constructor or a destructor.
    pub returned: Option<CxxType>,
    /// As they are written, so with const at the top.
    pub parameters: Items<CxxType>,
    /// Whether it is a const member function.
    pub is_const: bool,
    pub is_static: bool,
    pub evaluated: ConstexprKind,
}

impl Drop for Signature {
    fn drop(self) {
        let Signature {
            returned: _,
            parameters: _,
            is_const: _,
            is_static: _,
            evaluated: _,
        } = self;
    }
}

/// The body of a function, a constructor or a destructor ([dcl.fct.def]).
pub struct FunctionBody {
    pub code: Shared<TypedCode>,
    pub root: StmtNo,
    /// How many parameters it has, which are the lowest slots, and how many slots in all.
    pub parameters: u32,
    pub slots: u32,
    /// Whether a call of it has to give a value, or a place.
    pub gives: bool,
    /// The member initializers of a constructor ([class.base.init]): clauses of the code, in order of the parts.
    pub inits: ListAt,
    /// The class of a constructor or a destructor.
    pub class: Option<Shared<Class>>,
}

impl Drop for FunctionBody {
    fn drop(self) {
        let FunctionBody {
            code: _,
            root: _,
            parameters: _,
            slots: _,
            gives: _,
            inits: _,
            class: _,
        } = self;
    }
}

/// An enumeration ([dcl.enum]): its underlying kind, and the values of its enumerators in order.
pub struct Enumeration {
    pub entity: EntityNo,
    pub underlying: IntKind,
    pub is_scoped: bool,
    /// Whether its underlying type is written.
    pub is_written: bool,
    pub values: Items<i128>,
}

impl Drop for Enumeration {
    fn drop(self) {
        let Enumeration {
            entity: _,
            underlying: _,
            is_scoped: _,
            is_written: _,
            values: _,
        } = self;
    }
}

/// A constexpr variable ([dcl.constexpr]): its initializer, the shape and with it the type of its object, which the code has, and its value.
pub struct Constant {
    pub code: Shared<TypedCode>,
    pub root: ExprNo,
    pub shape: ShapeNo,
    pub value: Value,
}

impl Drop for Constant {
    fn drop(self) {
        let Constant {
            code: _,
            root: _,
            shape: _,
            value: _,
        } = self;
    }
}

impl Constant {
    /// The shape of its object. It costs counts.
    pub fn object_shape(&self) -> Result<Option<Shape>, Memory>
        ensures { IfOk result (λ shape. shape ≡ shape_at self.now.code self.now.shape.0) }
    {
        self.code.get().shape(self.shape)
    }
}

/// What a piece declares: a variant for each kind of piece, and one for those that are refused, which declare nothing.
pub enum Declared {
    Refused,
    /// The head of a namespace.
    Namespace,
    /// A class without its definition.
    Class,
    /// The opening of the definition of a class: its bases.
    Opening(Items<OpenedBase>),
    /// A data member that is not static: its shape, and with it its type.
    DataMember(Boxed<Shape>),
    /// The default initializer of a data member.
    DefaultInit(TypedExpr),
    Signature(Boxed<Signature>),
    Body(Boxed<FunctionBody>),
    /// The closing of the definition of a class.
    Closing(Shared<Class>),
    Enumeration(Boxed<Enumeration>),
    /// A static variable that is constexpr.
    Constant(Boxed<Constant>),
    /// Another static variable: its shape, and with it its type.
    Variable(Boxed<Shape>),
    /// An alias of a type: the type.
    Alias(CxxType),
    /// An alias of a namespace: the namespace.
    NamespaceAlias(EntityNo),
    /// A static assertion that holds.
    Assertion,
    /// A consteval block.
    Block,
}

impl Drop for Declared {
    fn drop(self) {
        match self {
            Declared::Refused => {}
            Declared::Namespace => {}
            Declared::Class => {}
            Declared::Opening(_) => {}
            Declared::DataMember(_) => {}
            Declared::DefaultInit(_) => {}
            Declared::Signature(_) => {}
            Declared::Body(_) => {}
            Declared::Closing(_) => {}
            Declared::Enumeration(_) => {}
            Declared::Constant(_) => {}
            Declared::Variable(_) => {}
            Declared::Alias(_) => {}
            Declared::NamespaceAlias(_) => {}
            Declared::Assertion => {}
            Declared::Block => {}
        }
    }
}
