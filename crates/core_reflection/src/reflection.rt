//! Reflections.

ghost use Rattle.std.specs.Prelude.{◌≡◌, IfOk, IsTrue, ◌↔◌};
ghost use Rattle.core_reflection.specs.declared.reflection.Reflection as kind;

use crate::parts::{DataMember, Description, IntConstant};
use cxx_base::{EntityNo, Memory};
use cxx_type::CxxType;
use sharing::Shared;

/// A value of `std::meta::info` (P2996R13, [basic.fundamental]).
///
/// What is large in it is shared, so a copy costs a count, and a list of reflections takes little for each. A constant can be that of a
/// reflection, which can be a constant again: these are copied, compared and let go in no more than a loop.
pub enum Reflection {
    /// `std::meta::info{}`
    Null,
    Type(Shared<CxxType>),
    /// An alias of a type, and the type.
    Alias(EntityNo, Shared<CxxType>),
    Namespace(EntityNo),
    /// An alias of a namespace, and the namespace.
    NamespaceAlias(EntityNo, EntityNo),
    Variable(EntityNo),
    /// A function, a constructor or a destructor.
    Function(EntityNo),
    Enumerator(EntityNo),
    DataMember(DataMember),
    /// A base, by the derived class and its place among the bases of it.
    Base(EntityNo, u32),
    /// The constant of a whole number or an enumeration.
    Constant(Shared<IntConstant>),
    /// The constant of a reflection: its type and its value.
    InfoConstant(Shared<CxxType>, Shared<Reflection>),
    Description(Shared<Description>),
}

// In a loop, since a drop for each constant would go as deep as these lie in each other.
impl Drop for Reflection {
    fn drop(mut self) {
        loop {
            match self {
                Reflection::Null => return,
                Reflection::Type(_) => return,
                Reflection::Alias(_, _) => return,
                Reflection::Namespace(_) => return,
                Reflection::NamespaceAlias(_, _) => return,
                Reflection::Variable(_) => return,
                Reflection::Function(_) => return,
                Reflection::Enumerator(_) => return,
                Reflection::DataMember(_) => return,
                Reflection::Base(_, _) => return,
                Reflection::Constant(_) => return,
                Reflection::InfoConstant(_, value) => match value.into_inner() {
                    None => return,
                    Some(value) => self = value,
                },
                Reflection::Description(_) => return,
            }
        }
    }
}

impl Reflection {
    /// The same reflection. It costs counts.
    pub fn copy(&self) -> Result<Reflection, Memory>
        ensures { IfOk result (λ copy. copy ≡ self.now) }
    {
        match self {
            Reflection::Null => Ok(Reflection::Null),
            Reflection::Type(of) => Ok(Reflection::Type(of.copy()?)),
            Reflection::Alias(alias, of) => Ok(Reflection::Alias(*alias, of.copy()?)),
            Reflection::Namespace(namespace) => Ok(Reflection::Namespace(*namespace)),
            Reflection::NamespaceAlias(alias, namespace) => {
                Ok(Reflection::NamespaceAlias(*alias, *namespace))
            }
            Reflection::Variable(variable) => Ok(Reflection::Variable(*variable)),
            Reflection::Function(function) => Ok(Reflection::Function(*function)),
            Reflection::Enumerator(enumerator) => Ok(Reflection::Enumerator(*enumerator)),
            Reflection::DataMember(member) => Ok(Reflection::DataMember(*member)),
            Reflection::Base(class, index) => Ok(Reflection::Base(*class, *index)),
            Reflection::Constant(constant) => Ok(Reflection::Constant(constant.copy()?)),
            Reflection::InfoConstant(of, value) => {
                let of = of.copy()?;
                let value = value.copy()?;
                Ok(Reflection::InfoConstant(of, value))
            }
            Reflection::Description(description) => {
                Ok(Reflection::Description(description.copy()?))
            }
        }
    }

    /// Whether two reflections are of the same kind and of the same thing: constants where their types and values are equal. (An alias of a
    /// type and the type are two things.)
    pub fn same(&self, other: &Reflection) -> bool
        ensures { IsTrue result ↔ (self.now ≡ other.now) }
    {
        let mut x = self;
        let mut y = other;
        loop {
            match x {
                Reflection::InfoConstant(of, value) => match y {
                    Reflection::InfoConstant(other_of, other_value) => {
                        if !of.get().same(other_of.get()) {
                            return false;
                        }
                        x = value.get();
                        y = other_value.get();
                    }
                    _ => return false,
                },
                Reflection::Null => return y.is_null(),
                Reflection::Type(of) => return is_type(y, of.get()),
                Reflection::Alias(alias, of) => return is_alias(y, *alias, of.get()),
                Reflection::Namespace(n) => return is_namespace(y, *n),
                Reflection::NamespaceAlias(alias, n) => return is_namespace_alias(y, *alias, *n),
                Reflection::Variable(n) => return is_variable(y, *n),
                Reflection::Function(n) => return is_function(y, *n),
                Reflection::Enumerator(n) => return is_enumerator(y, *n),
                Reflection::DataMember(member) => return is_data_member(y, *member),
                Reflection::Base(class, index) => return is_base(y, *class, *index),
                Reflection::Constant(constant) => return is_constant(y, constant.get()),
                Reflection::Description(description) => return is_description(y, description.get()),
            }
        }
    }

    fn is_null(&self) -> bool
        ensures { IsTrue result ↔ (kind.Null ≡ self.now) }
    {
        match self {
            Reflection::Null => true,
            _ => false,
        }
    }
}

fn is_type(y: &Reflection, of: &CxxType) -> bool
    ensures { IsTrue result ↔ (kind.Type of.now ≡ y.now) }
{
    match y {
        Reflection::Type(other) => of.same(other.get()),
        _ => false,
    }
}

fn is_alias(y: &Reflection, alias: EntityNo, of: &CxxType) -> bool
    ensures { IsTrue result ↔ (kind.Alias alias of.now ≡ y.now) }
{
    match y {
        Reflection::Alias(other, other_of) => alias == *other && of.same(other_of.get()),
        _ => false,
    }
}

fn is_namespace(y: &Reflection, n: EntityNo) -> bool
    ensures { IsTrue result ↔ (kind.Namespace n ≡ y.now) }
{
    match y {
        Reflection::Namespace(other) => n == *other,
        _ => false,
    }
}

fn is_namespace_alias(y: &Reflection, alias: EntityNo, n: EntityNo) -> bool
    ensures { IsTrue result ↔ (kind.NamespaceAlias alias n ≡ y.now) }
{
    match y {
        Reflection::NamespaceAlias(other, named) => alias == *other && n == *named,
        _ => false,
    }
}

fn is_variable(y: &Reflection, n: EntityNo) -> bool
    ensures { IsTrue result ↔ (kind.Variable n ≡ y.now) }
{
    match y {
        Reflection::Variable(other) => n == *other,
        _ => false,
    }
}

fn is_function(y: &Reflection, n: EntityNo) -> bool
    ensures { IsTrue result ↔ (kind.Function n ≡ y.now) }
{
    match y {
        Reflection::Function(other) => n == *other,
        _ => false,
    }
}

fn is_enumerator(y: &Reflection, n: EntityNo) -> bool
    ensures { IsTrue result ↔ (kind.Enumerator n ≡ y.now) }
{
    match y {
        Reflection::Enumerator(other) => n == *other,
        _ => false,
    }
}

fn is_data_member(y: &Reflection, member: DataMember) -> bool
    ensures { IsTrue result ↔ (kind.DataMember member ≡ y.now) }
{
    match y {
        Reflection::DataMember(other) => member == *other,
        _ => false,
    }
}

fn is_base(y: &Reflection, class: EntityNo, index: u32) -> bool
    ensures { IsTrue result ↔ (kind.Base class index ≡ y.now) }
{
    match y {
        Reflection::Base(derived, place) => class == *derived && index == *place,
        _ => false,
    }
}

fn is_constant(y: &Reflection, constant: &IntConstant) -> bool
    ensures { IsTrue result ↔ (kind.Constant constant.now ≡ y.now) }
{
    match y {
        Reflection::Constant(other) => constant.same(other.get()),
        _ => false,
    }
}

fn is_description(y: &Reflection, description: &Description) -> bool
    ensures { IsTrue result ↔ (kind.Description description.now ≡ y.now) }
{
    match y {
        Reflection::Description(other) => description.same(other.get()),
        _ => false,
    }
}
