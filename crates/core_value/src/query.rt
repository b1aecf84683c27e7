//! Queries.

use crate::value::Value;
use containers::Items;
use cxx_base::ScopeNo;
use cxx_type::CxxType;

/// The functions of `std::meta` (P2996R13, [meta.reflection]), each with what is said of it there.
#[derive(Clone, Copy, Debug, PartialEq, Eq)]
pub enum QueryRow {
    IsType,
    IsNamespace,
    IsTypeAlias,
    IsNamespaceAlias,
    IsVariable,
    IsFunction,
    IsConstructor,
    IsDestructor,
    IsEnumerator,
    IsNonstaticDataMember,
    IsBase,
    IsValue,
    IsDataMemberSpec,
    IsClassMember,
    IsStaticMember,
    IsPublic,
    IsProtected,
    IsPrivate,
    IsClassType,
    IsEnumType,
    IsScopedEnumType,
    IsIntegralType,
    IsSignedType,
    IsUnsignedType,
    IsPointerType,
    IsArrayType,
    IsLvalueReferenceType,
    IsVoidType,
    IsReflectionType,
    IsConstType,
    IsSameType,
    IsCompleteType,
    IsEnumerableType,
    HasIdentifier,
    IdentifierOf,
    TypeOf,
    ParentOf,
    Dealias,
    ConstantOf,
    Extract,
    ReflectConstant,
    MembersOf,
    BasesOf,
    StaticDataMembersOf,
    NonstaticDataMembersOf,
    EnumeratorsOf,
    IsAccessible,
    SizeOf,
    AlignmentOf,
    OffsetOf,
    RemoveConst,
    AddConst,
    RemovePointer,
    AddPointer,
    RemoveReference,
    AddLvalueReference,
    RemoveExtent,
    UnderlyingType,
    DataMemberSpec,
    DefineAggregate,
    /// `access_context::current`
    CurrentContext,
    /// `access_context::unprivileged`
    UnprivilegedContext,
    /// `access_context::unchecked`
    UncheckedContext,
}

/// A call of such a function: a question that an evaluation asks. Of a description (`data_member_spec`) the arguments are the type and then
/// the options that are written, a text for its name and a number for its alignment.
pub struct Query {
    pub row: QueryRow,
    /// The type of `extract`, and for `reflect_constant` that of its argument.
    pub of: Option<CxxType>,
    pub args: Items<Value>,
    /// The scope in which the call is written.
    pub scope: ScopeNo,
}

impl Drop for Query {
    fn drop(self) {
        let Query {
            row: _,
            of: _,
            args: _,
            scope: _,
        } = self;
    }
}
