//! The names of the library.
//!
//! `std`, `meta`, `vector` and `extract`, which the grammar knows, and then the other names that are declared in `std` or in
//! `std::meta` before the first piece. Their order is fixed, so each has one number in all [`Names`](crate::Names).

ghost use Rattle.std.specs.Prelude.{◌≡◌};
ghost use Rattle.cxx_base.specs.LibraryScopes as spec;

use crate::name::Name;

/// Where a name of the library is declared.
#[derive(Clone, Copy, Debug, PartialEq, Eq, Hash)]
pub enum LibraryScope {
    /// The global namespace.
    Global,
    /// `std`
    Std,
    /// `std::meta`
    Meta,
}

/// How many there are.
pub const COUNT: u32 = 69;

/// Their texts, in order.
pub const LIBRARY: [&str; 69] = [
    "std",
    "meta",
    "vector",
    "extract",
    "info",
    "string_view",
    "access_context",
    "member_offset",
    "size_t",
    "ptrdiff_t",
    "size_of",
    "alignment_of",
    "data_member_spec",
    "define_aggregate",
    "is_type",
    "is_namespace",
    "is_type_alias",
    "is_namespace_alias",
    "is_variable",
    "is_function",
    "is_constructor",
    "is_destructor",
    "is_enumerator",
    "is_nonstatic_data_member",
    "is_base",
    "is_value",
    "is_data_member_spec",
    "is_class_member",
    "is_static_member",
    "is_public",
    "is_protected",
    "is_private",
    "is_class_type",
    "is_enum_type",
    "is_scoped_enum_type",
    "is_integral_type",
    "is_signed_type",
    "is_unsigned_type",
    "is_pointer_type",
    "is_array_type",
    "is_lvalue_reference_type",
    "is_void_type",
    "is_reflection_type",
    "is_const_type",
    "is_same_type",
    "is_complete_type",
    "is_enumerable_type",
    "has_identifier",
    "identifier_of",
    "type_of",
    "parent_of",
    "dealias",
    "constant_of",
    "reflect_constant",
    "members_of",
    "bases_of",
    "static_data_members_of",
    "nonstatic_data_members_of",
    "enumerators_of",
    "is_accessible",
    "offset_of",
    "remove_const",
    "add_const",
    "remove_pointer",
    "add_pointer",
    "remove_reference",
    "add_lvalue_reference",
    "remove_extent",
    "underlying_type",
];

/// `std`
pub const STD: Name = Name(0);

/// `meta`
pub const META: Name = Name(1);

/// `vector`
pub const VECTOR: Name = Name(2);

/// `extract`
pub const EXTRACT: Name = Name(3);

/// `info`
pub const INFO: Name = Name(4);

/// `string_view`
pub const STRING_VIEW: Name = Name(5);

/// `access_context`
pub const ACCESS_CONTEXT: Name = Name(6);

/// `member_offset`
pub const MEMBER_OFFSET: Name = Name(7);

/// `size_t`
pub const SIZE_T: Name = Name(8);

/// `ptrdiff_t`
pub const PTRDIFF_T: Name = Name(9);

/// `size_of`
pub const SIZE_OF: Name = Name(10);

/// `alignment_of`
pub const ALIGNMENT_OF: Name = Name(11);

/// `data_member_spec`
pub const DATA_MEMBER_SPEC: Name = Name(12);

/// `define_aggregate`
pub const DEFINE_AGGREGATE: Name = Name(13);

/// `is_type`
pub const IS_TYPE: Name = Name(14);

/// `is_namespace`
pub const IS_NAMESPACE: Name = Name(15);

/// `is_type_alias`
pub const IS_TYPE_ALIAS: Name = Name(16);

/// `is_namespace_alias`
pub const IS_NAMESPACE_ALIAS: Name = Name(17);

/// `is_variable`
pub const IS_VARIABLE: Name = Name(18);

/// `is_function`
pub const IS_FUNCTION: Name = Name(19);

/// `is_constructor`
pub const IS_CONSTRUCTOR: Name = Name(20);

/// `is_destructor`
pub const IS_DESTRUCTOR: Name = Name(21);

/// `is_enumerator`
pub const IS_ENUMERATOR: Name = Name(22);

/// `is_nonstatic_data_member`
pub const IS_NONSTATIC_DATA_MEMBER: Name = Name(23);

/// `is_base`
pub const IS_BASE: Name = Name(24);

/// `is_value`
pub const IS_VALUE: Name = Name(25);

/// `is_data_member_spec`
pub const IS_DATA_MEMBER_SPEC: Name = Name(26);

/// `is_class_member`
pub const IS_CLASS_MEMBER: Name = Name(27);

/// `is_static_member`
pub const IS_STATIC_MEMBER: Name = Name(28);

/// `is_public`
pub const IS_PUBLIC: Name = Name(29);

/// `is_protected`
pub const IS_PROTECTED: Name = Name(30);

/// `is_private`
pub const IS_PRIVATE: Name = Name(31);

/// `is_class_type`
pub const IS_CLASS_TYPE: Name = Name(32);

/// `is_enum_type`
pub const IS_ENUM_TYPE: Name = Name(33);

/// `is_scoped_enum_type`
pub const IS_SCOPED_ENUM_TYPE: Name = Name(34);

/// `is_integral_type`
pub const IS_INTEGRAL_TYPE: Name = Name(35);

/// `is_signed_type`
pub const IS_SIGNED_TYPE: Name = Name(36);

/// `is_unsigned_type`
pub const IS_UNSIGNED_TYPE: Name = Name(37);

/// `is_pointer_type`
pub const IS_POINTER_TYPE: Name = Name(38);

/// `is_array_type`
pub const IS_ARRAY_TYPE: Name = Name(39);

/// `is_lvalue_reference_type`
pub const IS_LVALUE_REFERENCE_TYPE: Name = Name(40);

/// `is_void_type`
pub const IS_VOID_TYPE: Name = Name(41);

/// `is_reflection_type`
pub const IS_REFLECTION_TYPE: Name = Name(42);

/// `is_const_type`
pub const IS_CONST_TYPE: Name = Name(43);

/// `is_same_type`
pub const IS_SAME_TYPE: Name = Name(44);

/// `is_complete_type`
pub const IS_COMPLETE_TYPE: Name = Name(45);

/// `is_enumerable_type`
pub const IS_ENUMERABLE_TYPE: Name = Name(46);

/// `has_identifier`
pub const HAS_IDENTIFIER: Name = Name(47);

/// `identifier_of`
pub const IDENTIFIER_OF: Name = Name(48);

/// `type_of`
pub const TYPE_OF: Name = Name(49);

/// `parent_of`
pub const PARENT_OF: Name = Name(50);

/// `dealias`
pub const DEALIAS: Name = Name(51);

/// `constant_of`
pub const CONSTANT_OF: Name = Name(52);

/// `reflect_constant`
pub const REFLECT_CONSTANT: Name = Name(53);

/// `members_of`
pub const MEMBERS_OF: Name = Name(54);

/// `bases_of`
pub const BASES_OF: Name = Name(55);

/// `static_data_members_of`
pub const STATIC_DATA_MEMBERS_OF: Name = Name(56);

/// `nonstatic_data_members_of`
pub const NONSTATIC_DATA_MEMBERS_OF: Name = Name(57);

/// `enumerators_of`
pub const ENUMERATORS_OF: Name = Name(58);

/// `is_accessible`
pub const IS_ACCESSIBLE: Name = Name(59);

/// `offset_of`
pub const OFFSET_OF: Name = Name(60);

/// `remove_const`
pub const REMOVE_CONST: Name = Name(61);

/// `add_const`
pub const ADD_CONST: Name = Name(62);

/// `remove_pointer`
pub const REMOVE_POINTER: Name = Name(63);

/// `add_pointer`
pub const ADD_POINTER: Name = Name(64);

/// `remove_reference`
pub const REMOVE_REFERENCE: Name = Name(65);

/// `add_lvalue_reference`
pub const ADD_LVALUE_REFERENCE: Name = Name(66);

/// `remove_extent`
pub const REMOVE_EXTENT: Name = Name(67);

/// `underlying_type`
pub const UNDERLYING_TYPE: Name = Name(68);

/// Where a name is declared before the first piece: `std` in the global namespace, some names in `std`, and all others of the
/// library in `std::meta`. None, where it is no name of the library.
pub fn scope_of(name: Name) -> Option<LibraryScope>
    ensures { result ≡ spec.scope_of name }
{
    if name.0 == STD.0 {
        Some(LibraryScope::Global)
    } else if is_in_std(name) {
        Some(LibraryScope::Std)
    } else if name.0 < COUNT {
        Some(LibraryScope::Meta)
    } else {
        None
    }
}

// Whether it is declared in `std`.
fn is_in_std(name: Name) -> bool
    ensures { result ≡ spec.is_in_std name }
{
    name.0 == META.0
        || name.0 == VECTOR.0
        || name.0 == STRING_VIEW.0
        || name.0 == SIZE_T.0
        || name.0 == PTRDIFF_T.0
}

/// Each name of the library is declared in one place, that which stands beside its text.
pub fn names_have_their_scopes()
    ensures { spec.AreDeclared }
{}
