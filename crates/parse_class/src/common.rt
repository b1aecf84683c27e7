//! Declarations that stand in namespaces and in classes alike.

ghost use Rattle.std.specs.Prelude.{◌≡◌};
ghost use Rattle.parse_class.specs.Joined as joined;

use cxx_tree::{
    AliasTree, AssertTree, BlockTree, ClassTree, Decl, EnumTree, FunctionTree, Member, VariableTree,
};

/// A declaration that stands in namespaces and in classes alike.
pub enum Common {
    Alias(AliasTree),
    Class(ClassTree),
    Enum(EnumTree),
    Assert(AssertTree),
    Block(BlockTree),
    Function(FunctionTree),
    Variable(VariableTree),
}

impl Drop for Common {
    fn drop(self) {
        match self {
            Common::Alias(_) => {}
            Common::Class(_) => {}
            Common::Enum(_) => {}
            Common::Assert(_) => {}
            Common::Block(_) => {}
            Common::Function(_) => {}
            Common::Variable(_) => {}
        }
    }
}

impl Common {
    /// The same in a namespace.
    pub fn into_decl(self) -> Decl
        ensures { result ≡ joined.decl_of self }
    {
        match self {
            Common::Alias(x) => Decl::Alias(x),
            Common::Class(x) => Decl::Class(x),
            Common::Enum(x) => Decl::Enum(x),
            Common::Assert(x) => Decl::Assert(x),
            Common::Block(x) => Decl::Block(x),
            Common::Function(x) => Decl::Function(x),
            Common::Variable(x) => Decl::Variable(x),
        }
    }

    /// The same in a class.
    pub fn into_member(self) -> Member
        ensures { result ≡ joined.member_of self }
    {
        match self {
            Common::Alias(x) => Member::Alias(x),
            Common::Class(x) => Member::Class(x),
            Common::Enum(x) => Member::Enum(x),
            Common::Assert(x) => Member::Assert(x),
            Common::Block(x) => Member::Block(x),
            Common::Function(x) => Member::Function(x),
            Common::Variable(x) => Member::Data(x),
        }
    }
}
