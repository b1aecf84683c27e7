//! Classes as texts.

use crate::decl_print::body_span;
use crate::printer::Printer;
use cxx_tree::{
    Access, BaseTree, BasedTree, ClassKey, ClassTree, ConstructorTree, DestructorTree, Member,
    MemberInit, MemberInitValue,
};
use std::alloc::AllocError;

/// The word of a class, behind a blank.
pub fn key_text(key: ClassKey) -> &'static str {
    match key {
        ClassKey::Struct => " struct",
        ClassKey::Class => " class",
    }
}

fn access_text(access: Access) -> &'static str {
    match access {
        Access::Public => " public",
        Access::Protected => " protected",
        Access::Private => " private",
    }
}

impl Printer<'_> {
    fn put_base(&mut self, x: &BaseTree) -> Result<(), AllocError> {
        self.put(" (base")?;
        if let Some(access) = x.access {
            self.put(access_text(access))?;
        }
        match &x.of {
            BasedTree::Name(name) => self.put_last(" name", name.span),
            BasedTree::Splice(splice) => self.put_last(" splice", splice.span()),
            BasedTree::Typename(_, splice) => self.put_last(" typename", splice.span()),
        }
    }

    fn put_member_init(&mut self, x: &MemberInit) -> Result<(), AllocError> {
        self.put_with(" (init", x.name.span)?;
        match &x.value {
            MemberInitValue::Args(args) => self.put_last(" args", args.span()),
            MemberInitValue::Braced(list) => self.put_last(" braced", list.span()),
        }
    }

    fn put_member_inits(&mut self, inits: &[MemberInit]) -> Result<(), AllocError> {
        for init in inits {
            self.put_member_init(init)?;
        }
        Ok(())
    }

    fn put_constructor(&mut self, x: &ConstructorTree) -> Result<(), AllocError> {
        self.put("(constructor")?;
        self.put_if(x.is_explicit, " explicit")?;
        self.put_specifiers(x.specifiers)?;
        self.put_words(x.name.span)?;
        self.put_parameters(x.parameters.as_slice())?;
        self.put_if(x.is_noexcept, " noexcept")?;
        self.put_member_inits(x.inits.as_slice())?;
        self.put_last("", body_span(x.body.get()))
    }

    fn put_destructor(&mut self, x: &DestructorTree) -> Result<(), AllocError> {
        self.put("(destructor")?;
        self.put_specifiers(x.specifiers)?;
        self.put_words(x.name.span)?;
        self.put_if(x.is_noexcept, " noexcept")?;
        self.put_last("", body_span(&x.body))
    }

    fn put_bases(&mut self, bases: &[BaseTree]) -> Result<(), AllocError> {
        for base in bases {
            self.put_base(base)?;
        }
        Ok(())
    }

    #[cycle(print_class)]
    fn put_members(&mut self, members: &[Member]) -> Result<(), AllocError> {
        for member in members {
            self.put(" ")?;
            self.put_member(member)?;
        }
        Ok(())
    }

    #[cycle(print_class)]
    pub fn put_class(&mut self, x: &ClassTree) -> Result<(), AllocError> {
        match x {
            ClassTree::Declared(_, key, name) => {
                self.put("(declared")?;
                self.put_last(key_text(*key), name.span)
            }
            ClassTree::Defined(_, key, name, bases, members) => {
                self.put("(defined")?;
                self.put_with(key_text(*key), name.span)?;
                self.put_bases(bases.as_slice())?;
                self.put_members(members.as_slice())?;
                self.put(")")
            }
        }
    }

    #[cycle(print_class)]
    fn put_member(&mut self, x: &Member) -> Result<(), AllocError> {
        match x {
            Member::Access(_, access) => self.put(access_text(*access)),
            Member::Empty(span) => self.put_words(*span),
            Member::Alias(x) => self.put_alias(x),
            Member::Class(x) => self.put_class(x),
            Member::Enum(x) => self.put_enum(x),
            Member::Assert(x) => self.put_assert(x),
            Member::Block(x) => self.put_block(x),
            Member::Data(x) => self.put_variable(x),
            Member::Function(x) => self.put_function(x),
            Member::Constructor(x) => self.put_constructor(x),
            Member::Destructor(x) => self.put_destructor(x),
        }
    }
}
