//! Declarations and units as texts: a form with its parts, of which types, expressions, bodies and the like are the words of the text
//! that their spans tell.

use crate::class_print::key_text;
use crate::printer::Printer;
use cxx_base::Span;
use cxx_tree::{
    BlockTree, BodyTree, Decl, EnumTree, EnumeratorTree, Evaluated, FunctionTree, Identifier,
    InitTree, Item, NamespaceAliasTree, NamespaceNamed, ParameterTree, Specifiers, Unit,
    VariableTree,
};
use std::alloc::{AllocError, Global};

/// The tokens of a body.
pub fn body_span(body: &BodyTree) -> Span {
    let BodyTree::Body(span, _) = body;
    *span
}

fn evaluated_text(evaluated: Evaluated) -> &'static str {
    match evaluated {
        Evaluated::Plain => ",",
        Evaluated::Constexpr => " constexpr,",
        Evaluated::Consteval => " consteval,",
    }
}

impl Printer<'_> {
    // The specifiers, and a comma.
    pub fn put_specifiers(&mut self, words: Specifiers) -> Result<(), AllocError> {
        self.put_if(words.is_inline, " inline")?;
        self.put_if(words.is_static, " static")?;
        self.put(evaluated_text(words.evaluated))
    }

    fn put_namespace_alias(&mut self, x: &NamespaceAliasTree) -> Result<(), AllocError> {
        self.put_with("(alias", x.name.span)?;
        match &x.of {
            NamespaceNamed::Name(name) => self.put_last(" name", name.span),
            NamespaceNamed::Splice(splice) => self.put_last(" splice", splice.span()),
        }
    }

    pub fn put_block(&mut self, x: &BlockTree) -> Result<(), AllocError> {
        self.put_last("(block", body_span(&x.body))
    }

    fn put_enumerator(&mut self, x: &EnumeratorTree) -> Result<(), AllocError> {
        self.put_with(" (", x.name.span)?;
        if let Some(value) = &x.value {
            self.put_with(" =", value.span())?;
        }
        self.put(")")
    }

    fn put_enum_head(&mut self, x: &EnumTree) -> Result<(), AllocError> {
        self.put("(enum")?;
        if let Some(key) = x.key {
            self.put(key_text(key))?;
        }
        self.put_words(x.name.span)?;
        match &x.underlying {
            Some(of) => self.put_with(" :", of.get().span()),
            None => Ok(()),
        }
    }

    pub fn put_enum(&mut self, x: &EnumTree) -> Result<(), AllocError> {
        self.put_enum_head(x)?;
        for enumerator in x.enumerators.as_slice() {
            self.put_enumerator(enumerator)?;
        }
        self.put(")")
    }

    fn put_parameter(&mut self, x: &ParameterTree) -> Result<(), AllocError> {
        self.put_with(" (", x.of_type.get().span())?;
        if let Some(name) = x.name {
            self.put_with(",", name.span)?;
        }
        self.put(")")
    }

    pub fn put_parameters(&mut self, parameters: &[ParameterTree]) -> Result<(), AllocError> {
        for x in parameters {
            self.put_parameter(x)?;
        }
        Ok(())
    }

    pub fn put_function(&mut self, x: &FunctionTree) -> Result<(), AllocError> {
        self.put("(function")?;
        self.put_specifiers(x.specifiers)?;
        self.put_words(x.returned.get().span())?;
        self.put_with(",", x.name.span)?;
        self.put_parameters(x.parameters.as_slice())?;
        self.put_if(x.is_const, " const")?;
        self.put_if(x.is_noexcept, " noexcept")?;
        if let Some(body) = &x.body {
            self.put_words(body_span(body.get()))?;
        }
        self.put(")")
    }

    fn put_init(&mut self, init: &InitTree) -> Result<(), AllocError> {
        match init {
            InitTree::Equal(x) => self.put_last(" (equal", x.span()),
            InitTree::EqualBraced(x) => self.put_last(" (equal-braced", x.span()),
            InitTree::Braced(x) => self.put_last(" (braced", x.span()),
        }
    }

    pub fn put_variable(&mut self, x: &VariableTree) -> Result<(), AllocError> {
        self.put("(variable")?;
        self.put_specifiers(x.specifiers)?;
        self.put_words(x.of_type.get().span())?;
        self.put_with(",", x.name.span)?;
        self.put_bounds(x.bounds.as_slice())?;
        if let Some(init) = &x.init {
            self.put_init(init.get())?;
        }
        self.put(")")
    }

    fn put_decl(&mut self, x: &Decl) -> Result<(), AllocError> {
        match x {
            Decl::NamespaceAlias(x) => self.put_namespace_alias(x),
            Decl::Alias(x) => self.put_alias(x),
            Decl::Class(x) => self.put_class(x),
            Decl::Enum(x) => self.put_enum(x),
            Decl::Function(x) => self.put_function(x),
            Decl::Variable(x) => self.put_variable(x),
            Decl::Assert(x) => self.put_assert(x),
            Decl::Block(x) => self.put_block(x),
        }
    }

    fn put_head(&mut self, names: &[Identifier]) -> Result<(), AllocError> {
        self.put("(head")?;
        for name in names {
            self.put_words(name.span)?;
        }
        self.put(")")
    }

    fn put_item(&mut self, x: &Item) -> Result<(), AllocError> {
        match x {
            Item::NamespaceHead(_, names) => { self.put_head(names.as_slice()) }
            Item::Close(_) => self.put("close"),
            Item::Decl(x) => self.put_decl(x.get()),
            Item::Empty(_) => self.put(";"),
        }
    }

    fn put_unit(&mut self, x: &Unit) -> Result<(), AllocError> {
        self.put("unit")?;
        for item in x.items.as_slice() {
            self.put(" ")?;
            self.put_item(item)?;
        }
        Ok(())
    }
}

/// A unit as a text, of the text that it is the tree of.
pub fn unit_text(alloc: Global, text: &str, unit: &Unit) -> Result<String, AllocError> {
    let mut printer = Printer::new(alloc, text)?;
    printer.put_unit(unit)?;
    Ok(printer.into_text())
}
