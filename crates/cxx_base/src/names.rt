//! Numbered names.

ghost use Rattle.std.specs.Prelude.{◌≡◌, ◌<◌, ◌^◌, length, slice_get, Some, OnOk, OnErr, IfOk, IfSome, is_some, codes};
ghost use Rattle.cxx_base.specs.KeyedHash.{IsKeyedBy};
ghost use Rattle.cxx_base.specs.Library.{AreInPlace, AreNames, BeginsWithLibrary, library_names};
ghost use Rattle.cxx_base.specs.Texts.{number_of, with_text, has_text, AreDistinct};

use crate::library::LIBRARY;
use crate::memory::Memory;
use crate::name::Name;
use crate::text_set::TextSet;
use std::alloc::Global;
use std::marker::Model;

/// The names of a source: a list of texts without repeats, in which those of the library come first. The number of a name is
/// its place, which it keeps. Their table hashes by the source. Contracts see the list.
pub struct Names {
    texts: TextSet,
}

impl Drop for Names {
    fn drop(self) {
        let Names { texts: _ } = self;
    }
}

impl Model for Names {
    ghost use Rattle.std.specs.Prelude.{List, ℕ};
    ghost use Rattle.cxx_base.specs.NameTable.{IsNameTable};

    ghost Value = { List (List ℕ) };

    ghost view = { λ n. n.texts.texts };

    ghost invariant = { λ n. IsNameTable n.texts };
}

impl Names {
    /// The names of the library, for names that are chosen by no source.
    pub fn new(alloc: Global) -> Result<Names, Memory>
        ensures names { IfOk result (λ names. names ≡ library_names) }
        ensures few { IfOk result (λ names. length names ≡ 69) }
        ensures std { IfOk result (λ names. number_of names (codes "std") ≡ 0) }
    {
        Names::of_source(alloc, &[])
    }

    /// The names of the library, for those of a source of these bytes, which are the key of the table: names that were chosen
    /// to fall together under another key do not under this one.
    pub fn of_source(alloc: Global, source: &[u8]) -> Result<Names, Memory>
        ensures names { IfOk result (λ names. names ≡ library_names) }
        ensures few { IfOk result (λ names. length names ≡ 69) }
        ensures std { IfOk result (λ names. number_of names (codes "std") ≡ 0) }
    {
        let mut texts = TextSet::of_source(alloc, source);
        texts.insert_each(&LIBRARY)?;
        Ok(Names::in_table_of(source, texts))
    }

    // The names that stand in the table of a source. (The code has no use for `source`: it is what the invariant speaks of.)
    fn in_table_of(source: &[u8], texts: TextSet) -> Names
        requires names { AreNames texts.texts }
        requires keyed { IsKeyedBy source.now texts.hash }
        ensures { result ≡ texts.texts }
    {
        let _source = source;
        Names { texts }
    }

    /// The number of a text, which goes to the end where it is new. Without memory nothing changes.
    pub fn number(&mut self, text: &str) -> Result<Name, Memory>
        requires { length self.old < 2 ^ 24 }
        ensures number { IfOk result (λ name. name.0 ≡ number_of self.old text.now) }
        ensures names { OnOk result (self.new ≡ with_text self.old text.now) }
        ensures within { IfOk result (λ name. name.0 < length self.new) }
        ensures stored { IfOk result (λ name. slice_get self.new name.0 ≡ Some text.now) }
        ensures err { OnErr result (self.new ≡ self.old) }
    {
        let at = self.texts.insert(text)?;
        Ok(Name(at))
    }

    /// The text of a name.
    pub fn text(&self, name: Name) -> &str
        requires { name.0 < length self.now }
        ensures { slice_get self.now name.0 ≡ Some result.now }
    {
        self.texts.text(name.0)
    }

    /// How many names there are. No text stands twice among them, and those of the library stand first.
    pub fn len(&self) -> u32
        ensures len { result ≡ length self.now }
        ensures distinct { AreDistinct self.now }
        ensures library { BeginsWithLibrary self.now }
    {
        self.texts.len() as u32
    }

    /// The number of a text, if it is held. It takes no memory.
    pub fn find(&self, text: &str) -> Option<Name>
        ensures number { IfSome result (λ name. name.0 ≡ number_of self.now text.now) }
        ensures stored { IfSome result (λ name. slice_get self.now name.0 ≡ Some text.now) }
        ensures held { is_some result ≡ has_text self.now text.now }
    {
        match self.texts.find(text) {
            Some(at) => Some(Name(at as u32)),
            None => None,
        }
    }
}

/// Each constant of `library` is the number of its name in all `Names`.
pub fn names_are_in_place(names: &Names)
    ensures { AreInPlace names.now }
{
    let _count = names.len();
}
