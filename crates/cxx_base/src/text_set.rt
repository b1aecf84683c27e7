//! Numbered texts.

ghost use Rattle.std.specs.Prelude.{◌≡◌, ◌+◌, ◌<◌, ◌≤◌, ◌^◌, [], length, map, slice_get, Some, OnOk, OnErr, IfOk, IfSome, is_some};
ghost use Rattle.cxx_base.specs.KeyedHash.{IsKeyedBy};
ghost use Rattle.cxx_base.specs.Texts.{number_of, with_text, with_texts, has_text, AreDistinct};

use crate::keyed_hash::KeyedHash;
use crate::memory::Memory;
use indexmap::IndexSet;
use std::alloc::Global;
use std::marker::Model;

/// A list of texts without repeats, in which each is found by one search. Contracts see the list, and what its table hashes by.
pub struct TextSet {
    texts: IndexSet<String, KeyedHash>,
}

impl Drop for TextSet {
    fn drop(self) {
        let TextSet { texts: _ } = self;
    }
}

impl Model for TextSet {
    ghost use Rattle.std.specs.Prelude.{map, string_bytes};
    ghost use Rattle.indexmap.specs.IndexSet.{hasher_of};
    ghost use Rattle.cxx_base.specs.TextTable.{TextTable};

    ghost Value = { TextTable };

    ghost view = { λ s. record { texts = map string_bytes s.texts.keys; hash = hasher_of s.texts } };
}

impl TextSet {
    /// The empty list for the texts of a source. It takes no memory.
    pub fn of_source(alloc: Global, source: &[u8]) -> TextSet
        ensures texts { result.texts ≡ [] }
        ensures keyed { IsKeyedBy source.now result.hash }
    {
        TextSet {
            texts: IndexSet::with_hasher(alloc, KeyedHash::of_source(source)),
        }
    }

    /// The place of a text, which goes to the end where it is new. Without memory nothing changes.
    pub fn insert(&mut self, text: &str) -> Result<u32, Memory>
        requires { length self.old.texts < 2 ^ 24 }
        ensures number { IfOk result (λ at. at ≡ number_of self.old.texts text.now) }
        ensures texts { OnOk result (self.new.texts ≡ with_text self.old.texts text.now) }
        ensures within { IfOk result (λ at. at < length self.new.texts) }
        ensures stored { IfOk result (λ at. slice_get self.new.texts at ≡ Some text.now) }
        ensures err { OnErr result (self.new.texts ≡ self.old.texts) }
        ensures hash { self.new.hash ≡ self.old.hash }
    {
        let owned = String::from_str(*self.texts.allocator(), text)?;
        let (at, _) = self.texts.insert_full(owned)?;
        Ok(at as u32)
    }

    /// Puts in each of the texts. Without memory some may be in.
    pub fn insert_each(&mut self, texts: &[&str]) -> Result<(), Memory>
        requires { length self.old.texts + length texts.now ≤ 2 ^ 24 }
        ensures texts { OnOk result (self.new.texts ≡ with_texts self.old.texts (map (λ text. text.now) texts.now)) }
        ensures hash { self.new.hash ≡ self.old.hash }
    {
        for text in texts {
            self.insert(text)?;
        }
        Ok(())
    }

    /// The text at a place.
    pub fn text(&self, at: u32) -> &str
        requires { at < length self.now.texts }
        ensures { slice_get self.now.texts at ≡ Some result.now }
    {
        self.texts.get_index(at as usize).unwrap().as_str()
    }

    /// How many texts there are. None stands twice among them.
    pub fn len(&self) -> usize
        ensures len { result ≡ length self.now.texts }
        ensures distinct { AreDistinct self.now.texts }
    {
        self.texts.len()
    }

    /// The place of a text, if it is held. It takes no memory.
    pub fn find(&self, text: &str) -> Option<usize>
        ensures number { IfSome result (λ at. at ≡ number_of self.now.texts text.now) }
        ensures within { IfSome result (λ at. at < length self.now.texts) }
        ensures stored { IfSome result (λ at. slice_get self.now.texts at ≡ Some text.now) }
        ensures held { is_some result ≡ has_text self.now.texts text.now }
    {
        self.texts.get_index_of(text)
    }
}
