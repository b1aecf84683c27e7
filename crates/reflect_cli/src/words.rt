//! The words of the command line.

ghost use Rattle.std.specs.Prelude.{◌≡◌, [], ◌∷◌, ◌++◌, OnOk, OnErr, IsOk, true, ◌↔◌};
ghost use Rattle.reflect_cli.specs.Told.{is_in_grammar};

use cxx_base::Memory;
use std::alloc::Global;
use std::marker::Model;
use thiserror::Error;

/// A list of words. Contracts see the list of their texts.
pub struct Words {
    words: Vec<String>,
}

impl Drop for Words {
    fn drop(self) {
        let Words { words: _ } = self;
    }
}

impl Model for Words {
    ghost use Rattle.std.specs.Prelude.{List, ℕ, map, string_bytes};

    ghost Value = { List (List ℕ) };

    ghost view = { λ w. map string_bytes w.words.items };
}

impl Words {
    /// No words. It takes no memory.
    pub fn new(alloc: Global) -> Words
        ensures { result ≡ [] }
    {
        Words {
            words: Vec::new(alloc),
        }
    }

    /// Puts one word at the end. Without memory nothing changes.
    pub fn push(&mut self, word: &str) -> Result<(), Memory>
        ensures ok { OnOk result (self.new ≡ self.old ++ word.now ∷ []) }
        ensures err { OnErr result (self.new ≡ self.old) }
    {
        let owned = String::from_str(*self.words.allocator(), word)?;
        self.words.push(owned)?;
        Ok(())
    }
}

/// What the words ask for.
#[derive(Clone, Copy, Debug, PartialEq, Eq)]
pub enum Command {
    /// Translate in order, and report.
    Order,
}

/// Why words ask for nothing.
#[derive(Clone, Copy, Debug, PartialEq, Eq, Error)]
pub enum WordFault {
    /// They are not in the grammar.
    #[error("the words are not in the grammar")]
    Refused,
}

/// What the words ask for. `order` alone is accepted.
pub fn read_words(words: &Words) -> Result<Command, WordFault>
    ensures { IsOk result ↔ (is_in_grammar words.now ≡ true) }
{
    match words.words.as_slice() {
        [word] => {
            if word.as_str() == "order" {
                Ok(Command::Order)
            } else {
                Err(WordFault::Refused)
            }
        }
        _ => Err(WordFault::Refused),
    }
}
