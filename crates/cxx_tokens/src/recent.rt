//! The names that a source used last.

ghost use Rattle.std.specs.Prelude.{◌≡◌, ◌<◌, ◌^◌, true, length, IsTrue, IfOk, IfSome, OnOk, OnErr};
ghost use Rattle.cxx_base.specs.Texts.{has_text, number_of, with_text};

use crate::word::key;
use cxx_base::{Memory, Name, Names};

/// Of the names of each key that which was used last, by its number. It is only a guess, which the text of the name confirms or not:
/// where a source has many names of one key, each is found by the table of names, whose time does not depend on them.
pub struct Recent {
    numbers: [u32; 512],
}

impl Drop for Recent {
    fn drop(self) {
        let Recent { numbers: _ } = self;
    }
}

// Whether a text has this number.
#[inline(always)]
fn is_number_of(names: &Names, number: u32, text: &str) -> bool
    ensures { IsTrue result → (number ≡ number_of names.now text.now) × (has_text names.now text.now ≡ true) }
{
    if number >= names.len() {
        return false;
    }
    names.text(Name(number)) == text
}

impl Recent {
    /// No name was used.
    pub fn new() -> Recent {
        Recent { numbers: [0; 512] }
    }

    /// The number of a text of this key, where it is a name that was used before and the guess is right.
    #[inline(always)]
    pub fn find(&self, names: &Names, key: usize, text: &str) -> Option<Name>
        requires { key < 512 }
        ensures { IfSome result (λ name. (name.0 ≡ number_of names.now text.now) × (has_text names.now text.now ≡ true)) }
    {
        let guess = self.numbers[key];
        if is_number_of(names, guess, text) {
            Some(Name(guess))
        } else {
            None
        }
    }

    /// The number of a text, which goes to the end of the names where it is new. Without memory the names do not change.
    #[inline]
    #[tactic(auto, using(crate::proofs::KnownNames::held_stays))]
    pub fn number(&mut self, names: &mut Names, text: &str) -> Result<Name, Memory>
        requires { length names.old < 2 ^ 24 }
        ensures number { IfOk result (λ name. name.0 ≡ number_of names.old text.now) }
        ensures names { OnOk result (names.new ≡ with_text names.old text.now) }
        ensures err { OnErr result (names.new ≡ names.old) }
    {
        let key = key(text.as_bytes());
        let guess = self.numbers[key];
        if is_number_of(names, guess, text) {
            return Ok(Name(guess));
        }
        let name = names.number(text)?;
        self.numbers[key] = name.0;
        Ok(name)
    }
}
