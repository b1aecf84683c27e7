//! What a statement stands in.

ghost use Rattle.std.specs.Prelude.{◌≡◌};
ghost use Rattle.cxx_grammar.specs.Nests.{of_function, of_block, looping};

/// What a statement stands in: whether in a `while` or `for` of the same body ([stmt.iter]), and whether that is the body of a
/// block or of a function. A body within another one is the body that counts.
#[derive(Clone, Copy, Debug, PartialEq, Eq)]
pub struct Within {
    pub in_loop: bool,
    pub in_block: bool,
}

impl Within {
    /// The body of a function, outside its loops.
    pub fn function() -> Within
        ensures { result ≡ of_function }
    {
        Within {
            in_loop: false,
            in_block: false,
        }
    }

    /// The body of a block, outside its loops.
    pub fn block() -> Within
        ensures { result ≡ of_block }
    {
        Within {
            in_loop: false,
            in_block: true,
        }
    }

    /// The same body, in a loop of it.
    pub fn looping(self) -> Within
        ensures { result ≡ looping self }
    {
        Within {
            in_loop: true,
            in_block: self.in_block,
        }
    }
}
