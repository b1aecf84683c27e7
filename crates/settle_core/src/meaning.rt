//! What pieces mean.

ghost use Rattle.std.specs.Prelude.{◌≡◌};
ghost use Rattle.settle_core.specs.Meant.{Meant, Lawful};

/// What there is to settle: pieces, numbered from 0, of which each reads pieces before it and has an outcome.
///
/// `meant` has for each piece its reads and its outcome, as functions of the outcomes of the pieces before it, and says which
/// tasks are its own for a piece, how many reads a task has taken, whether it was advanced, and the steps of a task and of an
/// outcome.
///
/// A board has a slot for each piece in which a task or an outcome lies, and room for every outcome. So `Task` and `Outcome` are of one
/// word each, a box or a count of what is large: with 65,536 pieces a board then takes 2 MiB.
pub trait Meaning: Drop {
    type Task: Drop;

    type Outcome: Drop;

    ghost meant: { Self → Meant Self.Task Self.Outcome };

    /// How many pieces there are.
    fn pieces(&self) -> u32
        ensures { result ≡ (meant self.now).pieces };

    ghost lawful: { (x : Self) → Lawful (meant x) };
}
