//! Laws: what the layout of a class owes, proved of the definitions that the contract of [`crate::layout`] cites. Each
//! function does nothing, and a call of it gives its caller the law.
ghost use Rattle.class_layout.specs.Laws.{IsTheLeast, NoTwoOverlap, PartsAreInOrder, WholeIsAligned};

/// Each part begins at a multiple of its alignment, where the part before it ends or later ([basic.align], [class.mem]).
pub fn parts_are_in_order()
    ensures { PartsAreInOrder }
{}

/// No two parts share bytes.
pub fn no_two_overlap()
    ensures { NoTwoOverlap }
{}

/// The size is positive, not below the end of the last part, and a multiple of the alignment, which is a multiple of that
/// of each part ([expr.sizeof], [basic.align]).
pub fn whole_is_aligned()
    ensures { WholeIsAligned }
{}

/// Of all layouts that keep the order this is the least: wherever parts of these sizes and alignments lie in order, none of
/// them begins before its place here, and no size for them is below the size here.
pub fn is_the_least()
    ensures { IsTheLeast }
{}
