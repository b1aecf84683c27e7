//! From the sizes and alignments of the parts to their offsets.
ghost use Rattle.std.specs.Prelude.{◌≡◌, ◌≤◌, All, OnOk};
ghost use Rattle.class_layout.specs.Arrangement.{begin_of, end_of, layout_of, placed, IsPart};

use crate::part::{Layout, Part, TooLarge};
use cxx_base::MAX_OBJECT;

/// The layout of a class with these parts, in their order ([class.mem], [basic.align]).
///
/// Each offset becomes the least multiple of the part's alignment that is not below the end of the part before it. The
/// alignment of the class is the greatest of all, and at least 1; its size is the least positive multiple of that which is
/// not below the end of the last part. No two parts share bytes, empty bases included. It is `TooLarge` exactly where the
/// size is over [`MAX_OBJECT`] bytes, and the offsets are then unspecified.
///
/// Alignments are powers of 2 up to [`MAX_OBJECT`], and no part takes more bytes than that.
pub fn layout(parts: &mut [Part]) -> Result<Layout, TooLarge>
    requires { All IsPart parts.old }
    ensures layout { result ≡ layout_of parts.old }
    ensures offsets { OnOk result (parts.new ≡ placed 0 parts.old) }
{
    let mut end: u64 = 0;
    let mut align: u64 = 1;
    for part in parts.iter_mut() {
        end = place(part, end);
        if end > MAX_OBJECT {
            return Err(TooLarge);
        }
        align = align.max(part.align);
    }
    Ok(Layout {
        size: end.max(1).next_multiple_of(align),
        align,
    })
}

// Puts the part behind the end of the one before it, and gives its end.
fn place(part: &mut Part, end: u64) -> u64
    requires part { IsPart part.old }
    requires end { end ≤ MAX_OBJECT }
    ensures part { part.new ≡ record part.old { offset = begin_of end part.old } }
    ensures end { result ≡ end_of end part.old }
{
    part.offset = end.next_multiple_of(part.align);
    part.offset + part.size
}
