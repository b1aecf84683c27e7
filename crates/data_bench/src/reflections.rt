//! Constants of constants.

use crate::classes::type_of;
use containers::Items;
use core_reflection::Reflection;
use core_value::InfoList;
use cxx_base::{EntityNo, Memory};
use cxx_type::BasicType;
use sharing::Shared;
use std::alloc::Global;

// The constant of a reflection, a few levels more.
fn nested(alloc: Global, count: u32) -> Result<Reflection, Memory> {
    let mut reflection = Reflection::Null;
    for _ in 0..count {
        let of = Shared::new(alloc, type_of(BasicType::Info))?;
        let value = Shared::new(alloc, reflection)?;
        reflection = Reflection::InfoConstant(of, value);
    }
    Ok(reflection)
}

/// Two nests of constants, which are compared and let go.
pub fn nest(alloc: Global, count: u32) -> Result<bool, Memory> {
    let one = nested(alloc, count)?;
    let other = nested(alloc, count)?;
    let copy = other.copy()?;
    Ok(one.same(&other) && copy.same(&one))
}

/// A list of so many reflections, each put behind the last in place; then a copy of it, which one more is put behind, and the first stays as
/// it was.
pub fn push(alloc: Global, count: u32) -> Result<bool, Memory> {
    let mut list = InfoList::new(alloc, Items::new(alloc))?;
    for n in 0..count {
        list.push(Reflection::Namespace(EntityNo(n)))?;
    }
    let mut copy = list.copy()?;
    copy.push(Reflection::Null)?;
    Ok(copy.len() == list.len() + 1 && list.len() == count as usize && !copy.same(&list))
}
