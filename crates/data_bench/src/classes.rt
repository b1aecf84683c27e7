//! Classes in each other.

use crate::values::value_of;
use class_layout::Layout;
use containers::Items;
use core_shape::{
    Base, Class, ClassHead, CompletedBy, ImplicitMaking, Member, PartAt, PartsBefore, Shape,
    SpecialMembers,
};
use core_words::AccessLevel;
use cxx_base::{EntityNo, IntKind, Memory, Name, PieceNo};
use cxx_type::{BasicType, CxxType, Layers};
use sharing::Shared;
use std::alloc::Global;
use std::mem::replace;

// An object without a part is a leaf.
fn leaves_of(scalars: u64) -> u64 {
    if scalars == 0 { 1 } else { scalars }
}

// The class of a number, with so many scalars.
fn head(n: u32, scalars: u64) -> ClassHead {
    ClassHead {
        entity: EntityNo(n),
        by: CompletedBy::Text(PieceNo(n)),
        layout: Layout { size: 4, align: 4 },
        scalars,
        leaves: leaves_of(scalars),
        special: SpecialMembers {
            has_constructor: false,
            default_constructor: None,
            destructor: None,
            is_destroyed: false,
            is_aggregate: true,
            is_consteval_only: false,
        },
        making: ImplicitMaking {
            is_missing: false,
            is_consteval: false,
            is_guarded: false,
            is_end_guarded: false,
        },
    }
}

pub fn type_of(basic: BasicType) -> CxxType {
    CxxType {
        basic,
        is_const: false,
        layers: Layers::none(),
    }
}

// Where a part begins that has so many scalars before it.
fn part_at(scalar: u64) -> PartAt {
    PartAt {
        offset: 0,
        scalar,
        leaf: scalar,
        before: PartsBefore {
            missing: 0,
            consteval: 0,
            guarded: 0,
            end_guarded: 0,
        },
    }
}

pub fn member(n: u32, shape: Shape) -> Member {
    Member {
        name: Name(n),
        entity: Some(EntityNo(n)),
        access: AccessLevel::Public,
        align: 4,
        default_init: None,
        shape,
        at: part_at(u64::from(n)),
    }
}

pub fn number() -> Shape {
    Shape {
        of: type_of(BasicType::Int(IntKind::Int)),
        class: None,
        scalars: 1,
        leaves: 1,
    }
}

pub fn shape_of(n: u32, class: Shared<Class>, scalars: u64) -> Shape {
    Shape {
        of: type_of(BasicType::Class(EntityNo(n))),
        class: Some(class),
        scalars,
        leaves: leaves_of(scalars),
    }
}

pub fn class_of(
    alloc: Global,
    n: u32,
    scalars: u64,
    members: Items<Member>,
) -> Result<Shared<Class>, Memory> {
    let class = Class::new(
        head(n, scalars),
        Items::new(alloc),
        members,
        Items::new(alloc),
    )?;
    Shared::new(alloc, class)
}

// A class with one member of the class within.
fn around(alloc: Global, n: u32, within: Shape) -> Result<Shape, Memory> {
    let mut members = Items::new(alloc);
    members.push(member(0, within))?;
    let class = class_of(alloc, n, 1, members)?;
    Ok(shape_of(n, class, 1))
}

fn nested(alloc: Global, count: u32) -> Result<Shape, Memory> {
    let mut shape = number();
    for n in 0..count {
        shape = around(alloc, n, shape)?;
    }
    Ok(shape)
}

/// Classes in each other, as many as are asked for, made twice: values of the outermost are compared, copied, and let go.
pub fn nest(alloc: Global, count: u32) -> Result<bool, Memory> {
    let one = value_of(alloc, &nested(alloc, count)?, 1)?;
    let other = value_of(alloc, &nested(alloc, count)?, 1)?;
    let copy = one.copy()?;
    Ok(copy.same(&other))
}

// A class with two members of the class within.
fn twice(alloc: Global, n: u32, within: Shape) -> Result<Shape, Memory> {
    let scalars = within.scalars.saturating_mul(2);
    let other = within.copy()?;
    let mut members = Items::new(alloc);
    members.push(member(0, within))?;
    members.push(member(1, other))?;
    let class = class_of(alloc, n, scalars, members)?;
    Ok(shape_of(n, class, scalars))
}

/// Classes of which each has two members of the one before.
pub fn double(alloc: Global, count: u32) -> Result<bool, Memory> {
    let mut shape = number();
    for n in 0..count {
        shape = twice(alloc, n, shape)?;
    }
    let copy = shape.copy()?;
    Ok(copy.of.same(&shape.of) && copy.scalars == shape.scalars && copy.leaves == shape.leaves)
}

fn base(shape: Shape) -> Base {
    Base {
        access: AccessLevel::Public,
        shape,
        at: part_at(0),
    }
}

// A class without scalars that has these bases.
fn derived(alloc: Global, n: u32, bases: Items<Base>) -> Result<Shape, Memory> {
    let class = Class::new(head(n, 0), bases, Items::new(alloc), Items::new(alloc))?;
    let class = Shared::new(alloc, class)?;
    Ok(shape_of(n, class, 0))
}

// `struct X : within {};`
fn over_one(alloc: Global, n: u32, within: &Shape) -> Result<Shape, Memory> {
    let mut bases = Items::new(alloc);
    bases.push(base(within.copy()?))?;
    derived(alloc, n, bases)
}

// `struct Y : first, within {};`
fn over_two(alloc: Global, n: u32, first: &Shape, within: &Shape) -> Result<Shape, Memory> {
    let mut bases = Items::new(alloc);
    bases.push(base(first.copy()?))?;
    bases.push(base(within.copy()?))?;
    derived(alloc, n, bases)
}

/// Two chains of classes: `struct X1 : X0 {}; struct Y1 : X1, Y0 {};` and so on, so many times. All are kept, and let go in order, so that the
/// last of the second chain holds the last share of all others.
pub fn cross(alloc: Global, count: u32) -> Result<bool, Memory> {
    let mut first = derived(alloc, 0, Items::new(alloc))?;
    let mut within = derived(alloc, 1, Items::new(alloc))?;
    let mut shapes = Items::new(alloc);
    for n in 0..count {
        let next = over_one(alloc, n, &first)?;
        let around = over_two(alloc, n, &next, &within)?;
        shapes.push(replace(&mut first, next))?;
        shapes.push(replace(&mut within, around))?;
    }
    let copy = within.copy()?;
    Ok(copy.of.same(&within.of) && copy.leaves == within.leaves)
}
