//! The numbers of what code is made of.

/// The number of an expression in its code: its place among the expressions, from 0.
#[derive(Clone, Copy, Debug, PartialEq, Eq)]
pub struct ExprNo(pub u32);

/// The number of a statement in its code.
#[derive(Clone, Copy, Debug, PartialEq, Eq)]
pub struct StmtNo(pub u32);

/// The number of a type in its code. The lowest numbers are those of the types that no declaration makes, without a layer, so that
/// most types are a number and nothing else: twice the place of the type among these, and one more where it is const. The others are
/// the places in the code's table, counted on from there.
#[derive(Clone, Copy, Debug, PartialEq, Eq)]
pub struct TypeNo(pub u32);

/// The number of a shape in its code, as that of a type: the lowest are those of the scalars of these types.
#[derive(Clone, Copy, Debug, PartialEq, Eq)]
pub struct ShapeNo(pub u32);

/// The number of a settled value in its code.
#[derive(Clone, Copy, Debug, PartialEq, Eq)]
pub struct ValueNo(pub u32);

/// The number of a string literal in its code.
#[derive(Clone, Copy, Debug, PartialEq, Eq)]
pub struct TextNo(pub u32);

/// The number of a local variable in its body: parameters first, then variables in the order of their declarators. A body and the
/// statement of a block say how many there are. A tree that is evaluated while the body around it is elaborated names few of those of this
/// body, so whoever evaluates it keeps those that it names.
#[derive(Clone, Copy, Debug, PartialEq, Eq)]
pub struct SlotNo(pub u32);

/// Where a list stands in its code: its first entry, and how many of them it has.
#[derive(Clone, Copy, Debug, PartialEq, Eq)]
pub struct ListAt {
    pub first: u32,
    pub count: u32,
}
