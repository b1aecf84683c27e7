//! Programs. The crate passes on the data of the semantic half, so that one line finds it.
#![tactic(auto)]

mod program;

pub use class_layout::Layout;
pub use core_outcome::{
    Completion, Completions, Constant, Declared, Enumeration, Fact, FunctionBody, OpenedBase,
    Outcome, OutcomeParts, Signature,
};
pub use core_pointer::{Literal, Origin, Path, PathStep, Pointer};
pub use core_reflection::{
    DataMember, Description, IntConstant, ReflectedKind, Reflection, TypedOperand,
};
pub use core_shape::{
    Base, Class, ClassHead, CompletedBy, ImplicitMaking, Member, PartAt, PartsBefore, Shape,
    SpecialMembers,
};
pub use core_value::{InfoList, ObjectValue, Query, QueryRow, Scalar, Value};
pub use core_words::{
    AccessContext, AccessLevel, CallStop, Cause, ConstexprKind, Conversion, ReadStop,
};
pub use cxx_base::{Code, Refusal};
pub use program::Program;
pub use program_tables::{
    Entities, Entity, EntityKind, Piece, PieceKind, PieceList, Pieces, Scopes,
};
pub use typed_code::{TypedCode, TypedExpr, TypedStmt};
