//! The names of refusal codes.

ghost use Rattle.std.specs.Prelude.{◌≡◌};
ghost use Rattle.diagnostics.specs.Texts as spec;

use cxx_base::Code;

/// The name of a code: its letter and its number, as `T10`.
pub fn name(code: Code) -> &'static str
    ensures { result.now ≡ spec.code_name code }
{
    match code {
        Code::L1 => "L1",
        Code::L2 => "L2",
        Code::L3 => "L3",
        Code::L4 => "L4",
        Code::L5 => "L5",
        Code::L6 => "L6",
        Code::S1 => "S1",
        Code::S2 => "S2",
        Code::P1 => "P1",
        Code::P2 => "P2",
        Code::N1 => "N1",
        Code::N2 => "N2",
        Code::N3 => "N3",
        Code::N4 => "N4",
        Code::N5 => "N5",
        Code::T1 => "T1",
        Code::T2 => "T2",
        Code::T3 => "T3",
        Code::T4 => "T4",
        Code::T5 => "T5",
        Code::T6 => "T6",
        Code::T7 => "T7",
        Code::T8 => "T8",
        Code::T9 => "T9",
        Code::T10 => "T10",
        Code::V1 => "V1",
        Code::V2 => "V2",
        Code::V3 => "V3",
        Code::V4 => "V4",
        Code::V5 => "V5",
        Code::V6 => "V6",
        Code::V7 => "V7",
        Code::V8 => "V8",
        Code::V9 => "V9",
        Code::V10 => "V10",
        Code::V11 => "V11",
        Code::V12 => "V12",
        Code::V13 => "V13",
        Code::V14 => "V14",
        Code::V15 => "V15",
        Code::M1 => "M1",
        Code::M2 => "M2",
        Code::M3 => "M3",
        Code::M4 => "M4",
        Code::M5 => "M5",
        Code::M6 => "M6",
        Code::M7 => "M7",
        Code::R1 => "R1",
    }
}
