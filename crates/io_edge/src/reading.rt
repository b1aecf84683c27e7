//! Reading a source to its end.

ghost use Rattle.std.specs.Prelude.{◌≡◌, ◌+◌, ◌-◌, ◌<◌, ◌≤◌, length, IfOk, IfSome, IsErrOf, OnOk};
ghost use Rattle.std.specs.Io.KnownBytes.{Consumes, IsAtEnd};
ghost use Rattle.cxx_base.specs.declared.limits.TheConstants.{MAX_SOURCE};
ghost use Rattle.io_edge.specs.Edge.{Drops, LosesPrefix, Rose, TellsOn};
ghost use Rattle.io_edge.specs.Gather.{Gathers, LosesCount};

use crate::edge::Source;
use cxx_base::Bytes;
use std::alloc::Global;
use thiserror::Error;

/// Why a source was not read whole.
#[derive(Clone, Copy, Debug, PartialEq, Eq, Error)]
pub enum ReadAll {
    /// More bytes came than the cap.
    #[error("the input is too long")]
    TooLong,
    /// The source failed.
    #[error("reading failed")]
    Fault,
    /// No memory was found.
    #[error("no memory was found")]
    Memory,
}

/// How many bytes one read is asked for at most.
const PIECE: usize = 65536;

/// Reads all that is left, at most `cap` bytes. Of a longer source one byte more is taken, and no
/// other. After an error the bytes that were read are gone.
pub fn read_all<S: Source>(alloc: Global, source: &mut S, cap: usize) -> Result<Bytes, ReadAll>
    requires { cap ≤ MAX_SOURCE }
    // Read whole.
    ensures whole { IfOk result (λ bytes. IfSome (S.left source.old) (λ xs. bytes ≡ xs)) }
    ensures emptied { OnOk result (IsAtEnd (S.left source.new)) }
    ensures within { IfOk result (λ bytes. length bytes ≤ cap) }
    ensures ok_only_within { OnOk result (IfSome (S.left source.old) (λ xs. length xs ≤ cap)) }

    // The causes of the errors. Want of memory has none.
    ensures too_long { IsErrOf result ReadAll.TooLong →
        IfSome (S.left source.old) (λ xs. cap < length xs) }
    ensures one_more { IsErrOf result ReadAll.TooLong →
        Drops (S.left source.old) (S.left source.new) (cap + 1) }
    ensures fault { IsErrOf result ReadAll.Fault →
        Rose (S.faults source.old) (S.faults source.new) }

    // In each case.
    ensures prefix { LosesPrefix (S.left source.old) (S.left source.new) }
    ensures tells { TellsOn (S.left source.old) (S.left source.new) }
    ensures count { S.faults source.old ≤ S.faults source.new }
{
    let Ok(mut buffer) = vec![in alloc; 0u8; PIECE] else {
        return Err(ReadAll::Memory);
    };
    read_through(alloc, source, buffer.as_mut_slice(), cap)
}

// The same, through a buffer.
fn read_through<S: Source>(
    alloc: Global,
    source: &mut S,
    buffer: &mut [u8],
    cap: usize,
) -> Result<Bytes, ReadAll>
    requires limit { cap ≤ MAX_SOURCE }
    requires room { 0 < length buffer.old }
    ensures whole { IfOk result (λ bytes. IfSome (S.left source.old) (λ xs. bytes ≡ xs)) }
    ensures emptied { OnOk result (IsAtEnd (S.left source.new)) }
    ensures within { IfOk result (λ bytes. length bytes ≤ cap) }
    ensures ok_only_within { OnOk result (IfSome (S.left source.old) (λ xs. length xs ≤ cap)) }
    ensures too_long { IsErrOf result ReadAll.TooLong →
        IfSome (S.left source.old) (λ xs. cap < length xs) }
    ensures one_more { IsErrOf result ReadAll.TooLong →
        Drops (S.left source.old) (S.left source.new) (cap + 1) }
    ensures fault { IsErrOf result ReadAll.Fault →
        Rose (S.faults source.old) (S.faults source.new) }
    ensures prefix { LosesPrefix (S.left source.old) (S.left source.new) }
    ensures tells { TellsOn (S.left source.old) (S.left source.new) }
    ensures count { S.faults source.old ≤ S.faults source.new }
{
    let mut bytes = Bytes::new(alloc);
    match read_pieces(source, buffer, &mut bytes, cap) {
        Ok(()) => Ok(bytes),
        Err(e) => Err(e),
    }
}

// Reads a piece at a time until nothing is left.
fn read_pieces<S: Source>(
    source: &mut S,
    buffer: &mut [u8],
    bytes: &mut Bytes,
    cap: usize,
) -> Result<(), ReadAll>
    requires limit { cap ≤ MAX_SOURCE }
    requires room { 0 < length buffer.old }
    requires empty { length bytes.old ≡ 0 }
    ensures gathers { OnOk result (Consumes (S.left source.old) (S.left source.new) bytes.new) }
    ensures emptied { OnOk result (IsAtEnd (S.left source.new)) }
    ensures within { OnOk result (length bytes.new ≤ cap) }
    ensures too_long { IsErrOf result ReadAll.TooLong →
        LosesCount (S.left source.old) (S.left source.new) (cap + 1) }
    ensures fault { IsErrOf result ReadAll.Fault →
        Rose (S.faults source.old) (S.faults source.new) }
    ensures prefix { LosesPrefix (S.left source.old) (S.left source.new) }
    ensures count { S.faults source.old ≤ S.faults source.new }
{
    'pieces: loop {
        match read_piece(source, buffer, bytes, cap) {
            Ok(0) => return Ok(()),
            Ok(_) => {}
            Err(e) => return Err(e),
        }
    }
}

// One read, and its bytes at the end of `bytes`. It asks for one byte more than may come, so that
// it learns of a longer source.
fn read_piece<S: Source>(
    source: &mut S,
    buffer: &mut [u8],
    bytes: &mut Bytes,
    cap: usize,
) -> Result<usize, ReadAll>
    requires limit { cap ≤ MAX_SOURCE }
    requires room { 0 < length buffer.old }
    requires within { length bytes.old ≤ cap }
    ensures gathers { OnOk result
        (Gathers (S.left source.old) (S.left source.new) bytes.old bytes.new) }
    ensures grows { IfOk result (λ n. length bytes.new ≡ length bytes.old + n) }
    ensures end { IfOk result (λ n. n ≡ 0 → IsAtEnd (S.left source.new)) }
    ensures within { OnOk result (length bytes.new ≤ cap) }
    ensures too_long { IsErrOf result ReadAll.TooLong →
        LosesCount (S.left source.old) (S.left source.new) (cap + 1 - length bytes.old) }
    ensures fault { IsErrOf result ReadAll.Fault →
        Rose (S.faults source.old) (S.faults source.new) }
    ensures prefix { LosesPrefix (S.left source.old) (S.left source.new) }
    ensures count { S.faults source.old ≤ S.faults source.new }
{
    let wanted = buffer.len().min(cap + 1 - bytes.len());
    let Ok(came) = source.read(&mut buffer[..wanted]) else {
        return Err(ReadAll::Fault);
    };
    if came > cap - bytes.len() {
        return Err(ReadAll::TooLong);
    }
    match bytes.extend(&buffer[..came]) {
        Ok(()) => Ok(came),
        Err(_) => Err(ReadAll::Memory),
    }
}
