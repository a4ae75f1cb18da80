//! Where a report begins.

ghost use Rattle.std.specs.Prelude.{◌≡◌, ◌∷◌, IfOk, drop, replicate, if◌then◌else◌};
ghost use Rattle.std.specs.Option.{option_map};
ghost use Rattle.report_write.specs.Begins.{has_other_id, given_refusal};

use crate::setting::WriteError;
use std::alloc::{AllocError, Global};

/// Why nothing is written onto a report of at least `len` bytes that is given, if it is not.
pub(crate) fn refuse(uses_ids: bool, id: u8, len: usize, onto: Option<&[u8]>) -> Option<WriteError>
    ensures { result ≡ given_refusal uses_ids id len (option_map (λ given. given.now) onto.entry) }
{
    let given = onto?;
    if uses_ids && has_other_id(id, given) {
        Some(WriteError::OtherId)
    } else if given.len() < len {
        Some(WriteError::Short)
    } else {
        None
    }
}

/// Whether a report begins with another ID.
fn has_other_id(id: u8, given: &[u8]) -> bool
    ensures { result ≡ has_other_id id given.now }
{
    match given {
        [] => false,
        [first, ..] => *first != id,
    }
}

/// The bytes of a report after its ID.
pub(crate) fn after_id(uses_ids: bool, report: &[u8]) -> &[u8]
    ensures { result.now ≡ (if uses_ids then drop 1 report.now else report.now) }
{
    if !uses_ids {
        return report;
    }
    match report {
        [_, bytes @ ..] => bytes,
        [] => report,
    }
}

/// A copy of some bytes, with room for an ID.
pub(crate) fn copy_of(alloc: Global, bytes: &[u8]) -> Result<Vec<u8>, AllocError>
    ensures { IfOk result (λ v. v.items ≡ bytes.now) }
{
    let mut copy = Vec::with_capacity(alloc, bytes.len().saturating_add(1))?;
    copy.extend_from_slice(bytes)?;
    Ok(copy)
}

/// So many bytes of 0, with room for an ID.
pub(crate) fn zeros(alloc: Global, count: usize) -> Result<Vec<u8>, AllocError>
    ensures { IfOk result (λ v. v.items ≡ replicate count 0) }
{
    let mut bytes = Vec::with_capacity(alloc, count.saturating_add(1))?;
    for _ in 0..count {
        bytes.push(0)?;
    }
    Ok(bytes)
}

/// The report with these bytes after its ID.
pub(crate) fn with_id(uses_ids: bool, id: u8, bytes: Vec<u8>) -> Result<Vec<u8>, AllocError>
    ensures { IfOk result (λ v. v.items ≡ (if uses_ids then id ∷ bytes.items else bytes.items)) }
{
    let mut bytes = bytes;
    if uses_ids {
        bytes.insert(0, id)?;
    }
    Ok(bytes)
}
