//! Memory: why it is refused, and room for copies.

ghost use Rattle.std.specs.Prelude.{◌≡◌, ◌<◌, [], length, vec_capacity, IfOk, OnErr};

use std::alloc::{AllocError, AllocFailed, Global};
use thiserror::Error;

/// Memory was refused. The value that was to grow is as before the call, unless the function says
/// otherwise.
#[derive(Clone, Copy, Debug, PartialEq, Eq, Error)]
#[error("WantOfMemory")]
pub struct WantOfMemory;

impl From<AllocError> for WantOfMemory {
    fn from(_error: AllocError) -> WantOfMemory {
        WantOfMemory
    }
}

impl<T: Drop> From<AllocFailed<T>> for WantOfMemory {
    fn from(_error: AllocFailed<T>) -> WantOfMemory {
        WantOfMemory
    }
}

// An empty vector with room for copies of those items, and for no more.
pub(crate) fn room_for_copies<T>(alloc: Global, items: &[T]) -> Result<Vec<T>, AllocError>
    ensures none { IfOk result (λ v. v.items ≡ []) }
    ensures room { IfOk result (λ v. vec_capacity v ≡ length items.now) }
    ensures refused { OnErr result (0 < length items.now) }
{
    Vec::with_capacity(alloc, items.len())
}
