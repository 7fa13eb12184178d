ghost use Rattle.std.specs.Prelude.{◌≡◌, IfOk};

use rf_text::Memory;
use std::alloc::Global;

/// A value behind a pointer.
pub fn put<T: Drop>(alloc: Global, item: T) -> Result<Box<T>, Memory>
    ensures { IfOk result (λ found. found.value ≡ item) }
{
    Ok(Box::new(alloc, item)?)
}
