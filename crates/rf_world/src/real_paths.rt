//! Names of the real world: texts of the system, made of roots and paths.
ghost use Rattle.std.specs.Prelude.{◌≡◌, ◌≢◌, ◌⊎◌, IfOk, OnErr, IsErrOf, IsOkUnless, IsUtf8, string_bytes};
ghost use Rattle.std.specs.IoError.{error_kind};
ghost use Rattle.rf_world.specs.RealPaths.{joined_name, needs_no_slash};

use crate::WorldErr;
use std::alloc::{AllocError, Global};
use std::io;
use std::io::ErrorKind;

/// The path below the root as one text. An empty root means the path alone.
pub(crate) fn full_path(alloc: Global, root: &[u8], path: &[u8]) -> Result<String, WorldErr>
    ensures ok { IfOk result (λ text. string_bytes text ≡ joined_name root.now path.now) }
    ensures failed { IsErrOf result WorldErr.Failed → (¬ IsUtf8 root.now) ⊎ (¬ IsUtf8 path.now) }
{
    Ok(joined(alloc, text(root)?, text(path)?)?)
}

/// The bytes as a text. Bytes that are not UTF-8 are no name of the system.
pub(crate) fn text(bytes: &[u8]) -> Result<&str, WorldErr>
    ensures ok { IfOk result (λ text. text.now ≡ bytes.now) }
    ensures failed { OnErr result (¬ IsUtf8 bytes.now) }
    ensures which { IsOkUnless result WorldErr.Failed }
{
    match std::str::from_utf8(bytes) {
        Ok(text) => Ok(text),
        Err(_) => Err(WorldErr::Failed),
    }
}

/// The name in the folder, with one slash between. An empty folder means the name alone.
pub(crate) fn joined(alloc: Global, folder: &str, name: &str) -> Result<String, AllocError>
    ensures { IfOk result (λ path. string_bytes path ≡ joined_name folder.now name.now) }
{
    let mut path = String::from_str(alloc, folder)?;
    if !may_follow(folder) {
        path.push_str("/")?;
    }
    path.push_str(name)?;
    Ok(path)
}

/// Whether a name may follow at once.
fn may_follow(folder: &str) -> bool
    ensures { result ≡ needs_no_slash folder.now }
{
    folder.is_empty() || folder.as_bytes().ends_with(b"/")
}

/// What a fault of the system means: want of memory stays apart.
pub(crate) fn fault(error: io::Error) -> WorldErr
    ensures memory { error_kind error ≡ ErrorKind.OutOfMemory → result ≡ WorldErr.Memory }
    ensures failed { error_kind error ≢ ErrorKind.OutOfMemory → result ≡ WorldErr.Failed }
{
    if error.kind() == ErrorKind::OutOfMemory {
        WorldErr::Memory
    } else {
        WorldErr::Failed
    }
}
