ghost use Rattle.std.specs.Prelude.{◌≡◌};
ghost use Rattle.rf_jtree.specs.JavaPath.{has_last_part, is_java_path};

/// Whether the path is that of a Java file with a type: it ends in `.java`, and is neither that of
/// `package-info.java` nor that of `module-info.java` in any folder.
pub fn is_java_path(path: &[u8]) -> bool
    ensures { result ≡ is_java_path path.now }
{
    path.ends_with(b".java")
        && !(path == b"package-info.java".as_slice() || path.ends_with(b"/package-info.java"))
        && !(path == b"module-info.java".as_slice() || path.ends_with(b"/module-info.java"))
}
