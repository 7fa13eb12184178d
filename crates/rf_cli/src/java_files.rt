ghost use Rattle.std.specs.Prelude.{◌≡◌, [], ◌∷◌, ℕ, List, filter, MatchOption};
ghost use Rattle.rf_jtree.specs.JavaPath.{is_java_path};

use rf_jtree::is_java_path;
use rf_text::Bytes;

/// The path of the one Java file, or `None` where there is none or more than one.
pub(crate) fn only_java(paths: &[Bytes]) -> Option<&Bytes>
    ensures { MatchOption result
        ((path : List ℕ) → filter is_java_path paths.now ≡ path ∷ [] → ⊥)
        (λ path. filter is_java_path paths.now ≡ path.now ∷ []) }
{
    let mut found = None;
    for path in paths {
        if is_java_path(path.as_slice()) {
            if found.is_some() {
                return None;
            }
            found = Some(path);
        }
    }
    found
}
