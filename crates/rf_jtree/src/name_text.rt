ghost use Rattle.std.specs.Prelude.{◌≡◌, IfOk};
ghost use Rattle.rf_jtree.specs.NameText.{name_text};

use crate::Name;
use rf_text::{Bytes, Memory};
use std::alloc::Global;

impl Name {
    /// The identifiers with a point between two of them, and no trivia.
    pub fn text(&self, alloc: Global) -> Result<Bytes, Memory>
        ensures { IfOk result (λ text. text ≡ name_text self.now) }
    {
        let mut text = self.ids.first.text.copy(alloc)?;
        for item in self.ids.rest.as_slice() {
            text.push(b'.')?;
            text.extend(item.1.text.as_slice())?;
        }
        Ok(text)
    }
}
