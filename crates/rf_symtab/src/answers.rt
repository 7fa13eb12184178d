ghost use Rattle.std.specs.Prelude.{◌≡◌};
ghost use Rattle.rf_symtab.specs.Found.{joined};

use rf_jmodel::TypeId;

/// How many types there are where one is asked for, and which one where it is alone.
#[derive(Clone, Copy, Debug, PartialEq, Eq)]
pub enum Answer {
    One(TypeId),
    None,
    Several,
}

impl Answer {
    /// The answer for the types so far and one more, if there is one. It may be among them.
    pub(crate) fn with(self, more: Option<TypeId>) -> Answer
        ensures { result ≡ joined self more }
    {
        let Some(id) = more else {
            return self;
        };
        match self {
            Answer::None => Answer::One(id),
            Answer::One(known) if known == id => self,
            Answer::One(_) => Answer::Several,
            Answer::Several => Answer::Several,
        }
    }
}
