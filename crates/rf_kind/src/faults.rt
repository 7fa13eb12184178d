use rf_rtree::Word;

/// A word that a fault tells, or a number of arguments.
#[derive(Clone, Copy)]
pub enum Said<'a> {
    Text(&'a [u8]),
    Count(usize),
}

/// A fault that has not yet been told: it borrows its words from the program.
#[derive(Clone, Copy)]
pub struct Fault<'a> {
    pub line: u32,
    pub found: Said<'a>,
    pub wanted: Said<'a>,
}

ghost use Rattle.std.specs.Prelude.{◌≡◌};
ghost use Rattle.rf_rtree.specs.Faults.{told};
ghost use Rattle.rf_kind.specs.Found.{told_as};

/// This word stands where another one was wanted.
pub fn at_word<'a>(word: &'a Word, wanted: &'a [u8]) -> Fault<'a>
    ensures { told_as result ≡ told word.now.line word.now.text wanted.now }
{
    Fault {
        line: word.line,
        found: Said::Text(word.text.as_slice()),
        wanted: Said::Text(wanted),
    }
}
