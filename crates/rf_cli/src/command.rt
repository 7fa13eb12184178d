ghost use Rattle.std.specs.Prelude.{◌≡◌, ◌↔◌, ℕ, List, IsTrue, MatchOption};
ghost use Rattle.rf_cli.specs.Command.{Apply, AreBadWords, IsApply, IsCommand, IsPossible, IsRules, command_seen};

use rf_text::Bytes;

/// The words of `apply SRC LIB OUT REQFILE`.
#[derive(Clone, Copy, Debug)]
pub(crate) struct ApplyWords<'a> {
    pub src: &'a [u8],
    pub lib: &'a [u8],
    pub out: &'a [u8],
    pub request: &'a [u8],
}

/// A command with its words.
#[derive(Clone, Copy, Debug)]
pub(crate) enum Command<'a> {
    Apply(ApplyWords<'a>),
    /// `rules FILE`, with FILE.
    Rules(&'a [u8]),
}

/// The command that the words are, read by position, or `None` where they are none.
pub(crate) fn parse(words: &[Bytes]) -> Option<Command<'_>>
    ensures { MatchOption result (AreBadWords words.now) (IsCommand words.now) }
{
    if let Some(command) = apply_words(words) {
        return Some(Command::Apply(command));
    }
    let file = rules_file(words)?;
    Some(Command::Rules(file))
}

/// The words of `apply`, or `None` where they aren't that command.
fn apply_words(words: &[Bytes]) -> Option<ApplyWords<'_>>
    ensures { MatchOption result
        ((command : Apply) → IsApply words.now command → ⊥)
        (λ command. IsApply words.now (command_seen command)) }
{
    let (word, words) = words.split_first()?;
    let (src, words) = words.split_first()?;
    let (lib, words) = words.split_first()?;
    let (out, words) = words.split_first()?;
    let (request, words) = words.split_first()?;
    if !words.is_empty() || !is_text(word, b"apply") {
        return None;
    }
    let command = ApplyWords {
        src: src.as_slice(),
        lib: lib.as_slice(),
        out: out.as_slice(),
        request: request.as_slice(),
    };
    if !is_possible(&command) {
        return None;
    }
    Some(command)
}

/// The file of `rules`, or `None` where the words aren't that command.
fn rules_file(words: &[Bytes]) -> Option<&[u8]>
    ensures { MatchOption result
        ((file : List ℕ) → IsRules words.now file → ⊥)
        (λ file. IsRules words.now file.now) }
{
    let (word, words) = words.split_first()?;
    let (file, words) = words.split_first()?;
    if !words.is_empty() || !is_text(word, b"rules") || file.is_empty() {
        return None;
    }
    Some(file.as_slice())
}

fn is_text(word: &Bytes, text: &[u8]) -> bool
    ensures { IsTrue result ↔ (word.now ≡ text.now) }
{
    word.as_slice() == text
}

/// No word is empty, and OUT is neither SRC nor LIB.
fn is_possible(command: &ApplyWords<'_>) -> bool
    ensures { IsTrue result ↔ IsPossible (command_seen command.now) }
{
    if command.src.is_empty() || command.lib.is_empty() {
        return false;
    }
    if command.out.is_empty() || command.request.is_empty() {
        return false;
    }
    if command.out == command.src {
        return false;
    }
    command.out != command.lib
}
