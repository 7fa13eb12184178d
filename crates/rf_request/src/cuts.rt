ghost use Rattle.std.specs.Prelude.{◌≡◌, ◌<◌, ◌≤◌, [], ◌∷◌, length, MatchOption};
ghost use Rattle.std.specs.List.{prefix_len};
ghost use Rattle.std.specs.Str.Lines.{lines};
ghost use Rattle.rf_request.specs.Words as spec;
ghost use Rattle.rf_request.specs.Words.{words_of};

/// The first line of a text, without its end, and what stands behind that.
#[derive(Clone, Copy, Debug)]
pub(crate) struct LineCut<'a> {
    pub line: &'a [u8],
    pub rest: &'a [u8],
}

/// The first word of a line, and what stands behind it.
#[derive(Clone, Copy, Debug)]
pub(crate) struct WordCut<'a> {
    pub word: &'a [u8],
    pub rest: &'a [u8],
}

/// How many bytes there are before the end of the line.
fn line_length(text: &[u8]) -> usize
    ensures value { result ≡ prefix_len spec.is_in_line text.now }
    ensures within { result ≤ length text.now }
{
    text.iter().take_while(|byte| **byte != b'\n').count()
}

fn is_blank(byte: u8) -> bool
    ensures { result ≡ spec.is_blank byte }
{
    byte == b' ' || byte == b'\t'
}

fn blank_length(text: &[u8]) -> usize
    ensures value { result ≡ prefix_len spec.is_blank text.now }
    ensures within { result ≤ length text.now }
{
    text.iter().take_while(|byte| is_blank(**byte)).count()
}

fn word_length(text: &[u8]) -> usize
    ensures value { result ≡ prefix_len spec.is_in_word text.now }
    ensures within { result ≤ length text.now }
{
    text.iter().take_while(|byte| !is_blank(**byte)).count()
}

/// A line without the CR that stands directly before its LF.
fn without_return(line: &[u8]) -> &[u8]
    ensures { result.now ≡ spec.without_return line.now }
{
    match line {
        [front @ .., b'\r'] => front,
        _ => line,
    }
}

/// The first line of a text that isn't empty.
pub(crate) fn first_line(text: &[u8]) -> LineCut<'_>
    requires { 0 < length text.now }
    ensures lines { lines text.now ≡ result.line.now ∷ lines result.rest.now }
    ensures shorter { length result.rest.now < length text.now }
{
    let (line, behind) = text.split_at(line_length(text));
    match behind {
        [] => LineCut { line, rest: behind },
        [_, rest @ ..] => LineCut {
            line: without_return(line),
            rest,
        },
    }
}

/// The first word of a line.
pub(crate) fn first_word(line: &[u8]) -> Option<WordCut<'_>>
    ensures words { MatchOption result
        (words_of line.now ≡ [])
        (λ cut. words_of line.now ≡ cut.word.now ∷ words_of cut.rest.now) }
    ensures shorter { MatchOption result (Unit {0})
        (λ cut. length cut.rest.now < length line.now) }
{
    let text = line.split_at(blank_length(line)).1;
    let (word, rest) = text.split_at(word_length(text));
    if word.is_empty() {
        None
    } else {
        Some(WordCut { word, rest })
    }
}
