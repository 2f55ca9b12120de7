ghost use Rattle.std.specs.Prelude.{◌≡◌, ◌<◌, ◌+◌, ◌∷◌, [], ◌++◌, length, MatchOption, List, ℕ, ⊤};
ghost use Rattle.std.specs.Str.Lines.{strip_carriage_return};
ghost use Rattle.text_lines.specs.Lines.{cut_after, line_feeds};

use bstr::ByteSlice;

/// The first line that ends in a text, and what follows it.
#[derive(Clone, Copy)]
pub struct Cut<'a> {
    /// The line, without its line feed.
    pub line: &'a [u8],
    /// The text after that line feed.
    pub rest: &'a [u8],
}

/// Returns the first line that ends in a text, or `None` where none does. The line may have begun before the text.
pub fn first_line(text: &[u8]) -> Option<Cut<'_>>
    ensures lines { (begun more : List ℕ) → MatchOption result (cut_after begun (text.now ++ more) ≡ cut_after (begun ++ text.now) more) (λ cut. cut_after begun (text.now ++ more) ≡ (begun ++ cut.line.now) ∷ cut_after [] (cut.rest.now ++ more)) }
    ensures feeds { MatchOption result (line_feeds text.now ≡ 0) (λ cut. line_feeds text.now ≡ line_feeds cut.rest.now + 1) }
    ensures shorter { MatchOption result ⊤ (λ cut. length cut.rest.now < length text.now) }
{
    match text.find_byte(b'\n') {
        Some(end) => Some(Cut {
            line: &text[..end],
            rest: &text[end + 1..],
        }),
        None => None,
    }
}

/// A line without the one carriage return at its end, if it has one.
pub fn without_return(line: &[u8]) -> &[u8]
    ensures { result.now ≡ strip_carriage_return line.now }
{
    match line {
        [front @ .., b'\r'] => front,
        _ => line,
    }
}
