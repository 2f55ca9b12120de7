ghost use Rattle.std.specs.Prelude.{◌≡◌, ◌<◌, ◌≤◌, ◌∷◌, length, take, drop};
ghost use Rattle.ch_service.specs.Answer.{ended_lines, is_percent, graph_part, pairs_part};

use memchr::memchr;

/// Returns the texts before and behind the first line that is `%`: the graph's and the pairs'. Without such a line
/// they are the whole input and nothing.
pub fn parts(input: &[u8]) -> (&[u8], &[u8])
    ensures graph { result.0.now ≡ graph_part input.now }
    ensures pairs { result.1.now ≡ pairs_part input.now }
{
    let mut start = 0;
    while start < input.len() {
        let end = start + line_len(&input[start..]);
        if is_percent(&input[start..end]) {
            return (&input[..start], &input[end..]);
        }
        start = end;
    }
    (input, &input[input.len()..])
}

// How long the first line is, with its line feed where it has one.
fn line_len(input: &[u8]) -> usize
    requires { 0 < length input.now }
    ensures some { 0 < result }
    ensures within { result ≤ length input.now }
    ensures line { ended_lines input.now ≡ take result input.now ∷ ended_lines (drop result input.now) }
{
    match memchr(b'\n', input) {
        Some(before) => before + 1,
        None => input.len(),
    }
}

// Whether the line is the single byte `%`.
fn is_percent(line: &[u8]) -> bool
    ensures { result ≡ is_percent line.now }
{
    line == b"%".as_slice()
        || line == b"%\r".as_slice()
        || line == b"%\n".as_slice()
        || line == b"%\r\n".as_slice()
}
