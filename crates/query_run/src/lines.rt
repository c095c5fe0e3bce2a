// The lines of a script.
ghost use Rattle.std.specs.Prelude.{◌≡◌, ◌∷◌, ◌<◌, ◌≤◌, ◌==◌, position, length};
ghost use Rattle.std.specs.List.{position_or_len};
ghost use Rattle.graph_model.specs.Script.{is_blank, is_space, lines_of};

fn is_a_space(byte: u8) -> bool
    ensures { result ≡ is_space byte }
{
    byte == b' ' || byte == b'\t' || byte == b'\r'
}

// Where the first line of a text ends, if something ends it.
fn line_end(text: &[u8]) -> Option<usize>
    ensures { result ≡ position (λ byte. byte == 10) text.now }
{
    text.iter().position(|byte| *byte == b'\n')
}

// How long the first line of a text is.
fn line_len(text: &[u8]) -> usize
    ensures within { result ≤ length text.now }
    ensures len { result ≡ position_or_len (λ byte. byte == 10) text.now }
{
    match line_end(text) {
        Some(end) => end,
        None => text.len(),
    }
}

/// The first line of a text, and what is behind it.
pub fn first_line(text: &[u8]) -> (&[u8], &[u8])
    requires { 0 < length text.now }
    ensures shorter { length result.1.now < length text.now }
    ensures lines { lines_of text.now ≡ result.0.now ∷ lines_of result.1.now }
{
    let (line, behind) = text.split_at(line_len(text));
    match behind {
        [] => (line, behind),
        [_, rest @ ..] => (line, rest),
    }
}

/// Whether a line has only spaces, so that it is skipped.
pub fn has_only_spaces(line: &[u8]) -> bool
    ensures { result ≡ is_blank line.now }
{
    line.iter().all(|byte| is_a_space(*byte))
}
