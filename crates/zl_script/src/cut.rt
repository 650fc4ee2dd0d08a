ghost use Rattle.std.specs.Prelude.{◌≡◌, ◌==◌, ◌≤◌, ◌<◌, [], ◌∷◌, not, length, MatchOption, IfSome};
ghost use Rattle.std.specs.List.{prefix_len};
ghost use Rattle.zl_script.specs.Cut.{lines_of, words_of, is_blank, without_return};

/// The first line of a text, and what stands behind its line feed.
pub(crate) fn split_line(text: &[u8]) -> Option<(&[u8], &[u8])>
    ensures lines { MatchOption result (lines_of text.now ≡ []) (λ p. lines_of text.now ≡ p.0.now ∷ lines_of p.1.now) }
    ensures shorter { IfSome result (λ p. length p.1.now < length text.now) }
{
    if text.is_empty() {
        return None;
    }
    let end = line_len(text);
    if end == text.len() {
        return Some((text, &[]));
    }
    Some((&text[..end], &text[end + 1..]))
}

fn line_len(text: &[u8]) -> usize
    ensures value { result ≡ prefix_len (λ c. not (c == 10)) text.now }
    ensures within { result ≤ length text.now }
{
    text.iter().take_while(|c| **c != b'\n').count()
}

/// A line without the carriage return at its end, if one stands there.
pub(crate) fn without_return(line: &[u8]) -> &[u8]
    ensures { result.now ≡ without_return line.now }
{
    match line.last() {
        Some(b'\r') => &line[..line.len() - 1],
        _ => line,
    }
}

fn is_blank(c: u8) -> bool
    ensures { result ≡ is_blank c }
{
    c == b' ' || c == b'\t'
}

/// The first word of a line, and what stands behind it.
pub(crate) fn next_word(line: &[u8]) -> Option<(&[u8], &[u8])>
    ensures words { MatchOption result (words_of line.now ≡ []) (λ p. words_of line.now ≡ p.0.now ∷ words_of p.1.now) }
    ensures shorter { IfSome result (λ p. length p.1.now < length line.now) }
{
    let (_, text) = line.split_at(blank_len(line));
    if text.is_empty() {
        return None;
    }
    Some(text.split_at(word_len(text)))
}

fn blank_len(line: &[u8]) -> usize
    ensures value { result ≡ prefix_len is_blank line.now }
    ensures within { result ≤ length line.now }
{
    line.iter().take_while(|c| is_blank(**c)).count()
}

fn word_len(line: &[u8]) -> usize
    ensures value { result ≡ prefix_len (λ c. not (is_blank c)) line.now }
    ensures within { result ≤ length line.now }
{
    line.iter().take_while(|c| !is_blank(**c)).count()
}
