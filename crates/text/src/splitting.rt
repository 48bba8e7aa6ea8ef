// The lines of a text and the words of a line.
ghost use Rattle.std.specs.Prelude.{◌≡◌, ◌==◌, ◌<◌, [], ◌∷◌, length, position, IfSome, MatchOption, ◌++◌};
ghost use Rattle.std.specs.Str.{bytes_eq};
ghost use Rattle.text.specs.Split.{lines, words, words_of, kept, comment};
ghost use Rattle.text.specs.Laws.{Free};

// The place of the first `mark`.
fn find(bytes: &[u8], mark: u8) -> Option<usize>
    ensures { result ≡ position (λ b. b == mark) bytes.now }
{
    bytes.iter().position(|b| *b == mark)
}

// What stands before the first `mark`, and after it.
fn split_once(bytes: &[u8], mark: u8) -> Option<(&[u8], &[u8])>
    ensures { MatchOption result (Free mark bytes.now) (λ p. Free mark p.0.now × (bytes.now ≡ p.0.now ++ mark ∷ p.1.now)) }
{
    let i = find(bytes, mark)?;
    Some((&bytes[..i], &bytes[i + 1..]))
}

// The first line, and what comes after it; nothing where the text is empty.
pub fn split_line(text: &[u8]) -> Option<(&[u8], &[u8])>
    ensures { MatchOption result (text.now ≡ []) (λ p. (lines text.now ≡ p.0.now ∷ lines p.1.now) × (length p.1.now < length text.now)) }
{
    if text.is_empty() {
        return None;
    }
    split_once(text, b'\n').or(Some((text, &[])))
}

// The first line that does not start with c, and what comes after it.
pub fn next_line(text: &[u8]) -> Option<(&[u8], &[u8])>
    ensures { MatchOption result (kept (lines text.now) ≡ []) (λ p. (kept (lines text.now) ≡ p.0.now ∷ kept (lines p.1.now)) × (length p.1.now < length text.now)) }
{
    let mut left = text;
    // No `for` over Lines: what comes after the line is part of the answer.
    while let Some((line, rest)) = split_line(left) {
        if !is_comment(line) {
            return Some((line, rest));
        }
        left = rest;
    }
    None
}

// Does a line start with c?
fn is_comment(line: &[u8]) -> bool
    ensures { result ≡ comment line.now }
{
    matches!(line, [b'c', ..])
}

// The first word of a line, and what comes after its blank, if there is one.
pub fn split_word(line: &[u8]) -> (&[u8], Option<&[u8]>)
    ensures first { words line.now ≡ result.0.now ∷ words_of result.1 }
    ensures shorter { IfSome result.1 (λ t. length t.now < length line.now) }
{
    match split_once(line, b' ') {
        Some((word, rest)) => (word, Some(rest)),
        None => (line, None),
    }
}

// Are two texts the same?
pub fn same(a: &[u8], b: &[u8]) -> bool
    ensures { result ≡ bytes_eq a.now b.now }
{
    a == b
}
