// Reads a graph file line by line.
ghost use Rattle.std.specs.Prelude.{◌≡◌, ◌≢◌, ◌<◌, ◌∷◌, ◌==◌, [], IfSome, IfNone, length, not};
ghost use Rattle.std.specs.List.{position};
ghost use Rattle.std.specs.Str.Lines.{strip_carriage_return};
ghost use Rattle.dimacs_reader.specs.Lines.{lines_of, line_of, tokens_of, is_comment};
ghost use Rattle.route_base.specs.Forms.{is_blank};
ghost use Rattle.dimacs_reader.specs.Lines.{line_of_four, problem_of, arc_of};

use route_base::{cut, is_blank, read_number};

/// A line of a graph file.
#[derive(Clone, Copy)]
pub enum Line {
    /// An empty line or a comment.
    Ignored,
    /// A problem line: the numbers of nodes and of arcs.
    Problem(u64, u64),
    /// An arc: tail, head, minutes.
    Arc(u64, u64, u64),
    /// A line of no known form.
    Bad,
}

/// Parses a line without its line end. Linear in its bytes.
pub fn read_line(line: &[u8]) -> Line
    ensures { result ≡ line_of line.now }
{
    let Some((first, rest)) = next_token(line) else {
        return Line::Ignored;
    };
    if is_comment(first) {
        return Line::Ignored;
    }
    match three_tokens(rest) {
        Some((second, third, fourth)) => line_of_fields(first, second, third, fourth),
        None => Line::Bad,
    }
}

// The tokens, where there are exactly three.
fn three_tokens(line: &[u8]) -> Option<(&[u8], &[u8], &[u8])>
    ensures three { IfSome result (λ t. tokens_of line.now ≡ t.0.now ∷ t.1.now ∷ t.2.now ∷ []) }
    ensures others { IfNone result (length (tokens_of line.now) ≢ 3) }
{
    let (first, rest) = next_token(line)?;
    let (second, rest) = next_token(rest)?;
    let (third, rest) = next_token(rest)?;
    if next_token(rest).is_some() {
        return None;
    }
    Some((first, second, third))
}

// The first token and what follows it; `None` exactly where there is no token.
fn next_token(line: &[u8]) -> Option<(&[u8], &[u8])>
    ensures cut { IfSome result (λ t. tokens_of line.now ≡ t.0.now ∷ tokens_of t.1.now) }
    ensures none { IfNone result (tokens_of line.now ≡ []) }
{
    let line = &line[place_of_text(line)?..];
    let end = place_of_blank(line).unwrap_or(line.len());
    Some(line.split_at(end))
}

// The place of the first byte that is no blank.
fn place_of_text(line: &[u8]) -> Option<usize>
    ensures { result ≡ position (λ b. not (is_blank b)) line.now }
{
    line.iter().position(|b| !is_blank(*b))
}

// The place of the first blank.
fn place_of_blank(line: &[u8]) -> Option<usize>
    ensures { result ≡ position is_blank line.now }
{
    line.iter().position(|b| is_blank(*b))
}

// Whether the token begins a comment.
fn is_comment(token: &[u8]) -> bool
    ensures { result ≡ is_comment token.now }
{
    match token {
        [first, ..] => *first == b'c',
        [] => false,
    }
}

// The line of four tokens.
fn line_of_fields(first: &[u8], second: &[u8], third: &[u8], fourth: &[u8]) -> Line
    ensures { result ≡ line_of_four first.now second.now third.now fourth.now }
{
    if first == b"p".as_slice() && second == b"sp".as_slice() {
        problem(third, fourth)
    } else if first == b"a".as_slice() {
        arc(second, third, fourth)
    } else {
        Line::Bad
    }
}

// The problem line of two tokens.
fn problem(nodes: &[u8], arcs: &[u8]) -> Line
    ensures { result ≡ problem_of nodes.now arcs.now }
{
    match (read_number(nodes), read_number(arcs)) {
        (Some(nodes), Some(arcs)) => Line::Problem(nodes, arcs),
        _ => Line::Bad,
    }
}

// The arc line of three tokens.
fn arc(tail: &[u8], head: &[u8], minutes: &[u8]) -> Line
    ensures { result ≡ arc_of tail.now head.now minutes.now }
{
    match (read_number(tail), read_number(head), read_number(minutes)) {
        (Some(tail), Some(head), Some(minutes)) => Line::Arc(tail, head, minutes),
        _ => Line::Bad,
    }
}

/// The first line, without its line end, and what follows it; `None` exactly where no bytes are left. Linear in the line.
pub fn next_line(bytes: &[u8]) -> Option<(&[u8], &[u8])>
    ensures cut { IfSome result (λ l. lines_of bytes.now ≡ l.0.now ∷ lines_of l.1.now) }
    ensures less { IfSome result (λ l. length l.1.now < length bytes.now) }
    ensures none { IfNone result (bytes.now ≡ []) }
{
    if bytes.is_empty() {
        return None;
    }
    match cut(bytes, b'\n') {
        Some((line, rest)) => Some((without_return(line), rest)),
        None => Some((bytes, &[])),
    }
}

// The line without a carriage return right before its line feed, which belongs to the line end.
fn without_return(line: &[u8]) -> &[u8]
    ensures { result.now ≡ strip_carriage_return line.now }
{
    match line {
        [front @ .., b'\r'] => front,
        _ => line,
    }
}
