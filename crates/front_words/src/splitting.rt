// Divides the words after a command's name into positional words and options.
ghost use Rattle.std.specs.Prelude.{◌≡◌, IfOk, map};
ghost use Rattle.front_words.specs.Splitting.{is_dashed, is_option, piece_of, split_of};
ghost use Rattle.front_words.specs.Inside.{IsAnswerWith, IsPlainSplit, piece_of_word, split_in};

use crate::WordsFault;
use route_base::Text;
use std::alloc::Global;

/// An option with its value.
#[derive(Clone, Copy)]
pub struct Given<'a> {
    pub option: &'a str,
    pub value: &'a str,
}

/// The positional words in their order, and the options in theirs.
#[derive(Drop)]
pub struct Split<'a> {
    pub places: Vec<&'a str>,
    pub given: Vec<Given<'a>>,
}

// The part of a word in a command.
#[derive(Clone, Copy)]
enum Piece<'a> {
    // A word that doesn't begin with `-`.
    Plain(&'a str),
    // An option, whose value is the next word.
    Named(&'a str),
    // An option, `=` and its value.
    Assigned(&'a str, &'a str),
    // Any other word that begins with `-`.
    Stray,
}

// Whether a word begins with `-`.
fn is_dashed(word: &str) -> bool
    ensures { result ≡ is_dashed word.now }
{
    match word.as_bytes() {
        [] => false,
        [first, ..] => *first == b'-',
    }
}

// Whether a word is one of the options.
fn is_option(options: &[&str], word: &str) -> bool
    ensures { result ≡ is_option (map (λ o. o.now) options.now) word.now }
{
    options.contains(&word)
}

// The part of a word in a command with these options.
fn read_piece<'a>(options: &[&str], word: &'a str) -> Piece<'a>
    ensures { piece_of_word result ≡ piece_of (map (λ o. o.now) options.now) word.now }
{
    if !is_dashed(word) {
        return Piece::Plain(word);
    }
    if is_option(options, word) {
        return Piece::Named(word);
    }
    match word.split_once('=') {
        Some((option, value)) if is_option(options, option) && !is_dashed(value) => {
            Piece::Assigned(option, value)
        }
        _ => Piece::Stray,
    }
}

// Divides words for a command with these options. No positional word and no value begins with `-`.
pub fn split_words<'a>(
    alloc: Global,
    options: &[&str],
    words: &'a [Text],
) -> Result<Split<'a>, WordsFault>
    ensures split { IsAnswerWith split_in
        (split_of (map (λ o. o.now) options.now) words.now) result }
    ensures plain { IfOk result (λ s. IsPlainSplit (split_in s)) }
{
    let mut places = Vec::new(alloc);
    let mut given = Vec::new(alloc);
    let mut rest = words;
    'words: while let Some((word, behind)) = rest.split_first() {
        rest = behind;
        match read_piece(options, word.as_str()) {
            Piece::Plain(word) => places.push(word)?,
            Piece::Assigned(option, value) => given.push(Given { option, value })?,
            Piece::Named(option) => {
                let Some((value, behind)) = rest.split_first() else {
                    return Err(WordsFault::NotACommand);
                };
                let value = value.as_str();
                if is_dashed(value) {
                    return Err(WordsFault::NotACommand);
                }
                given.push(Given { option, value })?;
                rest = behind;
            }
            Piece::Stray => return Err(WordsFault::NotACommand),
        }
    }
    Ok(Split { places, given })
}
