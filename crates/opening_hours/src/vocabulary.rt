// The words of hours and their tokens.
ghost use Rattle.std.specs.Prelude.{◌≡◌, drop};
ghost use Rattle.opening_hours.specs.Tokens.{months, other_token, token_in, weekday_token, word_token};

use crate::tokens::Token;
use calendar_days::Weekday;

// The token of a word that is no month and no weekday.
#[tactic(auto, unfolding(crate::specs::Tokens::other_token))]
fn other_word(letters: &[u8]) -> Token
    ensures { result ≡ other_token letters.now }
{
    match letters {
        b"PH" => Token::Public,
        b"SH" => Token::School,
        b"off" => Token::Off,
        b"open" => Token::Open,
        _ if letters == b"closed".as_slice() => Token::Off,
        _ => Token::Unknown,
    }
}

// The token of a word that is no month.
#[tactic(auto, unfolding(crate::specs::Tokens::weekday_token))]
fn weekday_word(letters: &[u8]) -> Token
    ensures { result ≡ weekday_token letters.now }
{
    match letters {
        b"Mo" => Token::Day(Weekday::Mo),
        b"Tu" => Token::Day(Weekday::Tu),
        b"We" => Token::Day(Weekday::We),
        b"Th" => Token::Day(Weekday::Th),
        b"Fr" => Token::Day(Weekday::Fr),
        b"Sa" => Token::Day(Weekday::Sa),
        b"Su" => Token::Day(Weekday::Su),
        _ => other_word(letters),
    }
}

// The token of a word that is no month of the first half of a year.
fn later_word(letters: &[u8]) -> Token
    ensures { result ≡ token_in (drop 6 months) (weekday_token letters.now) letters.now }
{
    match letters {
        b"Jul" => Token::Month(7),
        b"Aug" => Token::Month(8),
        b"Sep" => Token::Month(9),
        b"Oct" => Token::Month(10),
        b"Nov" => Token::Month(11),
        b"Dec" => Token::Month(12),
        _ => weekday_word(letters),
    }
}

/// The token of a word of letters.
#[tactic(auto, unfolding(crate::specs::Tokens::word_token))]
pub(crate) fn word(letters: &[u8]) -> Token
    ensures { result ≡ word_token letters.now }
{
    match letters {
        b"Jan" => Token::Month(1),
        b"Feb" => Token::Month(2),
        b"Mar" => Token::Month(3),
        b"Apr" => Token::Month(4),
        b"May" => Token::Month(5),
        b"Jun" => Token::Month(6),
        _ => later_word(letters),
    }
}
