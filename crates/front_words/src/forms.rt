// The forms of words.
ghost use Rattle.std.specs.Prelude.{◌≡◌, IfSome};
ghost use Rattle.calendar_days.specs.Texts.{instant_of};
ghost use Rattle.front_words.specs.Forms.{is_folder_name, is_certificate_name, count_of, node_of, report_of};
ghost use Rattle.front_words.specs.Inside.{IsUpTo};
ghost use Rattle.route_base.specs.Time.{IsInstant};
ghost use Rattle.route_base.specs.Forms.{is_name};

use calendar_days::read_instant;
use route_base::limits::LONGEST_FOLDER;
use route_base::{Form, Minute, is_name_field, read_plain_number};

// Whether a word names a folder.
pub fn is_folder_word(word: &str) -> bool
    ensures { result ≡ is_folder_name word.now }
{
    match word.as_bytes() {
        [] => false,
        [first, ..] => *first != b'-' && word.len() <= LONGEST_FOLDER,
    }
}

// Whether a word is a name, as those of vehicles and of tables of jobs are.
pub fn is_name_word(word: &str) -> bool
    ensures { result ≡ is_name word.now }
{
    is_name_field(word.as_bytes())
}

// Whether a word is the name of a certificate.
#[tactic(auto, unfolding(crate::specs::Forms::is_certificate_name))]
pub fn is_certificate_word(word: &str) -> bool
    ensures { result ≡ is_certificate_name word.now }
{
    is_name_field(word.as_bytes()) && word.as_bytes().ends_with(b".cert")
}

// The number of a node or of an arc.
pub fn number_word(word: &str) -> Option<u32>
    ensures { result ≡ node_of word.now }
{
    let number = read_plain_number(word.as_bytes())?;
    if number <= u32::MAX as u64 {
        Some(number as u32)
    } else {
        None
    }
}

// The number from 1 to the limit that a word says.
pub fn count_word(word: &str, limit: u64) -> Option<u64>
    ensures value { result ≡ count_of limit word.now }
    ensures within { IfSome result (IsUpTo limit) }
{
    read_plain_number(word.as_bytes()).filter(|number| 1 <= *number && *number <= limit)
}

// The number of 32 bits from 1 to the limit that a word says.
pub fn small_count_word(word: &str, limit: u32) -> Option<u32>
    ensures value { result ≡ count_of limit word.now }
    ensures within { IfSome result (IsUpTo limit) }
{
    Some(count_word(word, limit as u64)? as u32)
}

// The instant that a word says.
pub fn instant_word(word: &str) -> Option<Minute>
    ensures value { result ≡ instant_of word.now }
    ensures instant { IfSome result IsInstant }
{
    read_instant(word.as_bytes()).ok()
}

// The form of a report.
pub fn report_word(word: &str) -> Option<Form>
    ensures { result ≡ report_of word.now }
{
    match word {
        "plain" => Some(Form::Plain),
        "table" => Some(Form::Table),
        "csv" => Some(Form::Csv),
        "json" => Some(Form::Json),
        _ => None,
    }
}
