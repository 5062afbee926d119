// The values of options.
ghost use Rattle.std.specs.Prelude.{option_map, map};
ghost use Rattle.front_words.specs.Splitting.{only_value, values_for};
ghost use Rattle.front_words.specs.Inside.{IsAnswerWith, given_in};

use crate::WordsFault;
use crate::splitting::Given;

// The value of an option that is given at most once; NotACommand exactly if it is given twice.
pub fn value_of_option<'a>(given: &[Given<'a>], option: &str) -> Result<Option<&'a str>, WordsFault>
    ensures { IsAnswerWith (option_map (λ v. v.now))
        (only_value (values_for option.now (map given_in given.now))) result }
{
    let mut value = None;
    for g in given {
        if g.option == option {
            if value.is_some() {
                return Err(WordsFault::NotACommand);
            }
            value = Some(g.value);
        }
    }
    Ok(value)
}
