// Reads the words of the command line.
ghost use Rattle.std.specs.Prelude.{◌≡◌, None, Some, IfErr, IfOk};
ghost use Rattle.front_words.specs.Commands.{AsksSupported, command_in, command_of};

use crate::flat::side_by_side;
use crate::splitting::split_words;
use crate::table::{command_named, read_row};
use crate::{Command, Invocation, WordsFault};
use route_base::Text;
use std::alloc::Global;

/// The command that the words are: the command's name first, without the name of the program. NotACommand exactly if they are none,
/// unless memory runs out. Linear in the length of the words.
///
/// The commands are `plan DIR VEHICLE FROM TO DEPART UNTIL [--form F] [--certificate NAME]`, `check DIR VEHICLE FROM TO DEPART UNTIL
/// NAME`, `bans DIR VEHICLE ARC DEPART UNTIL`, `batch DIR JOBS [--workers N]`, `gen DIR NUMBER ROWS COLUMNS`, `latest DIR VEHICLE FROM
/// TO DEPART UNTIL`, `tour DIR VEHICLE FROM TO DEPART UNTIL STOPS [--drive B] [--rest L]`, `breaks DIR VEHICLE FROM TO DEPART UNTIL
/// [--drive B] [--rest L]` and `explain DIR VEHICLE FROM TO DEPART UNTIL ITINERARY`. An option stands anywhere after the command's name,
/// once at most, as two words or as one, `--form F` or `--form=F`; any other word that begins with `-` is refused.
///
/// DIR has 1 to 4,096 bytes and doesn't begin with `-`; VEHICLE, JOBS, STOPS and ITINERARY are names, and `any` is one; FROM, TO and ARC are
/// numbers of 32 bits without a leading zero; DEPART and UNTIL are instants, as texts or as Unix minutes; F is `plain`, `table`, `csv` or
/// `json`, and `plain` if it isn't given; NAME is a name that ends in `.cert`. N is 1 to 64, and 4 if it isn't given; NUMBER is 1 to
/// 2,147,483,646; ROWS and COLUMNS are 1 to 400 each, and their product is at most 22,500; B and L are minutes from 1 to 1,440, and 270 and
/// 45 if they aren't given, for `tour` if the other is given; none of these has a leading zero.
pub fn read_invocation(alloc: Global, words: &[Text]) -> Result<Invocation, WordsFault>
    ensures command { IfOk result (λ c. command_of words.now ≡ Some c) }
    ensures none { IfErr result (λ e. e ≡ WordsFault.NotACommand → command_of words.now ≡ None) }
    ensures supported { IfOk result AsksSupported }
{
    let Some((name, rest)) = words.split_first() else {
        return Err(WordsFault::NotACommand);
    };
    let Some(command) = command_named(name.as_str()) else {
        return Err(WordsFault::NotACommand);
    };
    let split = split_words(alloc, command.row().options, rest)?;
    read_row(
        alloc,
        command,
        split.places.as_slice(),
        split.given.as_slice(),
    )
}

/// The same command, with all its words side by side. It costs what `read_invocation` costs.
/// For other callers: the program reads its words by `read_invocation`.
pub fn read_words(alloc: Global, words: &[Text]) -> Result<Command, WordsFault>
    ensures command { IfOk result (λ c. command_of words.now ≡ Some (command_in c)) }
    ensures none { IfErr result (λ e. e ≡ WordsFault.NotACommand → command_of words.now ≡ None) }
    ensures supported { IfOk result (λ c. AsksSupported (command_in c)) }
{
    let invocation = read_invocation(alloc, words)?;
    Ok(side_by_side(invocation))
}
