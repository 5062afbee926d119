// Reads the file of an itinerary line by line.
ghost use Rattle.std.specs.Prelude.{◌≡◌, ◌≤◌, None, OnOk, IfOk, IfErr, IfSome};
ghost use Rattle.route_base.specs.Legs.{HasNoEmptyWait};
ghost use Rattle.trip_explain.specs.ItineraryFile.{number_behind, leg_of, bad_line_of, legs_of};
ghost use Rattle.trip_explain.specs.ItineraryFile.{IsItineraryRefusal};

use crate::faults::ItineraryFault;
use dimacs_reader::next_line;
use route_base::limits::LONGEST_HORIZON;
use route_base::{ArcId, Leg, Legs, read_plain_number};
use std::alloc::Global;

// The number from 1 to `most` behind a word.
fn number_behind(word: &[u8], most: u64, line: &[u8]) -> Option<u64>
    ensures value { result ≡ number_behind word.now most line.now }
    ensures within { IfSome result (λ n. n ≤ most) }
{
    let digits = line.strip_prefix(word)?;
    let number = read_plain_number(digits)?;
    if 1 <= number && number <= most {
        Some(number)
    } else {
        None
    }
}

// The leg of a line.
fn read_leg(line: &[u8]) -> Option<Leg>
    ensures { result ≡ leg_of line.now }
{
    if let Some(arc) = number_behind(b"drive ", u32::MAX as u64, line) {
        return Some(Leg::Drive(ArcId(arc as u32)));
    }
    let minutes = number_behind(b"wait ", LONGEST_HORIZON, line)?;
    Some(Leg::Wait(minutes))
}

/// Reads the file of an itinerary: one leg for each line, in their order. A line is `drive` and the number of an arc from 1 to
/// 4,294,967,295, or `wait` and minutes from 1 to 86,400, with one space between and no leading zero. It ends with a line feed, or
/// a carriage return and a line feed; the last may have no end. An empty file has no legs, and two waits may be neighbours.
///
/// The file is refused exactly where a line, also an empty one, has another form, with the number of the first such line from 1.
/// `OutOfMemory` comes where the list of legs can't grow. Linear in the bytes.
pub fn read_itinerary(alloc: Global, bytes: &[u8]) -> Result<Legs, ItineraryFault>
    ensures faultless { OnOk result (bad_line_of bytes.now ≡ None) }
    ensures legs { IfOk result (λ legs. legs ≡ legs_of bytes.now) }
    ensures waits { IfOk result HasNoEmptyWait }
    ensures refused { IfErr result (IsItineraryRefusal (bad_line_of bytes.now)) }
{
    let mut legs = Legs::new(alloc);
    let mut rest = bytes;
    'lines: while let Some((line, more)) = next_line(rest) {
        let Some(leg) = read_leg(line) else {
            return Err(ItineraryFault::BadLine {
                line: legs.len() as u64 + 1,
            });
        };
        legs.push(leg)?;
        rest = more;
    }
    Ok(legs)
}
