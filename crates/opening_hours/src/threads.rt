// Compile-time check that these types are Send and Sync.
use crate::{
    DateSpan, DateSpans, DayItem, DayItems, Holidays, Hours, HoursFault, HoursRule, LongSpan,
    RuleTimes, Spans, TimeSpan,
};
use route_base::crosses_threads;

// Compiles only if all these types cross threads.
fn all_cross_threads() {
    crosses_threads::<Hours>();
    crosses_threads::<Holidays>();
    crosses_threads::<HoursRule>();
    crosses_threads::<RuleTimes>();
    crosses_threads::<DateSpans>();
    crosses_threads::<DateSpan>();
    crosses_threads::<DayItems>();
    crosses_threads::<DayItem>();
    crosses_threads::<Spans>();
    crosses_threads::<TimeSpan>();
    crosses_threads::<LongSpan>();
    crosses_threads::<HoursFault>();
}
