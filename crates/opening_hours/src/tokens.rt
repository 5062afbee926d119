// The tokens of a text of hours.
use calendar_days::Weekday;

/// A token of a text of hours.
#[derive(Clone, Copy)]
pub enum Token {
    Month(u32),
    Day(Weekday),
    Public,
    School,
    Off,
    Open,
    Always,
    /// A word that means nothing.
    Unknown,
    Time(u64, u64),
    Number(u32, Digits),
    Dash,
    Comma,
    Semicolon,
    Colon,
    LeftBracket,
    RightBracket,
}

/// The number of digits that a number is written with.
#[derive(Clone, Copy)]
pub enum Digits {
    One,
    Two,
}

/// The parts of a text of hours, by the tokens that they are made of.
#[derive(Clone, Copy)]
pub enum Part {
    Rule,
    Item,
    Dates,
    Days,
    Spans,
}
