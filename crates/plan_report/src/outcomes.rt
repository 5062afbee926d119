// Verdicts and refusals.
use route_base::{BadInput, RequestFault};

/// Why nothing is answered: the words are no command, a file has a fault, or the request fails a check.
#[derive(Clone, Copy, Debug, PartialEq, Eq)]
pub enum Refusal {
    Usage,
    Input(BadInput),
    Request(RequestFault),
}

/// A verdict on a certificate's file: it is accepted, or it is rejected, with 0 for a file that is no certificate's text, else
/// with the number of the first condition that fails.
#[derive(Clone, Copy, Debug, PartialEq, Eq)]
pub enum Verdict3 {
    Accepted,
    Rejected(u32),
}
