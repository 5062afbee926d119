// The generator of draws.
ghost use Rattle.std.specs.Prelude.{◌≡◌, ◌%◌, ◌≤◌};
ghost use Rattle.net_generator.specs.Draws.{next_state};
ghost use Rattle.net_generator.specs.declared.limits.TheConstants.{LAST_NUMBER};

use crate::limits::LAST_NUMBER;
use std::marker::Model;

/// A linear congruential generator; contracts see its state.
#[derive(Drop)]
pub struct Draws {
    state: u64,
}

impl Model for Draws {
    ghost use Rattle.std.specs.Prelude.{ℕ, ◌≤◌};
    ghost use Rattle.net_generator.specs.declared.limits.TheConstants.{LAST_NUMBER};

    ghost Value = { ℕ };

    ghost view = { λ draws. draws.state };

    ghost invariant = { λ draws. draws.state ≤ LAST_NUMBER };
}

impl Draws {
    /// The draws that follow a number.
    pub fn after(number: u64) -> Draws
        requires { number ≤ LAST_NUMBER }
        ensures { result ≡ number }
    {
        Draws { state: number }
    }

    /// Draws a number below another.
    pub fn below(&mut self, end: u64) -> u64
        requires { 1 ≤ end }
        ensures state { self.new ≡ next_state self.old }
        ensures drawn { result ≡ next_state self.old % end }
    {
        self.state = self.state * 48_271 % (LAST_NUMBER + 1);
        self.state % end
    }
}
