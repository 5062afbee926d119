// The closed minutes of a window, as conditional values and plain ones are laid over them for a vehicle.
ghost use Rattle.std.specs.Prelude.{option_map, option_and_then, IfOk};
ghost use Rattle.ban_expansion.specs.Words.{IsWindow, HasThose, Lays};
ghost use Rattle.ban_expansion.specs.Circumstances.{part_holds_at, clause_holds_at, clause_gives, decided_at};

use crate::layers::overlaid;
use conditional_rules::{Access, Clause, Conditional, Part, comparison_holds, lets_in};
use covered_minutes::covered_minutes;
use minute_sets::MinuteSet;
use opening_hours::Holidays;
use route_base::{OutOfMemory, Run};
use std::alloc::Global;
use vehicle_classes::Vehicle;
use zone_rules::Zone;

// The whole window, or no minute.
fn whole_if(alloc: Global, holds: bool, window: Run) -> Result<MinuteSet, OutOfMemory>
    ensures { IfOk result (HasThose window (λ t. holds)) }
{
    if holds {
        MinuteSet::whole(alloc, window)
    } else {
        Ok(MinuteSet::empty(alloc))
    }
}

/// What conditions depend on: a vehicle, the clocks and the holidays of an area, and a window of minutes.
#[derive(Clone, Copy)]
pub struct Circumstances<'a> {
    pub vehicle: &'a Vehicle,
    pub zone: &'a Zone,
    pub holidays: &'a Holidays,
    pub window: Run,
}

impl<'a> Circumstances<'a> {
    // The minutes of the window at which a part of a condition holds.
    fn part_minutes(&self, alloc: Global, part: &Part) -> Result<MinuteSet, OutOfMemory>
        requires { IsWindow self.now.window }
        ensures { IfOk result (HasThose self.now.window (part_holds_at self.now part.now)) }
    {
        match part {
            Part::Compare(quantity, comparison, value) => {
                let size = self.vehicle.size(*quantity);
                let holds = comparison_holds(*comparison, size, *value);
                whole_if(alloc, holds, self.window)
            }
            Part::Flag(word) => {
                let holds = self.vehicle.has_flag(word.as_slice());
                whole_if(alloc, holds, self.window)
            }
            Part::Times(hours) => {
                covered_minutes(alloc, hours, self.zone, self.holidays, self.window)
            }
        }
    }

    // The minutes of the window at which all parts of a clause hold. Parts behind one that leaves no minute aren't laid out.
    fn clause_minutes(&self, alloc: Global, clause: &Clause) -> Result<MinuteSet, OutOfMemory>
        requires { IsWindow self.now.window }
        ensures { IfOk result (HasThose self.now.window (clause_holds_at self.now clause.now)) }
    {
        let mut common = MinuteSet::whole(alloc, self.window)?;
        let mut left = clause.parts.as_slice();
        'parts: while let [part, rest @ ..] = left {
            if common.runs().is_empty() {
                return Ok(common);
            }
            let set = self.part_minutes(alloc, part)?;
            common = common.intersection(alloc, &set)?;
            left = rest;
        }
        Ok(common)
    }

    // The closed minutes once a clause is laid over them.
    fn lay_clause(
        &self,
        alloc: Global,
        closed: &MinuteSet,
        clause: &Clause,
    ) -> Result<MinuteSet, OutOfMemory>
        requires { IsWindow self.now.window }
        ensures { IfOk result (Lays self.now.vehicle.now.purpose self.now.window
            (λ t. clause_gives self.now t clause.now) closed.now) }
    {
        let minutes = self.clause_minutes(alloc, clause)?;
        let bars = !lets_in(clause.access, self.vehicle);
        overlaid(alloc, closed, &minutes, bars)
    }

    // The closed minutes once a conditional value is laid over them, one clause after another.
    fn lay_clauses(
        &self,
        alloc: Global,
        before: MinuteSet,
        conditional: &Conditional,
    ) -> Result<MinuteSet, OutOfMemory>
        requires { IsWindow self.now.window }
        ensures { IfOk result (Lays self.now.vehicle.now.purpose self.now.window
            (λ t. decided_at self.now t conditional.now) before) }
    {
        let mut closed = before;
        let mut left = conditional.clauses();
        'clauses: while let [clause, rest @ ..] = left {
            closed = self.lay_clause(alloc, &closed, clause)?;
            left = rest;
        }
        Ok(closed)
    }

    /// The closed minutes once a conditional value, if there is one, is laid over them.
    pub fn lay_conditional(
        &self,
        alloc: Global,
        closed: MinuteSet,
        conditional: Option<&Conditional>,
    ) -> Result<MinuteSet, OutOfMemory>
        requires { IsWindow self.now.window }
        ensures { IfOk result (Lays self.now.vehicle.now.purpose self.now.window
            (λ t. option_and_then (decided_at self.now t)
            (option_map (λ c. c.now) conditional.entry)) closed) }
    {
        match conditional {
            None => Ok(closed),
            Some(conditional) => self.lay_clauses(alloc, closed, conditional),
        }
    }

    /// The closed minutes once a plain value, if there is one, is laid over them.
    pub fn lay_plain(
        &self,
        alloc: Global,
        closed: MinuteSet,
        access: Option<Access>,
    ) -> Result<MinuteSet, OutOfMemory>
        ensures { IfOk result (Lays self.now.vehicle.now.purpose self.now.window
            (λ t. access) closed) }
    {
        match access {
            None => Ok(closed),
            Some(access) => {
                let minutes = MinuteSet::whole(alloc, self.window)?;
                overlaid(alloc, &closed, &minutes, !lets_in(access, self.vehicle))
            }
        }
    }
}
