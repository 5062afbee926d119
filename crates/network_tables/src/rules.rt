// rules.csv: access rules of areas and arcs by key.
ghost use Rattle.std.specs.Prelude.{◌≡◌, [], None, OnOk, IfErr, IsFalse, IsSome, option_map};
ghost use Rattle.network_tables.specs.Words.{rules_schema, rule_value_at, plain_at, conditional_at, has_arc_rules, has_own_rules, HaveRules, with_rule, with_passed_row, IfBadCause};
ghost use Rattle.network_tables.specs.Words.{names_of, arc_count_of, areas_of, rules_fault, rules_of, Reads};

mod own_keys;
mod place;
mod row;
mod value;

use crate::files::read_file;
use crate::{Files, NetworkFault};
use area_tables::Areas;
use conditional_rules::{Access, Conditional};
use csv::ByteRecord;
use indexmap::IndexMap;
use own_keys::{OwnKeys, add_key, keys_of, make_room};
use place::RulePlace;
pub use place::Scope;
use route_base::limits::MOST_RULES;
use route_base::{Cause, FileKind};
use row::read_rule;
use std::alloc::Global;
use std::marker::Model;
use table_reader::{RowFault, Table};
use value::RuleValue;
use vehicle_classes::Key;

/// Rules by their places, whether some are an arc's own, by the numbers of arcs the keys for which they have some, and the number of
/// rows that were passed over.
pub struct Rules {
    values: IndexMap<RulePlace, RuleValue>,
    of_arcs: bool,
    own_keys: Vec<OwnKeys>,
    passed_over: u64,
}

impl Model for Rules {
    ghost use Rattle.network_tables.specs.RuleLists.{RuleList};
    ghost use Rattle.network_tables.specs.OwnKeys.{KnowsArcs};

    ghost Value = { RuleList };

    ghost view = { λ r. record { rules = r.values.entries; passed_over = r.passed_over } };

    ghost invariant = { λ r. KnowsArcs r.of_arcs r.own_keys.items r.values.entries };
}

// By hand, so that the drops of its parts are proved here alone.
impl Drop for Rules {
    fn drop(self) {
        let Rules {
            values: _,
            of_arcs: _,
            own_keys: _,
            passed_over: _,
        } = self;
    }
}

impl Rules {
    /// No rules.
    pub fn new(alloc: Global) -> Self
        ensures { result ≡ record { rules = []; passed_over = 0 } }
    {
        Rules {
            values: IndexMap::new(alloc),
            of_arcs: false,
            own_keys: Vec::new(alloc),
            passed_over: 0,
        }
    }

    // Whether there may be a value at a place, in constant time. At an arc's place there is one only if the arc has rules of the key.
    #[inline(always)]
    fn may_have(&self, place: RulePlace) -> bool
        ensures { IsFalse result → rule_value_at self.now.rules place ≡ None }
    {
        match place.scope {
            Scope::Area(_place) => true,
            Scope::Arc(number) => keys_of(&self.own_keys, number).has(place.key),
        }
    }

    // The value at a place, in constant time on average.
    fn value(&self, place: RulePlace) -> Option<&RuleValue>
        ensures { option_map (λ v. v.now) result ≡ rule_value_at self.now.rules place }
    {
        if !self.may_have(place) {
            return None;
        }
        self.values.get(&place)
    }

    /// The access that the plain rule of a scope and a key gives, in constant time on average.
    pub fn plain(&self, scope: Scope, key: Key) -> Option<Access>
        ensures { result ≡ plain_at self.now.rules scope key }
    {
        match self.value(RulePlace {
            scope,
            key,
            conditional: false,
        }) {
            Some(RuleValue::Plain(access)) => Some(*access),
            _ => None,
        }
    }

    /// The conditional value of a scope and a key, in constant time on average.
    pub fn conditional(&self, scope: Scope, key: Key) -> Option<&Conditional>
        ensures { option_map (λ c. c.now) result ≡ conditional_at self.now.rules scope key }
    {
        match self.value(RulePlace {
            scope,
            key,
            conditional: true,
        }) {
            Some(RuleValue::Conditional(value)) => Some(value),
            _ => None,
        }
    }

    /// Whether some arc has a rule of its own, at no cost.
    pub fn has_arc_rules(&self) -> bool
        ensures { result ≡ has_arc_rules self.now.rules }
    {
        self.of_arcs
    }

    /// Whether the arc of this number has a rule of its own, in constant time.
    #[inline(always)]
    pub fn has_own_rules(&self, a: u32) -> bool
        ensures { result ≡ has_own_rules self.now.rules a }
    {
        keys_of(&self.own_keys, a).has_any()
    }

    /// The number of rows whose key is passed over, at no cost.
    pub fn passed_over(&self) -> u64
        ensures { result ≡ self.now.passed_over }
    {
        self.passed_over
    }

    // Adds a rule; `Duplicate` where its place has one.
    fn add(&mut self, place: RulePlace, value: RuleValue) -> Result<(), RowFault>
        ensures free { OnOk result (rule_value_at self.old.rules place ≡ None) }
        ensures added { OnOk result (self.new ≡ with_rule self.old place value) }
        ensures refused { IfErr result (λ e. IfBadCause e (λ cause.
            (cause ≡ Cause.Duplicate) × IsSome (rule_value_at self.old.rules place))) }
    {
        if self.value(place).is_some() {
            return Err(RowFault::Bad(Cause::Duplicate));
        }
        make_room(&mut self.own_keys, place.scope)?;
        self.values.insert(place, value)?;
        self.of_arcs |= place.scope.is_arc();
        add_key(&mut self.own_keys, place);
        Ok(())
    }

    // Counts a row that is passed over. The count stops below 2^64, which no table reaches.
    fn pass_over(&mut self) -> Result<(), RowFault>
        ensures counted { OnOk result (self.new ≡ with_passed_row self.old) }
        ensures refused { IfErr result (λ e. e ≡ RowFault.OutOfMemory) }
    {
        match self.passed_over.checked_add(1) {
            Some(count) => {
                self.passed_over = count;
                Ok(())
            }
            None => Err(RowFault::OutOfMemory),
        }
    }
}

/// Rules while the table is being read, with the areas and the number of arcs for which they stand.
#[derive(Drop)]
struct RuleTable<'a> {
    areas: &'a Areas,
    arcs: u32,
    rules: Rules,
}

impl<'a> Model for RuleTable<'a> {
    ghost use Rattle.network_tables.specs.RuleLists.{RulesSoFar};

    ghost Value = { RulesSoFar };

    ghost view = { λ t. record { areas = t.areas.now; arcs = t.arcs; read = t.rules } };
}

impl<'a> Table for RuleTable<'a> {
    ghost schema = { λ t. rules_schema t.arcs (names_of t.areas) };

    ghost becomes = { λ start t header rows. HaveRules start t rows };

    fn headers(&self) -> &'static [&'static [&'static str]] {
        &[&["scope", "key", "value"]]
    }

    fn limit(&self) -> u32 {
        MOST_RULES
    }

    fn add(&mut self, alloc: Global, _header: &[&str], row: &ByteRecord) -> Result<(), RowFault> {
        match read_rule(alloc, self.arcs, self.areas, row)? {
            Some((place, value)) => self.rules.add(place, value),
            None => self.rules.pass_over(),
        }
    }
}

/// The rules of the file for these areas. Linear in the bytes, on average.
pub fn read_rules(
    alloc: Global,
    files: &Files,
    arcs: u32,
    areas: &Areas,
) -> Result<Rules, NetworkFault>
    requires arcs { arcs ≡ arc_count_of files.now }
    requires areas { names_of areas.now ≡ names_of (areas_of files.now) }
    ensures { Reads result (rules_fault files.now) (λ rules. rules ≡ rules_of files.now) }
{
    let table = RuleTable {
        areas,
        arcs,
        rules: Rules::new(alloc),
    };
    Ok(read_file(alloc, FileKind::Rules, &files.rules, table)?.rules)
}
