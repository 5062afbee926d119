// The value of a rule.
ghost use Rattle.std.specs.Prelude.{◌≡◌, Ok, Err, IfOk, IfErr};
ghost use Rattle.table_reader.specs.Refusals.{IfBadCause};
ghost use Rattle.network_tables.specs.Rules.{rule_value_of};

use conditional_rules::{Access, Conditional, ConditionalFault, parse, read_value};
use route_base::Cause;
use route_base::limits::LONGEST_RULE;
use std::alloc::Global;
use table_reader::RowFault;

/// The value of a rule: an access, or a conditional value.
#[derive(Drop)]
pub enum RuleValue {
    Plain(Access),
    Conditional(Conditional),
}

/// Parses the value of a rule. Linear in its bytes.
///
/// `SizeLimit` comes for more than 65,536 bytes; else `BadField` where a plain value isn't known, and `NotConditional` where a text
/// is no conditional value.
pub fn read_rule_value(alloc: Global, conditional: bool, text: &[u8]) -> Result<RuleValue, RowFault>
    ensures value { IfOk result (λ value. rule_value_of conditional text.now ≡ Ok value) }
    ensures refused { IfErr result (λ e.
        IfBadCause e (λ cause. rule_value_of conditional text.now ≡ Err cause)) }
{
    if text.len() > LONGEST_RULE {
        return Err(RowFault::Bad(Cause::SizeLimit));
    }
    if !conditional {
        return match read_value(text) {
            Some(access) => Ok(RuleValue::Plain(access)),
            None => Err(RowFault::Bad(Cause::BadField)),
        };
    }
    match parse(alloc, text) {
        Ok(value) => Ok(RuleValue::Conditional(value)),
        Err(ConditionalFault::NotConditional) => Err(RowFault::Bad(Cause::NotConditional)),
        Err(ConditionalFault::OutOfMemory) => Err(RowFault::OutOfMemory),
    }
}
