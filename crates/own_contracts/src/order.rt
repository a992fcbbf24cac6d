// Which of two refusals comes first.
ghost use Rattle.std.specs.Prelude.{◌≡◌};
ghost use Rattle.cil_base.specs.Refusals.{is_less, key};
ghost use Rattle.cil_base.specs.Rules.{rule_number};
ghost use Rattle.own_contracts.specs.Order.{earlier, within};

use cil_base::{Refusal, Rule};

fn number_of(rule: Rule) -> u8
    ensures { result ≡ rule_number rule }
{
    rule as u8
}

/// Whether the offset comes first, or at one offset the rule.
fn is_before_within(r: Refusal, s: Refusal) -> bool
    ensures { result ≡ is_less (within r) (within s) }
{
    r.at < s.at || r.at == s.at && number_of(r.rule) < number_of(s.rule)
}

/// Whether a refusal comes before another.
fn is_before(r: Refusal, s: Refusal) -> bool
    ensures { result ≡ is_less (key r) (key s) }
{
    if r.assembly != s.assembly {
        return r.assembly < s.assembly;
    }
    if r.table != s.table {
        return r.table < s.table;
    }
    if r.row != s.row {
        return r.row < s.row;
    }
    is_before_within(r, s)
}

/// The earlier one of two refusals.
pub(crate) fn earlier(best: Option<Refusal>, found: Refusal) -> Option<Refusal>
    ensures { result ≡ earlier best found }
{
    match best {
        None => Some(found),
        Some(best) => {
            if is_before(found, best) {
                return Some(found);
            }
            Some(best)
        }
    }
}
