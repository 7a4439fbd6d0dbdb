//! The rule, for the table that keeps it.
use crate::began::Start;
use crate::view::View;
use atomic_table::TableRule;
use melt_model::Ghost;

/// See `specs/Rule.antt`.
pub struct Law;

impl TableRule<u64, View, Ghost<Start>> for Law {
    ghost use Rattle.melt_rule.specs.Rule.{Rule, first_view};

    ghost holds = { Rule };

    ghost first = { first_view };
}
