//! Laws of the rule, stated in specs/Laws.antt. Nothing runs.

ghost use Rattle.spec_match_compiler.specs.Laws.{DecidedIsTheRules, RuleIsSettled};

/// The rule gives at most one tree or one example for the rows that are left, and not both.
pub fn rule_is_settled()
    ensures { RuleIsSettled }
{}

/// The rule as a function gives what the rule as a relation says.
pub fn decided_is_the_rules()
    ensures { DecidedIsTheRules }
{}
