//! Whether a pattern can still match.

ghost use Rattle.std.specs.Prelude.{◌≡◌, map};
ghost use Rattle.spec_match_compiler.specs.Patterns.{pats};
ghost use Rattle.spec_match_compiler.specs.Knowledge.{parts as known_parts};
ghost use Rattle.spec_match_compiler.specs.Views.{pat, knowledge};
ghost use Rattle.spec_match_compiler.specs.Rule.{can_match, all_can_match};

use crate::knowledge::Knowledge;
use crate::pattern::Pattern;

/// Whether a value of which this is known may meet the pattern.
#[cycle(can_match)]
pub fn can_match(pattern: &Pattern, known: &Knowledge) -> bool
    ensures { result ≡ can_match (pat pattern.now) (knowledge known.now) }
{
    match (pattern, known) {
        (Pattern::Flag(asked), Knowledge::Flag(value)) => { if *asked { *value } else { !*value } }
        (Pattern::Word(asked), Knowledge::Word(value)) => *asked == *value,
        (Pattern::Word(asked), Knowledge::Others { width: _w, tested }) => !tested.contains(asked),
        (
            Pattern::Case { case, parts },
            Knowledge::Made {
                case: made,
                parts: fields,
            },
        ) => *case == *made && all_can_match(parts, fields),
        _ => true,
    }
}

/// Whether each of the patterns may still match, as far as there are both.
#[cycle(can_match)]
fn all_can_match(patterns: &[Pattern], fields: &[Knowledge]) -> bool
    ensures { result
        ≡ all_can_match (pats (map pat patterns.now)) (known_parts (map knowledge fields.now)) }
{
    for i in 0..patterns.len().min(fields.len()) {
        if !can_match(&patterns[i], &fields[i]) {
            return false;
        }
    }
    true
}
