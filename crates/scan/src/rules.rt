// The line of the rule, where it stands, and the number of writes after it.
ghost use Rattle.std.specs.Prelude.{◌≡◌, [], ◌∷◌, length};
ghost use Rattle.grammar.specs.Read.{rule_of, read_rule, read_ruled_count};
ghost use Rattle.grammar.specs.Given.{rule_given};
ghost use Rattle.scan.specs.Steps.{Within, read_as, ruled};

use crate::lines::{RuleDigit, keyed_line};
use crate::numbers::count_line;
use crate::{Found, RULE_KEY, Reading, behind};
use settings::Rule;

// The rule of the digit b.
// Kept as a function: because a `From` would stand in `settings`, beside `Rule`, which knows nothing of a sheet's digits.
fn rule_of(b: u8) -> Rule
    ensures { result ≡ rule_of (b ∷ []) }
{
    match b {
        b'1' => Rule::One,
        _ => Rule::Two,
    }
}

// The line `rule=`, if it stands there: no other line that may stand there begins with r.
fn rule_line(rest: &[u8]) -> Reading<Rule>
    ensures value { result ≡ read_as rule_given (read_rule rest.now) }
    ensures size_in_bounds { Within (length rest.now) result }
{
    match rest {
        [b'r', ..] => {
            let line = keyed_line::<RuleDigit>(rest, &RULE_KEY, 1, 1)?;
            Ok(Found {
                value: rule_of(rest[RULE_KEY.len()]),
                size: line.size,
            })
        }
        _ => Ok(Found {
            value: Rule::One,
            size: 0,
        }),
    }
}

// The line `rule=`, if it stands there, and then the line `writes=`: the rule, and the number of writes.
pub(crate) fn ruled_count(rest: &[u8]) -> Reading<(Rule, usize)>
    ensures value { result ≡ read_as ruled (read_ruled_count rest.now) }
    ensures size_in_bounds { Within (length rest.now) result }
{
    let line = rule_line(rest)?;
    let count = behind(line.size, count_line(&rest[line.size..]))?;
    Ok(Found {
        value: (line.value, count.value),
        size: count.size,
    })
}
