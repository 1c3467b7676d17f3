// Why the rules of a server can be judged at the gate. A server makes parts of a target in its own way, which may differ from the parts that are
// compared here. Of a canonical target it makes, if its view is fair, parts that the rules can't tell from those: a plain part differs by case at
// most, and a part with a code fits no rule, here or there.
#![tactic(auto)]

ghost use Rattle.std.specs.Prelude.{◌≡◌};
ghost use Rattle.rules.specs.Rules.{parts_in, ruled_from, view_rules};
ghost use Rattle.rules_laws.specs.Laws.{GoodRules, JudgedAlike, PartsIn, RuleParts, RuledAlike, UntouchedIsFair};

use rules::{Rule, Ruling};

// What the rules say of a request with this method and this canonical target; and where the rules are good and the target is that of a good place,
// what they say of the parts that any fair server sees in it.
pub fn judge_for(rules: &[Rule], method: &[u8], target: &[u8]) -> Ruling
    ensures judged { result ≡ ruled_from 0 (view_rules rules.now) method.now (parts_in target.now) }
    ensures alike { JudgedAlike (view_rules rules.now) method.now target.now result }
{
    rules::judge(rules, method, target)
}

// Every fair view of a good place's target is ruled as what is compared, by the same rule.
pub fn ruled_alike()
    ensures { RuledAlike }
{}

// The parts that are compared are those of the place.
pub fn parts_in()
    ensures { PartsIn }
{}

// The view that does nothing is fair, so that the promises above are not empty.
pub fn untouched_is_fair()
    ensures { UntouchedIsFair }
{}

// A rule's parts are those that its path is written with.
pub fn rule_parts()
    ensures { RuleParts }
{}

// Rules whose paths are written as settings write them are good.
pub fn good_rules()
    ensures { GoodRules }
{}
