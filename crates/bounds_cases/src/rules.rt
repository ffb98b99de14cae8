// Rules by their names.
use cm_box::{RULES, Rule};

// The rule of that name, None where it is no rule's.
pub(crate) fn rule_named(name: &str) -> Option<Rule> {
    for k in 0..RULES {
        let x = Rule::of_number(k);
        if x.name() == name {
            return Some(x);
        }
    }
    None
}
