ghost use Rattle.std.specs.Option.{MatchOption};
ghost use Rattle.trace_props.specs.declared.verdict.Rule.TheVariants.{StateOfEntry};
ghost use Rattle.trace_props.specs.Verdicts.{May, MayEach, rules_before};

use trace_props::{Event, Rule};
use trace_rules::{
    Past, keeps_handed_back, keeps_messages, keeps_next, keeps_placed, keeps_together, keeps_views,
};

/// The first rule, but for the one on states, that the event breaks after the past.
pub fn broken_rule(past: &Past, event: &Event) -> Option<Rule>
    ensures { MatchOption result
        (MayEach (rules_before StateOfEntry) past.now event.now)
        (λ rule. MayEach (rules_before rule) past.now event.now × (May rule past.now event.now → ⊥)) }
{
    if !keeps_placed(past, event) {
        return Some(Rule::WellPlaced);
    }
    if !keeps_views(past, event) {
        return Some(Rule::RisingViews);
    }
    let (are_sound, are_ordered) = keeps_messages(past, event);
    if !are_sound {
        return Some(Rule::SoundMessages);
    }
    if !are_ordered {
        return Some(Rule::OneOrder);
    }
    if !keeps_next(past, event) {
        return Some(Rule::SameNext);
    }
    if !keeps_together(past, event) {
        return Some(Rule::Together);
    }
    if !keeps_handed_back(past, event) {
        return Some(Rule::HandedBack);
    }
    None
}
