//! The verdict on the traces of several processes: in whichever order they are put together, it is the same (docs/CLI.md, "Texts of several processes").

ghost use Rattle.std.specs.Prelude.{◌≡◌, ◌↔◌, List};
ghost use Rattle.trace_props.specs.declared.event.Event.{Event};
ghost use Rattle.trace_props.specs.Synchrony.{IsVirtuallySynchronous};
ghost use Rattle.trace_merge.specs.Merges.{IsOrderedMerge, HaveNoOrder};
ghost use Rattle.trace_merge.specs.Apart.{AreApart, AreReordered, CanBeSynchronous};

use state_transfer::Receiver;

/// The law of merges, for traces of which no two have events of one address: if some order of all events keeps the rules, each merge that is in order keeps them.
/// So all such merges have one verdict, in whichever order the traces are given; and traces that have none keep the rules in no order.
pub fn verdicts_are_the_same<R: Receiver>()
    ensures merged { (processes : List (List Event)) (t : List Event) → AreApart processes → IsOrderedMerge processes t → CanBeSynchronous R.meaning processes → IsVirtuallySynchronous R.meaning t }
    ensures same { (processes : List (List Event)) (t u : List Event) → AreApart processes → IsOrderedMerge processes t → IsOrderedMerge processes u
        → IsVirtuallySynchronous R.meaning t ↔ IsVirtuallySynchronous R.meaning u }
    ensures reordered { (processes others : List (List Event)) (t u : List Event) → AreApart processes → AreReordered processes others → IsOrderedMerge processes t → IsOrderedMerge others u
        → IsVirtuallySynchronous R.meaning t ↔ IsVirtuallySynchronous R.meaning u }
    ensures unordered { (processes : List (List Event)) → HaveNoOrder processes → CanBeSynchronous R.meaning processes → ⊥ }
{}
