ghost use Rattle.std.specs.Prelude.{◌≡◌, ℕ, ◌+◌, ◌++◌, List, Some, true, slice_get, take};
ghost use Rattle.std.specs.List.{Contains};
ghost use Rattle.address.specs.Ids.{same_address};
ghost use Rattle.trace_props.specs.declared.event.Event.{Event};
ghost use Rattle.trace_props.specs.declared.event.Event.TheVariants.{Delivered};
ghost use Rattle.trace_props.specs.declared.event.Delivery.{Delivery};
ghost use Rattle.replicated_map.specs.Meanings.{map_meaning};
ghost use Rattle.application.specs.Followed.{Follows};
ghost use Rattle.replicated_map.specs.declared.waiting.Answer.{Answer};
ghost use Rattle.replicated_map.specs.Serving.{Serving, answer_of, fate_of};
ghost use Rattle.application.specs.Waits.{ticket_of};
ghost use Rattle.replicated_map.specs.Answers.{IsTrueAnswer, answered_often, answers_to, heard_all, waits_often};

/// The law of the copy: after any events the service knows the view, the place and the state that they say (docs/EMBEDDING.md, "What became of a write").
pub fn follows()
    ensures { (s : Serving) (t : List Event) → Follows map_meaning s.followed (heard_all s t).followed t }
{}

/// The law of answers, after any events. What was answered stays, and each new answer says what happened: its message was delivered, at the place that is named, and
/// this became of its command at the state there; or its view ended first. Each own message that is delivered, and for which a ticket waits, is answered so.
pub fn answers()
    ensures stay { (s : Serving) (t : List Event) → (heard_all s t).answers ≡ s.answers ++ answers_to s t }
    ensures are_true { (s : Serving) (t : List Event) (a : Answer) → Contains (answers_to s t) a → IsTrueAnswer s t a }
    ensures each { (s : Serving) (t : List Event) (k ticket : ℕ) (d : Delivery) → slice_get t k ≡ Some (Delivered d) → same_address d.member s.followed.own ≡ true → same_address d.message.sender s.followed.own ≡ true
        → ticket_of d.message.number (heard_all s (take k t)).followed.waiting ≡ Some ticket → Contains (answers_to s t) (answer_of ticket (fate_of d (heard_all s (take k t)))) }
{}

/// The law of tickets: after any events a ticket waits and is answered as often, together, as before. So none is forgotten, and none is answered twice.
pub fn forgets_nobody()
    ensures { (s : Serving) (t : List Event) (ticket : ℕ) → waits_often ticket (heard_all s t) + answered_often ticket (heard_all s t) ≡ waits_often ticket s + answered_often ticket s }
{}
