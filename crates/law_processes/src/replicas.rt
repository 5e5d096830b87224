//! Replicas agree: what virtual synchrony makes of the copies of a receiver (docs/GUARANTEES.md, "Replicas agree").

ghost use Rattle.std.specs.Prelude.{List};
ghost use Rattle.trace_props.specs.declared.event.Event.{Event};
ghost use Rattle.trace_props.specs.Places.{EachPlace};
ghost use Rattle.trace_props.specs.Synchrony.{IsVirtuallySynchronous};
ghost use Rattle.law_processes.specs.Replicas.{ReplicasAgree};

use state_transfer::Receiver;

/// The law of replicas: at every place of a virtually synchronous trace the copies of a receiver agree.
pub fn replicas_agree<R: Receiver>()
    ensures { (t : List Event) → IsVirtuallySynchronous R.meaning t → EachPlace (ReplicasAgree R.meaning) t }
{}
