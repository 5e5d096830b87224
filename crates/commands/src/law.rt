//! What holds of what is drawn beside a run's events, as laws of its definitions.

ghost use Rattle.std.specs.Prelude.{◌≡◌, ℕ, Bool, true, List, length};
ghost use Rattle.std.specs.List.{filter_map, range_with_len};
ghost use Rattle.world_model.specs.declared.WorldEvent.{WorldEvent};
ghost use Rattle.world.specs.Worlds.{WorldModel};
ghost use Rattle.trace_drawing.specs.declared.aside.Aside.{Aside};
ghost use Rattle.trace_drawing.specs.Promises.{AreInOrder};
ghost use Rattle.commands.specs.Asides.{put_out_number, HasAsides};

use state_transfer::Receiver;

/// The law of asides: what stands beside a run's events stands in the order of its places, so that each is drawn between the events before and
/// after it (`trace_drawing::asides_between_events`).
pub fn asides_in_order<R: Receiver>()
    ensures { (packets : Bool) (lines : List ℕ) (events : List WorldEvent) (w : WorldModel R) (asides : List Aside) → HasAsides R.meaning packets lines events w asides → AreInOrder 0 asides }
{}

/// The law of packets: with packets, each packet of a run is put out once beside its events, in the order of their numbers, and no other.
pub fn each_packet_once<R: Receiver>()
    ensures { (lines : List ℕ) (events : List WorldEvent) (w : WorldModel R) (asides : List Aside) → HasAsides R.meaning true lines events w asides
        → filter_map put_out_number asides ≡ range_with_len 1 (length w.history.pool) }
{}
