ghost use Rattle.world.specs.Settles.{ViewsSettle, SettlesBriefly, SettlingsEnd};
ghost use Rattle.world.specs.Completing.{ViewsComplete, CompletesBriefly, CompletionsEnd};
ghost use Rattle.world.specs.Calm.{CalmViewsDeliver, CalmViewsAreBrief, CalmRoundsEnd};
ghost use Rattle.world.specs.NotThrough.{MissingIsRefuted, UnstableIsRefuted, StoryIsRefuted};
ghost use Rattle.world.specs.Meets.{LoneViewsMeet, LoneViewsJoin};
ghost use Rattle.world.specs.LowProposals.{ProposalsRise, ProposalsOvertake, OvertakingsSettle, OvertakesBriefly, OvertakingsEnd, RoundsAreEnough};

use state_transfer::Receiver;

/// The law of settling. In every world that comes of any events: where the member that runs at a node has a flush of its own that awaits somebody, and each of
/// its list runs at its address, is joining or in a view, has promised no greater proposal and did not install this one, then after a tick of that member and
/// a delivery of each FLUSH, REPORT, STATE and INSTALL that come of it, in order, with no growth refused to a member, all of the list run and the proposal is
/// their current view; and these are at most 526 events. Where a growth is refused, one of the list has crashed, or a step was not begun and all of them run.
/// For every receiver that keeps the laws. It does nothing.
pub fn views_settle<R: Receiver>()
    ensures settles { ViewsSettle R.meaning }
    ensures brief { SettlesBriefly R.meaning }
    ensures ends { SettlingsEnd R.meaning }
{}

/// The law of changes of view. In every world that comes of any events a view completes in one of three ways, the first that can be.
///
/// - A settling completes it (`views_settle`).
/// - The member that runs at a node keeps INSTALLs of it, and each of the view is in it or was sent one and would follow it still: for each of the latter a tick
///   of it, a delivery of its REPORT, and of each STATE and INSTALL that come of that.
/// - Two rounds at most raise a proposal that is too low (`low_proposals_rise`), and then a settling.
///
/// After these steps, with no growth refused to a member, all of the view run and it is their current view; and they are at most 526 events, six more with
/// rounds. Where a growth is refused, one of the view has crashed, or a step was not begun and all of them run. For every receiver that keeps the laws. It does
/// nothing.
pub fn views_complete<R: Receiver>()
    ensures completes { ViewsComplete R.meaning }
    ensures brief { CompletesBriefly R.meaning }
    ensures ends { CompletionsEnd R.meaning }
{}

/// The law of lone views. Two members each stand alone in a view, not blocked; the lesser one has noted nobody, and a counter is left past both views. Then a
/// hint of the lesser one to the greater one and a delivery of the MERGE that is sent by that make the lesser one begin a change of view to the two of them,
/// and that change can complete (`meets`). When it settles, both run and are in one view (`join`). For every receiver that keeps the laws. It does nothing.
pub fn lone_views_meet<R: Receiver>()
    ensures meets { LoneViewsMeet R.meaning }
    ensures join { LoneViewsJoin R.meaning }
{}

/// The law of proposals that are too low. In every world that comes of any events: where an address has not reported for the own flush of the member that runs
/// at a node, runs, is joining or in a view, has promised a greater proposal, is a candidate of that member, and a counter is left past that promise, then
/// after a tick of the member, and a delivery of the FLUSH for that address and of the BEHIND that answers it, the flush is one for the member's candidates
/// with a counter past that promise, nobody else has reported for it, and nobody else has changed (`rise`). Two such rounds, the second with the one of the
/// list that has promised furthest, raise the proposal past all promises: then the change can complete (`overtake`), a settling completes it (`settle`), and
/// these are at most 532 events (`brief`). Where a growth is refused, one of the list has crashed, or a step was not begun and all of them run (`ends`). Two
/// rounds are enough where all candidates run at their addresses, and are joining or in a view, and a counter is left past all that they have promised
/// (`enough`). For every receiver that keeps the laws. It does nothing.
pub fn low_proposals_rise<R: Receiver>()
    ensures rise { ProposalsRise R.meaning }
    ensures overtake { ProposalsOvertake R.meaning }
    ensures settle { OvertakingsSettle R.meaning }
    ensures brief { OvertakesBriefly R.meaning }
    ensures ends { OvertakingsEnd R.meaning }
    ensures enough { RoundsAreEnough R.meaning }
{}

/// The law of calm views. In every world that comes of any events: where all members of the view of the member that runs at a node run in it and are not
/// blocked, and numbers of its order are left, then after four calm rounds each of them has delivered every message that was sent in the view, in one order, and
/// knows all of them to be stable. These are at most 4,928 events. Where a growth is refused, one of the view's members has crashed, or a step was not begun and
/// all members are open as before. For every receiver that keeps the laws. It does nothing.
pub fn calm_views_deliver<R: Receiver>()
    ensures deliver { CalmViewsDeliver R.meaning }
    ensures brief { CalmViewsAreBrief R.meaning }
    ensures ends { CalmRoundsEnd R.meaning }
{}

/// What the end of the law of calm views refutes: a world in which a member of the view has not delivered a message that another sent there (`missing`), one such
/// written in full (`story`), and one in which a member does not know all of it to be stable (`unstable`). It does nothing.
pub fn missing_messages_are_seen<R: Receiver>()
    ensures missing { MissingIsRefuted R }
    ensures unstable { UnstableIsRefuted R }
    ensures story { StoryIsRefuted R }
{}
