ghost use Rattle.law_acts.specs.Known.{MembersKnow, StableStays};
ghost use Rattle.law_acts.specs.Agreement.{KeepsInvariant, IsAlwaysSynchronous, ActsKeep};
ghost use Rattle.law_acts.specs.ChunkStory.{ChunkPlays};
ghost use Rattle.law_acts.specs.CrashStory.{CrashPlays};
ghost use Rattle.law_acts.specs.LeaveStory.{LeavePlays};
ghost use Rattle.law_acts.specs.MergeStory.{MergePlays};

use state_transfer::Receiver;

/// The law of agreement: after any list of starts, crashes and acts, each allowed after those before it and on a packet that was put out before or on none,
/// the invariant holds, and the trace keeps all eight rules at every place, within the events of one act too
/// (docs/PROOF.md, "Agreement over acts"). Where the invariant holds, what a member knows that runs is what the trace says: its view, the state of its receiver, and how much of the view it has
/// delivered; and each member of its view has delivered what it knows to be stable, for ever. For every receiver that keeps the laws. It does nothing.
pub fn agreement<R: Receiver>()
    ensures invariant { KeepsInvariant R.meaning }
    ensures synchronous { IsAlwaysSynchronous R.meaning }
    ensures keep { ActsKeep R.meaning }
    ensures known { MembersKnow R.meaning }
    ensures stable { StableStays }
{}

/// The law speaks of something: these four lists of steps are allowed from the beginning on, and these traces come of them. In three of them three members come
/// together one after the other. Then the first orders two messages and crashes before the second has the last one; the second takes over and delivers it
/// by the cut. Or the first orders a message of the second, which becomes stable, and leaves before it has the next one, which is handed back. Or a fourth
/// joins, the four fall into two halves, a message is ordered in each, and the halves merge: the second half is given the state of the first, and the
/// fourth delivers what it lacks of its own half. In the fourth list a member joins another and is given its state in chunks, which are put out twice.
/// Each of the seventeen acts is done somewhere. For every receiver that keeps the laws. It does nothing.
pub fn stories_play<R: Receiver>()
    ensures crash { CrashPlays R.meaning }
    ensures leave { LeavePlays R.meaning }
    ensures merge { MergePlays R.meaning }
    ensures chunks { ChunkPlays }
{}
