ghost use Rattle.flush.specs.Covers.{CutCovers, BaseIsBelow, OneCut, GroupsAreReported, CutIs};

/// The laws of a cut: a cut of reports that agree with one order agrees with it and reaches at least what each reporter has delivered; its base is
/// not above what bounds each reporter's stable count; reports have one cut only; the
/// reports from a view are each the one that its address sent, and keep the rules of a report; and the base and the items of these reports are their cut.
pub fn cut_covers()
    ensures covers { CutCovers }
    ensures base { BaseIsBelow }
    ensures one { OneCut }
    ensures groups { GroupsAreReported }
    ensures cut { CutIs }
{}
