ghost use Rattle.next_view.specs.Law.{CandidatesAreAView};

/// The law of candidates: those of one who leads its view, and who does not suspect itself, are the members of a view of each id that it makes. They begin
/// with itself, each stands once, and they are 1 to `MEMBERS`. It does nothing.
pub fn candidates_are_a_view()
    ensures { CandidatesAreAView }
{}
