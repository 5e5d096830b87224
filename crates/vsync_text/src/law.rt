//! The law of the reader.

ghost use Rattle.vsync_text.specs.Laws.{LinesReadBack, RunsReadBack};

/// What is written is read back (docs/FORMATS.md, "Trace text"): lines, each the line of an event in the format's ranges,
/// a note that begins with `#`, or one that says which messages are stable, are read as those events in order;
/// and so is the text of every run whose events are in those ranges, with its refusals among them.
#[tactic(auto, using(crate::proofs::TextsBack::trace_back, crate::proofs::RunsBack::run_back))]
pub fn reads_what_is_written()
    ensures lines { LinesReadBack }
    ensures runs { RunsReadBack }
{}
