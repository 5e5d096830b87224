//! What a member sees itself of the history of its view (docs/RUNNER.md, "The greatest view").

ghost use Rattle.std.specs.Prelude.{◌≡◌};
ghost use Rattle.node_finding.specs.Lineages.{delivered, entered, installed, unborn};

use address::ViewId;

/// What a member sees itself of the history of its view.
#[derive(Clone, Copy)]
pub struct Lineage {
    /// The view that it installed last; `None` before the first one.
    pub view: Option<ViewId>,
    /// The counter of the latest view that it entered with a state that it was given: there it took over another history. 0 if there is none.
    pub given: u64,
    /// The counter of the latest view since then in which it delivered a message. 0 if there is none.
    pub history: u64,
}

impl Lineage {
    /// That of a member that has installed no view yet.
    pub fn new() -> Lineage
        ensures { result ≡ unborn }
    {
        Lineage {
            view: None,
            given: 0,
            history: 0,
        }
    }

    /// The member installs a view, and keeps its state.
    pub fn install(&mut self, view: ViewId)
        ensures { self.new ≡ installed view self.old }
    {
        self.view = Some(view);
    }

    /// The member enters a view with a state that it is given: what it saw before is no history of that state.
    pub fn enter(&mut self, view: ViewId)
        ensures { self.new ≡ entered view }
    {
        self.view = Some(view);
        self.given = view.counter();
        self.history = 0;
    }

    /// The member delivers a message in a view.
    pub fn deliver(&mut self, view: ViewId)
        ensures { self.new ≡ delivered view self.old }
    {
        self.history = view.counter();
    }
}
