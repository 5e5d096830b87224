ghost use Rattle.view_install.specs.Runs.{InstallsRise, OnlyThePromised, PromisesRise};

/// The laws of a promise. Whatever is offered to it and installed, in any order, the views that are installed rise: none is installed twice, and
/// none below one that was installed. A view is installed only where it is the promised proposal, with its list, and was not installed; and
/// no offer lowers the promise.
pub fn promises_rise()
    ensures installs { InstallsRise }
    ensures promised { OnlyThePromised }
    ensures offers { PromisesRise }
{}
