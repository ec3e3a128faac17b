// Changes of the running state's text: records changed in place and records added, each by one splice, with the slots that move.
#![tactic(auto)]

ghost use Rattle.std.specs.Prelude.{◌≡◌};

pub mod add; // records added
pub mod change; // records changed
