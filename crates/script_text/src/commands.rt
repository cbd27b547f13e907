//! What the reader asks of a command.

ghost use Rattle.std.specs.Prelude.{◌≡◌};
ghost use Rattle.ho_events.specs.Script.SoFar.{label_of as label_rule};

use ho_base::name::Name;
use ho_events::command::Command;

/// The label that a command binds.
pub fn label_of(command: &Command) -> Option<Name>
    ensures { result ≡ label_rule command.now }
{
    match command {
        Command::Memfd(label, _) => Some(*label),
        Command::Device(label, _, _) => Some(*label),
        Command::Retrieve(_, _, label) => Some(*label),
        _ => None,
    }
}
