// The command words.
ghost use Rattle.std.specs.Prelude.{◌≡◌, map, string_bytes};
ghost use Rattle.aem.specs.Words.{mode_alone, command_of};

use crate::answer::{Command, UsageKind};

// A mode that takes no further words.
fn alone(command: Command, words: &[String]) -> Result<Command, UsageKind>
    ensures { result ≡ mode_alone command (map string_bytes words.now) }
{
    if words.is_empty() {
        Ok(command)
    } else {
        Err(UsageKind::Words)
    }
}

/// What the words ask for, or what is wrong with them.
pub fn command(words: &[String]) -> Result<Command, UsageKind>
    ensures { result ≡ command_of (map string_bytes words.now) }
{
    match words {
        [] => Err(UsageKind::NoMode),
        [mode, rest @ ..] => {
            if mode.as_str() == "check" {
                alone(Command::Check, rest)
            } else if mode.as_str() == "run" {
                alone(Command::Run, rest)
            } else if mode.as_str() == "graph" {
                alone(Command::Graph, rest)
            } else {
                Err(UsageKind::UnknownMode)
            }
        }
    }
}
