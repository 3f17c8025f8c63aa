ghost use Rattle.std.specs.Prelude.{◌≡◌, map, string_bytes};
ghost use Rattle.etylizer_program.specs.Commands.{command_of};

/// What the words of a command line ask for.
#[derive(Clone, Copy, Debug, PartialEq, Eq)]
pub enum Command {
    /// `check FILE`.
    Check,
}

/// The command that the words are, if any. They don't have the program's own name.
pub fn command_of(words: &Vec<String>) -> Option<Command>
    ensures { result ≡ command_of (map string_bytes words.now.items) }
{
    match words.as_slice() {
        [word, _] if word.as_str() == "check" => Some(Command::Check),
        _ => None,
    }
}
