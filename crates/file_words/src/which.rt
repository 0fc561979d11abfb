// The commands of the program.
#[derive(Clone, Copy, PartialEq, Eq, Debug)]
pub enum Command {
    Help,
    Run,
    Replay,
    Current,
    Expire,
    Examples,
    Tour,
    Cases,
    Repeat,
    Dates,
    Import,
    Export,
    Audit,
}

impl Command {
    // The command that a word names.
    pub fn of_word(word: &[u8]) -> Option<Command> {
        match word {
            b"help" => Some(Command::Help),
            b"run" => Some(Command::Run),
            b"replay" => Some(Command::Replay),
            b"current" => Some(Command::Current),
            b"expire" => Some(Command::Expire),
            b"examples" => Some(Command::Examples),
            b"tour" => Some(Command::Tour),
            b"cases" => Some(Command::Cases),
            b"repeat" => Some(Command::Repeat),
            b"dates" => Some(Command::Dates),
            b"import" => Some(Command::Import),
            b"export" => Some(Command::Export),
            b"audit" => Some(Command::Audit),
            _ => None,
        }
    }
}
