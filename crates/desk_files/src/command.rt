// The words that name commands.

#[derive(Clone, Copy, Debug, PartialEq, Eq)]
pub enum Command {
    Check,
    Tree,
    Unpack,
    Pack,
    Prune,
    Join,
    Find,
    Calls,
    Version,
    Help,
}

impl Command {
    pub fn named(word: &[u8]) -> Option<Command> {
        match word {
            b"check" => Some(Command::Check),
            b"tree" => Some(Command::Tree),
            b"unpack" => Some(Command::Unpack),
            b"pack" => Some(Command::Pack),
            b"prune" => Some(Command::Prune),
            b"join" => Some(Command::Join),
            b"find" => Some(Command::Find),
            b"calls" => Some(Command::Calls),
            b"--version" => Some(Command::Version),
            b"help" | b"--help" | b"-h" => Some(Command::Help),
            _ => None,
        }
    }

    // Whether it takes so many arguments, the program's name and its own word among them.
    pub fn fits(self, count: usize) -> bool {
        match self {
            Command::Check => 3 <= count,
            Command::Tree | Command::Unpack | Command::Pack => count == 3,
            Command::Prune | Command::Find => 4 <= count,
            Command::Join => count == 4,
            Command::Calls => count == 2,
            Command::Version | Command::Help => true,
        }
    }

    pub fn usage(self) -> &'static str {
        match self {
            Command::Check => "desk check FILE..",
            Command::Tree => "desk tree FILE",
            Command::Unpack => "desk unpack FILE",
            Command::Pack => "desk pack FILE",
            Command::Prune => "desk prune FILE ENTRY..",
            Command::Join => "desk join FILE FILE",
            Command::Find => "desk find TYPE FILE..",
            Command::Calls => "desk calls",
            Command::Version => "desk --version",
            Command::Help => "desk help",
        }
    }
}
