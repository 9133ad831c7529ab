ghost use Rattle.std.specs.Prelude.{◌≡◌};

use std::alloc::AllocError;
use thiserror::Error as ErrorTexts;

/// Why words are refused.
#[derive(Debug, Drop, ErrorTexts)]
pub enum CommandFault {
    /// The words name no command, lack a file's name or aren't understood, or they ask for help or the
    /// version. The text is for the user.
    #[error("{text}")]
    Words {
        /// Whether the text was asked for.
        help: bool,
        text: String,
    },
    /// An option doesn't take its value: no number, one outside its limits, or another word than yes and no.
    #[error("an option doesn't take its value")]
    BadOption,
    /// Memory was refused.
    #[error("memory was refused")]
    OutOfMemory,
}

impl From<AllocError> for CommandFault {
    ghost use Rattle.ea_options.specs.declared.fault.CommandFault.TheVariants.{OutOfMemory};

    ghost from_gives = { λ _ fault. fault ≡ OutOfMemory };

    fn from(_error: AllocError) -> CommandFault {
        CommandFault::OutOfMemory
    }
}
