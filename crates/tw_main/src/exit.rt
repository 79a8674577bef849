//! The end of the command.

ghost use Rattle.std.specs.Prelude.{◌≡◌};
ghost use Rattle.std.specs.Process.{exit_status};
ghost use Rattle.tw_main.specs.Exit.{code_of_exit};

use std::io::Eprint;
use std::process::{ExitCode, Termination};
use tw_session::Status;

/// How the command ends.
#[derive(Clone, Copy)]
pub enum Exit {
    /// A session was held.
    Session(Status),
    /// None was, since a file can't be read.
    Unread,
    /// Nobody reads standard output any more.
    Abandoned,
}

impl Exit {
    /// Returns the exit status of the command `tw`: that of its session, or 66 for a file that can't be read, or that of a process
    /// which the signal SIGPIPE has ended.
    fn code(self) -> u8
        ensures { result ≡ code_of_exit self }
    {
        match self {
            Exit::Session(status) => status.code(),
            Exit::Unread => 66,
            Exit::Abandoned => 128 + 13,
        }
    }
}

impl Termination for Exit {
    /// Reports the exit status of the command `tw` to the system.
    fn report<R: Eprint>(self, _rt: &R) -> ExitCode
        ensures { exit_status result ≡ code_of_exit self }
    {
        ExitCode::from(self.code())
    }
}
