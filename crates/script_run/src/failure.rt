//! Why a run ended early, and what its caller is told of it.

ghost use Rattle.std.specs.Prelude.{◌≡◌, MatchOption, Some, None};
ghost use Rattle.script_run.specs.Status.{status_of, status_of_run, word_of_status};

/// Why a run ended early. The first failure of a run is the one that it ends with.
#[derive(Clone, Copy, Debug)]
pub enum Failure {
    /// The words are in no form.
    Usage,
    /// A call of the source failed.
    Input,
    /// A call of the sink failed.
    Output,
    /// The script, or a line of it, has more bytes than it may have.
    Long,
    /// There was no memory, or what serves the commands gave up.
    Memory,
}

impl Failure {
    /// The status that a program ends with after this failure.
    pub fn status(self) -> u8
        ensures { result ≡ status_of self }
    {
        match self {
            Failure::Usage => 2,
            Failure::Input => 3,
            Failure::Output => 4,
            Failure::Long => 7,
            Failure::Memory => 8,
        }
    }
}

/// The status that a program ends with: 0 where its run did all.
pub fn exit_status(run: Result<(), Failure>) -> u8
    ensures { result ≡ status_of_run run }
{
    match run {
        Ok(()) => 0,
        Err(failure) => failure.status(),
    }
}

/// The word for standard error that a status has, none where it is no failure's.
pub fn word_of(status: u8) -> Option<&'static str>
    ensures { MatchOption result (word_of_status status ≡ None)
        (λ word. word_of_status status ≡ Some word.now) }
{
    match status {
        2 => Some("usage"),
        3 => Some("input"),
        4 => Some("output"),
        7 => Some("long"),
        8 => Some("memory"),
        _ => None,
    }
}
