//! How a run of the program ends.
ghost use Rattle.std.specs.Prelude.{◌≡◌};
ghost use Rattle.wf_model.specs.Statuses.{number_of};

/// How a run of the program ends.
#[derive(Clone, Copy, Debug, PartialEq, Eq)]
pub enum Status {
    /// The command was done, and its text was written.
    Ok,
    /// The words name no command.
    Words,
    /// The chart was refused.
    ChartRefused,
    /// A line of the script was refused.
    ScriptRefused,
    /// The source failed.
    ReadFault,
    /// The sink failed.
    WriteFault,
    /// A disk failed.
    DiskFault,
    /// Memory ran out.
    NoMemory,
    /// A limit was passed.
    Limit,
    /// A journal is of another chart or unit, or is damaged.
    Journals,
    /// The input asks for what isn't built yet.
    Unbuilt,
}

impl Status {
    /// The number that the program ends with.
    pub fn number(self) -> u8
        ensures { result ≡ number_of self }
    {
        self as u8
    }
}
