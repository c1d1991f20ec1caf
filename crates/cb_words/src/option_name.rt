//! The options of the commands.
ghost use Rattle.std.specs.Prelude.{◌≡◌};
ghost use Rattle.cb_words.specs.OptionNames.{is_same};

/// An option of a command.
#[derive(Clone, Copy)]
pub(crate) enum OptionName {
    /// `--kind`: the kind of a report.
    Kind,
    /// `--root`: the folder that the databases mean by the top.
    Root,
    /// `--workers`: how many passes run at a time.
    Workers,
    /// `--measurements`: the path of the measurements.
    Measurements,
    /// `--port`: the port of the server.
    Port,
    /// `--connections`: how many connections the server takes.
    Connections,
}

impl OptionName {
    ghost use Rattle.cb_words.specs.OptionNames.{name_of};

    /// The word that names it.
    pub(crate) fn name(self) -> &'static [u8]
        ensures { result.now ≡ name_of self }
    {
        match self {
            OptionName::Kind => b"--kind",
            OptionName::Root => b"--root",
            OptionName::Workers => b"--workers",
            OptionName::Measurements => b"--measurements",
            OptionName::Port => b"--port",
            OptionName::Connections => b"--connections",
        }
    }
}

/// Whether two options are one.
pub(crate) fn is_same(one: OptionName, other: OptionName) -> bool
    ensures { result ≡ is_same one other }
{
    one.name() == other.name()
}
