//! What is printed where the words are no job.
ghost use Rattle.std.specs.Prelude.{◌≡◌};
ghost use Rattle.cb_words.specs.Faults.{usage_text};

/// The usage of the program: its commands, and a line end. It is printed where the words are no job, whatever is wrong with them.
pub fn usage() -> &'static [u8]
    ensures { result.now ≡ usage_text }
{
    b"usage: codebasin specialise|report|stdio|serve|generate\n"
}
