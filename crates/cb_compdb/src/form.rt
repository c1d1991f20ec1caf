//! What a word of a compiler is.
ghost use Rattle.std.specs.Prelude.{◌≡◌, Some, option_map, if◌then◌else◌};
ghost use Rattle.cb_compdb.specs.Options.{WordForm, behind, form_of, is_handing, is_naming, joined_form, whole_form};
ghost use Rattle.cb_compdb.specs.inner.Forms.{form_seen};

/// What an option is for.
#[derive(Clone, Copy, PartialEq, Eq)]
pub(crate) enum OptionKind {
    /// `-D`: a definition.
    Define,
    /// `-U`: the end of a definition.
    Undefine,
    /// `-I`: a folder of headers.
    Folder,
    /// `-iquote`: a folder of headers in quotes.
    QuoteFolder,
    /// `-isystem`: a folder of headers in angle brackets that comes behind those of `-I`.
    SystemFolder,
    /// `-include`: a file that is read first.
    ForcedFile,
}

/// What a word is.
#[derive(Clone, Copy)]
pub(crate) enum Form<'a> {
    /// An option with its text.
    With(OptionKind, &'a [u8]),
    /// An option whose text is the next word.
    Takes(OptionKind),
    /// An option whose next word is passed over too.
    Skips,
    /// Anything else.
    Passed,
}

/// What stands in a word behind the name of an option, if it begins so.
fn behind<'a>(name: &[u8], word: &'a [u8]) -> Option<&'a [u8]>
    ensures { option_map (λ rest. rest.now) result ≡ behind name.now word.now }
{
    word.strip_prefix(name)
}

/// The form of an option, by what stands behind its name.
fn joined(kind: OptionKind, text: &[u8]) -> Form<'_>
    ensures { (otherwise : WordForm) → form_seen result ≡ joined_form kind (Some text.now) otherwise }
{
    if text.is_empty() {
        Form::Takes(kind)
    } else {
        Form::With(kind, text)
    }
}

/// Whether a word is an option that a name of a file, a language, a target or a folder follows which is not looked at.
#[tactic(auto, unfolding(crate::specs::Options::is_naming))]
fn is_naming(word: &[u8]) -> bool
    ensures { result ≡ is_naming word.now }
{
    word == b"-o".as_slice()
        || word == b"-x".as_slice()
        || word == b"-MF".as_slice()
        || word == b"-MT".as_slice()
        || word == b"-MQ".as_slice()
        || word == b"-idirafter".as_slice()
}

/// Whether a word is an option that hands the next word on to another program.
#[tactic(auto, unfolding(crate::specs::Options::is_handing))]
fn is_handing(word: &[u8]) -> bool
    ensures { result ≡ is_handing word.now }
{
    word == b"-Xclang".as_slice()
        || word == b"-Xcompiler".as_slice()
        || word == b"-Xlinker".as_slice()
        || word == b"-Xpreprocessor".as_slice()
        || word == b"-Xassembler".as_slice()
}

/// The form of a word that is an option as a whole.
fn whole(word: &[u8]) -> Form<'_>
    ensures { form_seen result ≡ whole_form word.now }
{
    if word == b"-include".as_slice() {
        return Form::Takes(OptionKind::ForcedFile);
    }
    if is_naming(word) || is_handing(word) {
        return Form::Skips;
    }
    Form::Passed
}

/// What a word is.
#[tactic(auto, unfolding(crate::specs::Options::form_of))]
pub(crate) fn form_of(word: &[u8]) -> Form<'_>
    ensures { form_seen result ≡ form_of word.now }
{
    if let Some(text) = behind(b"-D", word) {
        return joined(OptionKind::Define, text);
    }
    if let Some(text) = behind(b"-U", word) {
        return joined(OptionKind::Undefine, text);
    }
    if let Some(text) = behind(b"-I", word) {
        return joined(OptionKind::Folder, text);
    }
    if let Some(text) = behind(b"-iquote", word) {
        return joined(OptionKind::QuoteFolder, text);
    }
    if let Some(text) = behind(b"-isystem", word) {
        return joined(OptionKind::SystemFolder, text);
    }
    whole(word)
}
