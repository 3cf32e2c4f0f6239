//! The options of the command line and their names.
ghost use Rattle.std.specs.Prelude.{◌≡◌, ◌≢◌, ℕ, List, ◌++◌, MatchOption};
ghost use Rattle.wasm2text.specs.Arguments.{flag_named, setting_named, color_named, is_dashed, joined_start};
ghost use Rattle.wasm2text.specs.Messages.{long_name};

/// An option without a value.
#[derive(Clone, Copy)]
pub enum Flag {
    /// The help is written.
    Help,
    /// The version is written.
    Version,
    /// Each line after the first begins with its place.
    PrintOffsets,
    /// Bodies, items of element segments, and bytes of data segments and `(@custom ..)` are left out.
    Skeleton,
    /// Identifiers are synthesized for items without a name.
    NameUnnamed,
    /// Each operator is printed in parentheses with its operands.
    FoldInstructions,
    /// Only what no text shows is written.
    Hidden,
}

impl Flag {
    /// Returns the option with this name, if there is one.
    pub fn named(name: &str) -> Option<Flag>
        ensures { result ≡ flag_named name.now }
    {
        match name {
            "-h" | "--help" => Some(Flag::Help),
            "-V" | "--version" => Some(Flag::Version),
            "-p" | "--print-offsets" => Some(Flag::PrintOffsets),
            "--skeleton" => Some(Flag::Skeleton),
            "--name-unnamed" => Some(Flag::NameUnnamed),
            "-f" | "--fold-instructions" => Some(Flag::FoldInstructions),
            "--hidden" => Some(Flag::Hidden),
            _ => None,
        }
    }
}

/// An option with a value.
#[derive(Clone, Copy)]
pub enum Setting {
    /// The file to which the text is written.
    Output,
    /// The number of spaces of a level of nesting.
    Indent,
    /// Whether the text has ANSI escape sequences.
    Color,
    /// The offset of the byte that an excerpt of the text shows, from the start of the module.
    At,
    /// The offset of the byte that an excerpt of the text shows, from the start of the code section's contents.
    CodeOffset,
    /// The function whose text is printed alone.
    Func,
}

impl Setting {
    /// Returns the option with this name, if there is one.
    pub fn named(name: &str) -> Option<Setting>
        ensures { result ≡ setting_named name.now }
    {
        match name {
            "-o" | "--output" => Some(Setting::Output),
            "--indent" => Some(Setting::Indent),
            "--color" => Some(Setting::Color),
            "--at" => Some(Setting::At),
            "--code-offset" => Some(Setting::CodeOffset),
            "--func" => Some(Setting::Func),
            _ => None,
        }
    }

    /// Returns the name of the option in messages.
    pub fn long_name(self) -> &'static str
        ensures { result.now ≡ long_name self }
    {
        match self {
            Setting::Output => "--output",
            Setting::Indent => "--indent",
            Setting::Color => "--color",
            Setting::At => "--at",
            Setting::CodeOffset => "--code-offset",
            Setting::Func => "--func",
        }
    }
}

/// Returns the option and the value that a word consists of, as `--indent=4`.
pub fn joined(word: &str) -> Option<(Setting, &str)>
    ensures { MatchOption result ((setting : _) (value : List ℕ) → word.now ≢ joined_start setting ++ value)
        (λ found. word.now ≡ joined_start found.0 ++ found.1.now) }
{
    if let Some(value) = word.strip_prefix("--output=") {
        return Some((Setting::Output, value));
    }
    if let Some(value) = word.strip_prefix("--indent=") {
        return Some((Setting::Indent, value));
    }
    if let Some(value) = word.strip_prefix("--color=") {
        return Some((Setting::Color, value));
    }
    if let Some(value) = word.strip_prefix("--at=") {
        return Some((Setting::At, value));
    }
    if let Some(value) = word.strip_prefix("--code-offset=") {
        return Some((Setting::CodeOffset, value));
    }
    if let Some(value) = word.strip_prefix("--func=") {
        return Some((Setting::Func, value));
    }
    None
}

/// Whether the text has ANSI escape sequences.
#[derive(Clone, Copy)]
pub enum ColorChoice {
    /// Only if the text goes to a terminal that may show colors.
    Auto,
    /// In any case.
    Always,
    /// In no case.
    Never,
}

impl ColorChoice {
    /// Returns the choice with this name, if there is one.
    pub fn named(name: &str) -> Option<ColorChoice>
        ensures { result ≡ color_named name.now }
    {
        match name {
            "auto" => Some(ColorChoice::Auto),
            "always" => Some(ColorChoice::Always),
            "never" => Some(ColorChoice::Never),
            _ => None,
        }
    }
}

/// Returns whether a word is no file, unless it is after `--` or the value of an option.
pub fn is_dashed(word: &str) -> bool
    ensures { result ≡ is_dashed word.now }
{
    word.starts_with("-") && word != "-"
}
