use std::alloc::{AllocError, AllocFailed, Global};

/// Why words that have a parse ask for nothing.
#[derive(Clone, Copy)]
pub(crate) enum Mistake<'a> {
    /// Memory was refused: nothing is known of the words.
    NoMemory,
    /// There is no such subcommand, or an argument that it needs isn't there. A parse has neither.
    Incomplete,
    /// That text isn't what its argument wants.
    Value(Wanted, &'a str),
    /// Standard input is read more than once.
    InputTwice,
    /// The object is that of a file, and of words too.
    ObjectTwice,
    /// A call has more than one input.
    TwoInputs,
    /// A call by an OSD's limits has no trace.
    LargeTraced,
    /// JSON has neither each method's verdict nor explanations.
    JsonOfMore,
    /// Verdicts by heads are told neither of each method nor in JSON.
    LoopsOfMore,
    /// A call of a method that may loop has neither a trace nor an OSD's limits.
    LoopsNotPlain,
    /// Heads are found without each line that is wrong, and without explanations.
    HeadsOfMore,
    /// A budget is given to `asm` or `pack`, and no heads are found.
    BudgetOfNone,
    /// A drawing shows no objects.
    ObjectsDrawn,
}

/// The form that an argument wants of its text.
#[derive(Clone, Copy)]
pub(crate) enum Wanted {
    Caller,
    InputText,
    InputU64,
    Limits,
    Rules,
    Budget,
    Xattr,
    Key,
    Method,
    Class,
    ClassName,
    FreeName,
    FewerClasses,
    Output,
    Saved,
    SavedApart,
}

impl Wanted {
    /// The argument, as help shows it, and the form.
    #[rattlefmt::skip]
    fn row(self) -> (&'static str, &'static str) {
        match self {
            Wanted::Caller       => ("--caller <N>", "a number from 1 to 4294967295, without a sign or a leading zero"),
            Wanted::InputText    => ("--input-text <TEXT>", "a text"),
            Wanted::InputU64     =>
                ("--input-u64 <N,..>", "numbers from 0 to 18446744073709551615, with ',' between them"),
            Wanted::Limits       => ("--limits <LIMITS>", "profile or ceph"),
            Wanted::Rules        => ("--rules <N>", "1, 2 or 3"),
            Wanted::Budget       => ("--budget <N>", "a number from 1 to 1048576, without a sign or a leading zero"),
            Wanted::Xattr        => ("--xattr <NAME=HEX>", "a name, '=' and the value"),
            Wanted::Key          => ("--key <KEY=HEX>", "a key, '=' and the value"),
            Wanted::Method       => ("<METHOD>...", "NAME:FLAGS:IN:OUT:FILE, FLAGS r, w or rw, IN and OUT 0 to 65535"),
            Wanted::Class        =>
                ("--class <NAME=IMAGE>", "a name, '=' and the file of the class: its image or text"),
            Wanted::ClassName    => ("--class <NAME=IMAGE>", "a name that isn't empty and has no blank"),
            Wanted::FreeName     => ("--class <NAME=IMAGE>", "a name other than lock, obj and earlier ones"),
            Wanted::FewerClasses => ("--class <NAME=IMAGE>", "at most 62 classes"),
            Wanted::Output       => ("<OUT>", "a file, and not standard input ('./-' is a file of that name)"),
            Wanted::Saved        => ("--save <FILE>", "a file, and not standard input ('./-' is a file of that name)"),
            Wanted::SavedApart   => ("--save <FILE>", "another file than <IN>, which has the class"),
        }
    }
}

impl Mistake<'_> {
    /// The message on it: the value, the argument and the form that it wants.
    pub(crate) fn message(self, alloc: Global) -> Result<String, AllocError> {
        match self {
            Mistake::NoMemory => String::from_str(alloc, "no memory"),
            Mistake::Incomplete => String::from_str(alloc, "an argument is wanted"),
            Mistake::InputTwice => {
                String::from_str(
                    alloc,
                    "standard input ('-') can be read by one argument alone",
                )
            }
            Mistake::ObjectTwice => {
                String::from_str(
                    alloc,
                    "the argument '--load <FILE>' cannot be used with '--object <HEX>', '--xattr <NAME=HEX>' or \
                    '--key <KEY=HEX>'",
                )
            }
            Mistake::TwoInputs => {
                String::from_str(
                    alloc,
                    "the arguments '--input <HEX>', '--input-text <TEXT>' and '--input-u64 <N,..>' cannot be used \
                    with one another",
                )
            }
            Mistake::LargeTraced => {
                String::from_str(
                    alloc,
                    "the argument '--trace' cannot be used with '--limits ceph'",
                )
            }
            Mistake::JsonOfMore => {
                String::from_str(
                    alloc,
                    "the argument '--json' cannot be used with '--all' or '--explain'",
                )
            }
            Mistake::LoopsOfMore => {
                String::from_str(
                    alloc,
                    "the argument '--loops' cannot be used with '--all' or '--json'",
                )
            }
            Mistake::LoopsNotPlain => {
                String::from_str(
                    alloc,
                    "the argument '--loops' cannot be used with '--trace' or '--limits ceph'",
                )
            }
            Mistake::HeadsOfMore => {
                String::from_str(
                    alloc,
                    "the argument '--heads' cannot be used with '--all' or '--explain'",
                )
            }
            Mistake::BudgetOfNone => {
                String::from_str(
                    alloc,
                    "the argument '--budget <N>' cannot be used without '--heads'",
                )
            }
            Mistake::ObjectsDrawn => {
                String::from_str(
                    alloc,
                    "the argument '--objects' cannot be used with '--trace'",
                )
            }
            Mistake::Value(wanted, text) => {
                let (argument, form) = wanted.row();
                format!(in alloc; "invalid value '{text}' for '{argument}': expected {form}")
            }
        }
    }
}

impl From<AllocError> for Mistake<'_> {
    ghost use Rattle.std.specs.Prelude.{◌≡◌};
    ghost use Rattle.radoscls_program.specs.declared.mistake.Mistake.TheVariants.{NoMemory};

    ghost from_gives = { λ _ m. m ≡ NoMemory };

    fn from(_error: AllocError) -> Self {
        Mistake::NoMemory
    }
}

impl<T: Drop> From<AllocFailed<T>> for Mistake<'_> {
    ghost use Rattle.std.specs.Prelude.{◌≡◌};
    ghost use Rattle.radoscls_program.specs.declared.mistake.Mistake.TheVariants.{NoMemory};

    ghost from_gives = { λ _ m. m ≡ NoMemory };

    fn from(_error: AllocFailed<T>) -> Self {
        Mistake::NoMemory
    }
}
