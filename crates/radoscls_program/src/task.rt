use class_reports::{FilesAsked, Notes};
use class_tests::TestBytes;
use class_tool::Action;
use cluster_tool::Clustering;
use loop_tool::{HeadedPacking, HeadsAsked, LoopsAsked};
use object_texts::SpelledEntry;
use pg_log::ClientId;
use sim::Simulation;

/// The input of a call.
#[derive(Drop)]
pub(crate) enum GivenInput<'a> {
    /// A value: digits, `-`, or `@` and a file.
    Value(&'a str),
    /// These bytes.
    Bytes(TestBytes),
}

/// A call as words ask for it: `object_texts::MethodCall`, but for values that aren't read.
#[derive(Drop)]
pub(crate) struct GivenCall<'a> {
    pub(crate) image: &'a str,
    pub(crate) method: &'a str,
    pub(crate) input: GivenInput<'a>,
    pub(crate) caller: ClientId,
    pub(crate) data: Option<&'a str>,
    pub(crate) xattrs: Vec<SpelledEntry<'a>>,
    pub(crate) keys: Vec<SpelledEntry<'a>>,
    pub(crate) load: Option<&'a str>,
    pub(crate) save: Option<&'a str>,
    pub(crate) is_shown: bool,
    pub(crate) is_traced: bool,
    /// True if the object's limits are an OSD's.
    pub(crate) is_large: bool,
}

/// The tests of a class, to be run.
#[derive(Clone, Copy)]
pub(crate) struct Testing<'a> {
    /// The file of the class: its image or its text.
    pub(crate) class: &'a str,
    /// The file of its tests.
    pub(crate) file: &'a str,
    /// True if a call that answers otherwise is traced.
    pub(crate) is_traced: bool,
    /// True if methods may loop, and run by their budgets: then no call is traced.
    pub(crate) is_looped: bool,
}

/// A file of calls and maps, to be played on a cluster in threads.
#[derive(Drop)]
pub(crate) struct ClusterTask<'a> {
    /// The run.
    pub(crate) clustering: Clustering<'a>,
    /// True if its figures are written.
    pub(crate) is_measured: bool,
    /// True if a refused call changes the status.
    pub(crate) is_strict: bool,
    /// True if the lines of calls are written while the run goes on.
    pub(crate) is_followed: bool,
}

/// How a result, or why there is none, is told.
#[derive(Clone, Copy)]
pub(crate) struct Telling {
    /// What stands below the line of a failure.
    pub(crate) notes: Notes,
    /// True if it is an object of JSON.
    pub(crate) is_json: bool,
}

/// A task that words ask for.
#[derive(Drop)]
pub(crate) enum Task<'a> {
    /// Something of the class in a file, and how that is told.
    Class(Action<'a>, Telling),
    /// The verdicts on the classes of several files, or of one in JSON.
    Files(FilesAsked<'a>),
    /// The verdict of each method of the class in a file, and whether refusals are explained.
    Each(&'a str, bool),
    /// The verdicts on the classes of files, by the heads that their methods declare.
    Loops(LoopsAsked<'a>),
    /// An image with heads for the loops of the class in a file.
    Heads(HeadsAsked<'a>),
    /// An image with heads for the loops of a class of raw code.
    PackHeads(HeadedPacking<'a>),
    /// A call, whose values files may hold, and how that is told.
    Run(GivenCall<'a>, Telling),
    /// The same of a method that may loop, by its budget.
    RunLoops(GivenCall<'a>, Telling),
    /// The tests of the class in a file, run, and whether a failure is explained.
    Test(Testing<'a>, bool),
    /// A file of events, played.
    Sim(Simulation<'a>),
    /// A file of calls and maps, played on a cluster in threads.
    Cluster(ClusterTask<'a>),
}
