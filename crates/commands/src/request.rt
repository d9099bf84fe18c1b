//! Requests of a command line.
use crate::weights::WorkerCount;
use finding::SearchQuery;
use std::alloc::AllocError;
use synod::Weights;

/// A request of a command line.
#[derive(Drop)]
pub enum Request<'a> {
    /// `--version`: the name and the version of the program.
    Version,
    /// `outline`: the outline of a database.
    Outline {
        /// `--name`: the name that is printed before each line and column.
        name: Option<&'a str>,
    },
    /// A question about a database.
    Ask(DatabaseQuestion<'a>),
    /// `work`: how much work it is to judge a database.
    Work(WorkRequest<'a>),
    /// `pages`: a site of a database.
    Pages(SiteRequest<'a>),
    /// `play`: a script drives nodes, event by event.
    Play(PlayOptions),
    /// `play --picture`: the picture of the run that a script makes.
    Picture {
        options: PlayOptions,
        steps: PicturedSteps,
    },
    /// `serve`: nodes that are threads carry out lines.
    Serve(ServeOptions<'a>),
    /// `store`: the nodes of a folder that nothing has open; its path.
    Store {
        folder: &'a str,
    },
}

/// The nodes that `play` drives.
#[derive(Clone, Copy)]
pub struct PlayOptions {
    pub weights: Weights,
    /// `--max-events`: the number of events that the nodes take.
    pub event_limit: u64,
    /// `--max-work`: the greatest work that an entry may count; `None` for no limit.
    pub work_limit: Option<u64>,
}

/// The nodes that `serve` starts, and how it reads its lines.
#[derive(Drop)]
pub struct ServeOptions<'a> {
    pub weights: Weights,
    /// The number of events that the nodes take.
    pub event_limit: u64,
    /// `--max-work`: the greatest work that an entry may count; `None` for no limit.
    pub work_limit: Option<u64>,
    /// `--store`: the path of the folder in which the nodes keep what they promise and accept;
    /// `None` for memory.
    pub store: Option<&'a str>,
    /// How many threads read one entry and check its proofs.
    pub workers: WorkerCount,
    /// `--weather`: the seed of a generator that draws which packets are lost, repeated or delayed;
    /// `None` if none are.
    pub weather_seed: Option<u64>,
    /// `--live`: each line is answered before the next one is read.
    pub is_live: bool,
}

/// Which steps of a run a picture shows.
#[derive(Clone, Copy, Debug, PartialEq, Eq)]
pub struct PicturedSteps {
    /// `--from`: the first, counted from 0.
    pub from: u64,
    /// `--events`: how many at most; `None` for all from the first on.
    pub count: Option<u64>,
}

/// A question about a database, with the options about the database.
#[derive(Drop)]
pub struct DatabaseQuestion<'a> {
    pub question: Question<'a>,
    /// `--name`: the name that is printed before each line and column.
    pub name: Option<&'a str>,
    /// `--assume`: each `$p` that is not proved is taken as a `$a`.
    pub assumes_unproved: bool,
}

/// A request for the work of a database, with the options about the database.
#[derive(Clone, Copy)]
pub struct WorkRequest<'a> {
    /// `--name`: the name that is printed before each line and column.
    pub name: Option<&'a str>,
    /// `--most`: how many of the theorems whose proofs count the most are printed.
    pub most: u64,
}

/// A request for a site of a database, with the options about the database.
#[derive(Clone, Copy)]
pub struct SiteRequest<'a> {
    /// The path of the folder that the pages are written into.
    pub folder: &'a str,
    /// `--name`: the name that is printed before each line and column.
    pub name: Option<&'a str>,
    /// `--assume`: each `$p` that is not proved is taken as a `$a`.
    pub assumes_unproved: bool,
}

/// A question about a library. It borrows the labels that it names.
#[derive(Drop)]
pub enum Question<'a> {
    /// `check`: how many `$p` are proved.
    Check,
    /// `check --all`: each `$p` that is not proved, and how many are proved.
    CheckEach,
    /// `list`: its assertions.
    List,
    /// `export`: its statements, in the export form; with a form of proofs each `$p` as `proof`
    /// prints it in that form.
    Export(Option<ProofTextForm>),
    /// `tree`: the derivation of the `$p` with the label.
    Tree(&'a [u8]),
    /// `trace`: the `$a` that the `$p` with the label rests on, directly or through other `$p`.
    Trace(&'a [u8]),
    /// `usage`: the `$p` whose proofs cite the statement with the label.
    Usage {
        label: &'a [u8],
        /// Whether those that use it indirectly are listed too.
        all: bool,
    },
    /// `proof`: the steps of a proof.
    Proof(ProofQuestion<'a>),
    /// `extract`: a database of the assertions with the labels and of all that they need.
    Extract(Vec<&'a str>),
    /// `show`: the statements with the labels, each as a block of lines.
    Show(Vec<&'a str>),
    /// `find`: the assertions that match a search.
    Find(SearchQuery<'a>),
}

/// A question about the proof of a `$p`.
#[derive(Drop)]
pub struct ProofQuestion<'a> {
    pub label: &'a [u8],
    /// `--essential`: whether only the essential steps are shown.
    pub essential_only: bool,
    pub form: ProofForm,
}

/// The form in which a proof is printed.
#[derive(Clone, Copy, Debug, PartialEq, Eq)]
pub enum ProofForm {
    /// A line for each step.
    Steps,
    /// `--dot`: a picture of the steps, for Graphviz.
    Picture,
    /// `--html`: a page that needs no other file.
    Page,
    /// The `$p` with its proof as text.
    Text(ProofTextForm),
    /// `--so-far`: the steps up to the first fault, and the results on the stack.
    SoFar,
}

/// The form of a proof as text.
#[derive(Clone, Copy, Debug, Drop, PartialEq, Eq)]
pub enum ProofTextForm {
    /// `--normal`: a list of labels.
    Normal,
    /// `--compressed`: labels and letters.
    Compressed,
}

/// Why the words of a command line are not parsed.
#[derive(Drop)]
pub enum CommandLineFault {
    /// They are a bad command line, or ask for help. The text is for standard error.
    Bad { text: String },
    /// An allocation failed.
    Memory,
}

impl From<AllocError> for CommandLineFault {
    fn from(_error: AllocError) -> CommandLineFault {
        CommandLineFault::Memory
    }
}
