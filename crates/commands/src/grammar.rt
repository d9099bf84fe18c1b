//! The commands of the program and their options.
use crate::script_help::{PLAY_LINES_HELP, SERVE_LINES_HELP};
use clap::{Arg, ArgAction, ArgMatches, Command, Error};
use std::alloc::{AllocError, Global};

/// The version that `--version` prints.
pub const VERSION: &str = "1.0.0";

/// The form of an argument.
enum ArgumentForm {
    /// A label.
    Label,
    /// A pattern, or words to search for.
    Pattern,
    /// The path of a folder.
    Folder,
    /// One or more labels.
    Labels,
    /// An option without a value.
    Flag,
    /// An option without a value, which conflicts with another option.
    FlagWithout(&'static str),
    /// An option without a value, which conflicts with each of these options.
    FlagWithoutAny(&'static [&'static str]),
    /// An option that must be given, with the name of its value.
    Required(&'static str),
    /// An option with the name of its value.
    Optional(&'static str),
    /// An option with the name of its value, which needs another option.
    OptionalWith(&'static str, &'static str),
}

/// An argument or an option of a command.
struct Argument {
    name: &'static str,
    form: ArgumentForm,
    help: &'static str,
}

const LABEL: Argument = Argument {
    name: "label",
    form: ArgumentForm::Label,
    help: "A label of the database; one that begins with - stands after --",
};

const ASSERTION_LABELS: Argument = Argument {
    name: "labels",
    form: ArgumentForm::Labels,
    help: "The labels of assertions; those that begin with - stand after --",
};

const STATEMENT_LABELS: Argument = Argument {
    name: "labels",
    form: ArgumentForm::Labels,
    help: "The labels of statements; those that begin with - stand after --",
};

const PATTERN: Argument = Argument {
    name: "pattern",
    form: ArgumentForm::Pattern,
    help: "Symbols in one argument, $? for any one symbol, $* for any number of symbols",
};

const HYPOTHESES: Argument = Argument {
    name: "hypotheses",
    form: ArgumentForm::FlagWithout("words"),
    help: "Also assertions that have the pattern in one of their $e, which are printed too",
};

const WORDS: Argument = Argument {
    name: "words",
    form: ArgumentForm::Flag,
    help: "PATTERN is words that the description has, in any case of letters",
};

const LABELS: Argument = Argument {
    name: "labels",
    form: ArgumentForm::FlagWithoutAny(&["words", "hypotheses"]),
    help: "PATTERN is a pattern of labels, * for any number of letters: find --labels '*ex*'",
};

const FOLDER: Argument = Argument {
    name: "folder",
    form: ArgumentForm::Folder,
    help: "The folder that the pages are written into, made if it is not there",
};

const NAME: Argument = Argument {
    name: "name",
    form: ArgumentForm::Optional("FILE"),
    help: "A name that stands before each place that is printed, FILE:LINE:COLUMN",
};

const ASSUME: Argument = Argument {
    name: "assume",
    form: ArgumentForm::Flag,
    help: "Take each $p that has no right proof as a $a, and answer for the rest",
};

const CHECK_ALL: Argument = Argument {
    name: "all",
    form: ArgumentForm::Flag,
    help: "Judge every $p by itself, and print each that is not proved",
};

const NODES: Argument = Argument {
    name: "nodes",
    form: ArgumentForm::Required("N"),
    help: "How many nodes there are, 1 to 9",
};

const WORKERS: Argument = Argument {
    name: "workers",
    form: ArgumentForm::Required("W"),
    help: "How many threads check the proofs of one entry, 1 to 16",
};

const WEIGHTS: Argument = Argument {
    name: "weights",
    form: ArgumentForm::Optional("W,W,.."),
    help: "The weight of each node, 1 to 100; else each weighs 1",
};

const MAX_EVENTS: Argument = Argument {
    name: "max-events",
    form: ArgumentForm::Optional("N"),
    help: "How many events the nodes take, 1 to 4294967296; else 1000000",
};

const PLAYED_MAX_WORK: Argument = Argument {
    name: "max-work",
    form: ArgumentForm::Optional("N"),
    help: "The greatest work that an entry may count, or none; else none",
};

const SERVED_MAX_WORK: Argument = Argument {
    name: "max-work",
    form: ArgumentForm::Optional("N"),
    help: "The greatest work that an entry may count, or none; else none, and 1000000000 with --live",
};

const STORE: Argument = Argument {
    name: "store",
    form: ArgumentForm::Optional("FOLDER"),
    help: "The folder in which the nodes keep their library; else it ends with the process",
};

const STORED_FOLDER: Argument = Argument {
    name: "folder",
    form: ArgumentForm::Folder,
    help: "The folder, which no process has open",
};

const MOST: Argument = Argument {
    name: "most",
    form: ArgumentForm::Optional("M"),
    help: "Also the M theorems whose proofs count the most",
};

const WEATHER: Argument = Argument {
    name: "weather",
    form: ArgumentForm::Optional("SEED"),
    help: "Lose, repeat or delay one packet in four, as a generator with this seed draws",
};

const LIVE: Argument = Argument {
    name: "live",
    form: ArgumentForm::Flag,
    help: "Answer each line before the next one is read, and go on after a bad one",
};

const PICTURE: Argument = Argument {
    name: "picture",
    form: ArgumentForm::Flag,
    help: "In place of the answers an SVG picture of the run, of at most 200 steps",
};

const FROM: Argument = Argument {
    name: "from",
    form: ArgumentForm::OptionalWith("N", "picture"),
    help: "The first step of the picture, counted from 0",
};

const EVENTS: Argument = Argument {
    name: "events",
    form: ArgumentForm::OptionalWith("M", "picture"),
    help: "How many steps the picture shows, 1 to 200; else all from the first on",
};

const USAGE_ALL: Argument = Argument {
    name: "all",
    form: ArgumentForm::Flag,
    help: "Also those that use it indirectly",
};

const ESSENTIAL: Argument = Argument {
    name: "essential",
    form: ArgumentForm::Flag,
    help: "Only the steps a reader needs, without the building of syntax",
};

const DOT: Argument = Argument {
    name: "dot",
    form: ArgumentForm::FlagWithout("html"),
    help: "A picture of the steps, for Graphviz",
};

const HTML: Argument = Argument {
    name: "html",
    form: ArgumentForm::Flag,
    help: "A page that stands alone",
};

const NORMAL: Argument = Argument {
    name: "normal",
    form: ArgumentForm::FlagWithoutAny(&["compressed", "essential", "dot", "html"]),
    help: "The $p with its proof in normal form, to paste into a database",
};

const COMPRESSED: Argument = Argument {
    name: "compressed",
    form: ArgumentForm::FlagWithoutAny(&["essential", "dot", "html"]),
    help: "The $p with its proof in compressed form, to paste into a database",
};

const SO_FAR: Argument = Argument {
    name: "so-far",
    form: ArgumentForm::FlagWithoutAny(&[
        "normal",
        "compressed",
        "essential",
        "dot",
        "html",
        "assume",
    ]),
    help: "The steps of an unfinished or wrong proof up to its fault, and what is left to prove",
};

const EXPORT_NORMAL: Argument = Argument {
    name: "normal",
    form: ArgumentForm::FlagWithout("compressed"),
    help: "Each $p with its proof in normal form, in lines of at most 79 bytes",
};

const EXPORT_COMPRESSED: Argument = Argument {
    name: "compressed",
    form: ArgumentForm::Flag,
    help: "Each $p with its proof in compressed form, in lines of at most 79 bytes",
};

/// A command: its name, its usage, its help, and its arguments.
struct CommandDefinition(
    &'static str,
    &'static str,
    &'static str,
    &'static [Argument],
);

const COMMANDS: [CommandDefinition; 16] = [
    CommandDefinition(
        "outline",
        "mmlib outline < DATABASE",
        "Print the statements of the database on standard input, one a line: mmlib outline < set.mm",
        &[NAME],
    ),
    CommandDefinition(
        "check",
        "mmlib check < DATABASE",
        "Check the proofs of the database on standard input: mmlib check < set.mm",
        &[CHECK_ALL, NAME],
    ),
    CommandDefinition(
        "work",
        "mmlib work < DATABASE",
        "Print how much work it is to judge the database on standard input: mmlib work --most 10 < set.mm",
        &[MOST, NAME],
    ),
    CommandDefinition(
        "list",
        "mmlib list < DATABASE",
        "Print the assertions of the database on standard input, one a line: mmlib list < set.mm",
        &[ASSUME, NAME],
    ),
    CommandDefinition(
        "export",
        "mmlib export < DATABASE",
        "Print the database on standard input in the export form: mmlib export < set.mm",
        &[EXPORT_NORMAL, EXPORT_COMPRESSED, ASSUME, NAME],
    ),
    CommandDefinition(
        "tree",
        "mmlib tree LABEL < DATABASE",
        "Print the derivation of a $p of the database on standard input, a node a line: mmlib tree id < set.mm",
        &[LABEL, ASSUME, NAME],
    ),
    CommandDefinition(
        "trace",
        "mmlib trace LABEL < DATABASE",
        "Print the $a (axioms, definitions, syntax) that a $p rests on: mmlib trace id < set.mm",
        &[LABEL, ASSUME, NAME],
    ),
    CommandDefinition(
        "usage",
        "mmlib usage LABEL < DATABASE",
        "Print who cites a statement of the database on standard input: mmlib usage id < set.mm",
        &[LABEL, USAGE_ALL, ASSUME, NAME],
    ),
    CommandDefinition(
        "proof",
        "mmlib proof LABEL < DATABASE",
        "Print the steps of the proof of a $p of the database on standard input: mmlib proof id --essential < set.mm",
        &[
            LABEL, ESSENTIAL, DOT, HTML, NORMAL, COMPRESSED, SO_FAR, ASSUME, NAME,
        ],
    ),
    CommandDefinition(
        "extract",
        "mmlib extract LABEL .. < DATABASE",
        "Print some assertions of the database on standard input, with all that they need: mmlib extract id < set.mm",
        &[ASSERTION_LABELS, ASSUME, NAME],
    ),
    CommandDefinition(
        "show",
        "mmlib show LABEL .. < DATABASE",
        "Print statements of the database on standard input, each with its description and its hypotheses: mmlib show id < set.mm",
        &[STATEMENT_LABELS, ASSUME, NAME],
    ),
    CommandDefinition(
        "find",
        "mmlib find PATTERN < DATABASE",
        "Print the assertions of the database on standard input that have a pattern: mmlib find '( $? -> $? )' < set.mm",
        &[PATTERN, HYPOTHESES, WORDS, LABELS, ASSUME, NAME],
    ),
    CommandDefinition(
        "pages",
        "mmlib pages FOLDER < DATABASE",
        "Write a site of the database on standard input, a page for each assertion: mmlib pages site < set.mm",
        &[FOLDER, ASSUME, NAME],
    ),
    CommandDefinition(
        "play",
        "mmlib play --nodes N < SCRIPT",
        "Drive nodes, event by event, by the lines of a script on standard input: mmlib play --nodes 3 < my.script",
        &[
            NODES,
            WEIGHTS,
            MAX_EVENTS,
            PLAYED_MAX_WORK,
            PICTURE,
            FROM,
            EVENTS,
        ],
    ),
    CommandDefinition(
        "serve",
        "mmlib serve --nodes N --workers W < SCRIPT",
        "Serve the lines of a script on standard input by nodes that are threads: mmlib serve --nodes 3 --workers 2 < my.script",
        &[
            NODES,
            WORKERS,
            WEIGHTS,
            SERVED_MAX_WORK,
            STORE,
            WEATHER,
            LIVE,
        ],
    ),
    CommandDefinition(
        "store",
        "mmlib store FOLDER",
        "Print what each node keeps in a folder of serve --store: mmlib store my.library",
        &[STORED_FOLDER],
    ),
];

/// Returns all commands of the program.
pub fn commands<'a>(alloc: Global) -> Result<Command<'a>, AllocError> {
    let mut program = Command::new(alloc, "mmlib")
        .version(VERSION)
        .about(
            "Formal mathematics in the Metamath language, and replicas of one library.\n\
             A database is read from standard input: mmlib check < set.mm",
        )
        .override_usage("mmlib COMMAND < DATABASE")
        .no_binary_name(true)
        .subcommand_required(true);
    for definition in &COMMANDS {
        program = program.subcommand(command(alloc, definition)?)?;
    }
    Ok(program)
}

/// Returns the commands and options that `clap` finds in the words of a command line.
pub(crate) fn matches_of<'a>(alloc: Global, words: &'a [&'a str]) -> Result<ArgMatches<'a>, Error> {
    commands(alloc)?.try_get_matches_from(words)
}

/// Returns the command with this name, or all commands if there is none.
pub(crate) fn command_named<'a>(alloc: Global, name: &str) -> Result<Command<'a>, AllocError> {
    for definition in &COMMANDS {
        if definition.0 == name {
            return command(alloc, definition);
        }
    }
    commands(alloc)
}

/// Returns the command of `clap` with this definition.
fn command<'a>(alloc: Global, definition: &CommandDefinition) -> Result<Command<'a>, AllocError> {
    let CommandDefinition(name, usage, help, arguments) = *definition;
    let mut command = Command::new(alloc, name).about(help).override_usage(usage);
    match name {
        "play" => command = command.after_help(PLAY_LINES_HELP),
        "serve" => command = command.after_help(SERVE_LINES_HELP),
        _ => {}
    }
    for argument in arguments {
        command = command.arg(clap_argument(alloc, argument)?)?;
    }
    Ok(command)
}

/// Returns the argument or option of `clap`.
fn clap_argument<'a>(alloc: Global, argument: &Argument) -> Result<Arg<'a>, AllocError> {
    let arg = Arg::new(alloc, argument.name).help(argument.help);
    match argument.form {
        ArgumentForm::Label => Ok(arg.required(true).value_name("LABEL")),
        ArgumentForm::Pattern => Ok(
            arg.required(true)
                .value_name("PATTERN")
                .allow_hyphen_values(true),
        ),
        ArgumentForm::Folder => Ok(arg.required(true).value_name("FOLDER")),
        ArgumentForm::Labels => Ok(
            arg.required(true)
                .value_name("LABEL")
                .action(ArgAction::Append)
                .num_args(1..),
        ),
        ArgumentForm::Flag => Ok(flag(arg, argument.name)),
        ArgumentForm::FlagWithout(other) => flag(arg, argument.name).conflicts_with(other),
        ArgumentForm::FlagWithoutAny(others) => flag(arg, argument.name).conflicts_with_all(others),
        ArgumentForm::Required(value) => Ok(option(arg, argument.name, value).required(true)),
        ArgumentForm::Optional(value) => Ok(option(arg, argument.name, value)),
        ArgumentForm::OptionalWith(value, other) => option(arg, argument.name, value).requires_arg(
            other,
        ),
    }
}

/// Makes an option without a value.
fn flag<'a>(arg: Arg<'a>, name: &'static str) -> Arg<'a> {
    arg.long(name).action(ArgAction::SetTrue)
}

/// Makes an option with a value.
fn option<'a>(arg: Arg<'a>, name: &'static str, value: &'static str) -> Arg<'a> {
    arg.long(name).value_name(value).action(ArgAction::Set)
}
