//! The request that the words of a command line make.
ghost use Rattle.std.specs.Prelude.{◌≤◌, IfOk};

use crate::grammar::{command_named, commands, matches_of};
use crate::hints::push_hint;
use crate::picture_options::pictured_steps;
use crate::request::{
    CommandLineFault, DatabaseQuestion, PlayOptions, ProofForm, ProofQuestion, ProofTextForm,
    Question, Request, ServeOptions, SiteRequest, WorkRequest,
};
use crate::weights::{WorkerCount, parse_weights};
use clap::error::ErrorKind;
use clap::{ArgMatches, Error};
use finding::{LabelPattern, Pattern, PatternFault, SearchQuery, SearchWords};
use std::alloc::{AllocError, Global};
use synod::{MAX_NODES, Weights};
use text::parse_number;

/// The number of events that the nodes of `play` take, where `--max-events` gives no other.
const DEFAULT_EVENT_LIMIT: u64 = 1_000_000;

/// The greatest number that `--max-events` gives, and the number of events that the nodes of
/// `serve` take.
const MAX_EVENT_LIMIT: u64 = 1 << 32;

/// The greatest work that an entry may count in a session (`serve --live`), where `--max-work` says
/// nothing else.
const LIVE_WORK_LIMIT: u64 = 1_000_000_000;

/// Parses the words of a command line, without the program's own name.
///
/// Errors: `Bad` if they are a bad command line or ask for help; `Memory` if an allocation fails.
pub fn parse_command_line<'a>(
    alloc: Global,
    words: &'a [&'a str],
) -> Result<Request<'a>, CommandLineFault> {
    match matches_of(alloc, words) {
        Ok(matches) => request(alloc, &matches),
        Err(error) => request_of_error(alloc, &error, words),
    }
}

/// Returns the request for the version if the words ask for it, else the fault with its text. The
/// fault of a request for help has the help as its text.
fn request_of_error<'a>(
    alloc: Global,
    error: &Error,
    words: &[&str],
) -> Result<Request<'a>, CommandLineFault> {
    match error.kind() {
        ErrorKind::OutOfMemory => Err(CommandLineFault::Memory),
        ErrorKind::DisplayVersion => Ok(Request::Version),
        ErrorKind::UnknownArgument | ErrorKind::InvalidSubcommand => Err(CommandLineFault::Bad {
            text: with_hint(alloc, error, words)?,
        }),
        _ => Err(CommandLineFault::Bad {
            text: format!(in alloc; "{error}")?,
        }),
    }
}

/// Returns the text of an error, after a hint if a file is among the words.
fn with_hint(alloc: Global, error: &Error, words: &[&str]) -> Result<String, CommandLineFault> {
    let mut text = String::new(alloc);
    push_hint(alloc, words, &mut text)?;
    let message = format!(in alloc; "{error}")?;
    text.push_str(message.as_str())?;
    Ok(text)
}

/// Returns the request that a command makes with its options.
fn request<'a>(alloc: Global, matches: &ArgMatches<'a>) -> Result<Request<'a>, CommandLineFault> {
    match matches.subcommand() {
        Some(("outline", options)) => Ok(Request::Outline {
            name: options.get_str("name"),
        }),
        Some(("work", options)) => Ok(Request::Work(WorkRequest {
            name: options.get_str("name"),
            most: most(alloc, options)?,
        })),
        Some(("pages", options)) => match options.get_str("folder") {
            None | Some("") => Err(invalid_value(alloc, "FOLDER is the path of a folder")),
            Some(folder) => Ok(Request::Pages(SiteRequest {
                folder,
                name: options.get_str("name"),
                assumes_unproved: options.get_flag("assume"),
            })),
        },
        Some(("play", options)) => {
            let played = play_options(alloc, options)?;
            match pictured_steps(alloc, options)? {
                Some(steps) => Ok(Request::Picture {
                    options: played,
                    steps,
                }),
                None => Ok(Request::Play(played)),
            }
        }
        Some(("serve", options)) => Ok(Request::Serve(serve_options(alloc, options)?)),
        Some(("store", options)) => match options.get_str("folder") {
            None | Some("") => Err(invalid_option(
                alloc,
                "store",
                "FOLDER is the path of a folder",
            )),
            Some(folder) => Ok(Request::Store { folder }),
        },
        Some((command, options)) => Ok(Request::Ask(DatabaseQuestion {
            question: question(alloc, command, options)?,
            name: options.get_str("name"),
            assumes_unproved: options.get_flag("assume"),
        })),
        None => Err(no_command(alloc)),
    }
}

/// Returns the nodes that the options of `play` give.
fn play_options(alloc: Global, options: &ArgMatches) -> Result<PlayOptions, CommandLineFault> {
    let nodes = node_count(alloc, "play", options)?;
    Ok(PlayOptions {
        weights: weights(alloc, options, nodes)?,
        event_limit: event_limit(alloc, options)?,
        work_limit: work_limit(alloc, "play", options, None)?,
    })
}

/// Returns the nodes that the options of `serve` give, and how its lines are read.
fn serve_options<'a>(
    alloc: Global,
    options: &ArgMatches<'a>,
) -> Result<ServeOptions<'a>, CommandLineFault> {
    let nodes = node_count(alloc, "serve", options)?;
    let workers = worker_count(alloc, options)?;
    let seed = weather_seed(alloc, options)?;
    let is_live = options.get_flag("live");
    let store = options.get_str("store");
    if store == Some("") {
        return Err(invalid_option(alloc, "serve", "--store is the path of a folder"));
    }
    let default = if is_live { Some(LIVE_WORK_LIMIT) } else { None };
    Ok(ServeOptions {
        weights: weights(alloc, options, nodes)?,
        event_limit: MAX_EVENT_LIMIT,
        work_limit: work_limit(alloc, "serve", options, default)?,
        store,
        workers,
        weather_seed: seed,
        is_live,
    })
}

/// Returns the question that a command asks with its options.
fn question<'a>(
    alloc: Global,
    name: &str,
    options: &ArgMatches<'a>,
) -> Result<Question<'a>, CommandLineFault> {
    let label = options.get_str("label").unwrap_or("").as_bytes();
    Ok(match name {
        "check" if options.get_flag("all") => Question::CheckEach,
        "check" => Question::Check,
        "list" => Question::List,
        "export" => Question::Export(proof_text_form(options)),
        "tree" => Question::Tree(label),
        "trace" => Question::Trace(label),
        "usage" => Question::Usage {
            label,
            all: options.get_flag("all"),
        },
        "proof" => Question::Proof(ProofQuestion {
            label,
            essential_only: options.get_flag("essential"),
            form: proof_form(options),
        }),
        "extract" => Question::Extract(labels(alloc, options)?),
        "show" => Question::Show(labels(alloc, options)?),
        "find" => Question::Find(search_query(alloc, options)?),
        _ => return Err(no_command(alloc)),
    })
}

/// Returns the labels that are given.
fn labels<'a>(alloc: Global, options: &ArgMatches<'a>) -> Result<Vec<&'a str>, AllocError> {
    Vec::from_slice(alloc, options.get_strs("labels").unwrap_or(&[]))
}

/// Returns the search that the options of `find` give.
fn search_query<'a>(
    alloc: Global,
    options: &ArgMatches<'a>,
) -> Result<SearchQuery<'a>, CommandLineFault> {
    let text = options.get_str("pattern").unwrap_or("");
    if options.get_flag("words") {
        return match SearchWords::new(text) {
            Some(words) => Ok(SearchQuery::Words(words)),
            None => Err(invalid_value(alloc, "a word is wanted")),
        };
    }
    if options.get_flag("labels") {
        if text.is_empty() {
            return Err(invalid_value(alloc, "a pattern of labels is wanted"));
        }
        return Ok(SearchQuery::Labels(LabelPattern::new(text)));
    }
    match Pattern::parse(alloc, text) {
        Ok(pattern) if options.get_flag("hypotheses") => Ok(SearchQuery::WithHypotheses(pattern)),
        Ok(pattern) => Ok(SearchQuery::Pattern(pattern)),
        Err(PatternFault::UnknownWord(_)) => Err(invalid_value(
            alloc,
            "a word of a pattern is $?, $* or a symbol, which has no $",
        )),
        Err(PatternFault::NoSymbol) => Err(invalid_value(alloc, "a pattern has a symbol")),
        Err(PatternFault::Memory) => Err(CommandLineFault::Memory),
    }
}

/// Returns the form that the options of `proof` give.
fn proof_form(options: &ArgMatches) -> ProofForm {
    if let Some(form) = proof_text_form(options) {
        ProofForm::Text(form)
    } else if options.get_flag("so-far") {
        ProofForm::SoFar
    } else if options.get_flag("dot") {
        ProofForm::Picture
    } else if options.get_flag("html") {
        ProofForm::Page
    } else {
        ProofForm::Steps
    }
}

/// Returns the form of proofs as text that the options give, if they give one.
fn proof_text_form(options: &ArgMatches) -> Option<ProofTextForm> {
    if options.get_flag("normal") {
        Some(ProofTextForm::Normal)
    } else if options.get_flag("compressed") {
        Some(ProofTextForm::Compressed)
    } else {
        None
    }
}

/// Returns the count of nodes, which is 1 to 9.
fn node_count(alloc: Global, command: &str, options: &ArgMatches) -> Result<u8, CommandLineFault>
    ensures { IfOk result (λ nodes. (1 ≤ nodes) × (nodes ≤ MAX_NODES)) }
{
    if let Some(number) = number(options, "nodes")
        && 1 <= number
        && number <= MAX_NODES as u64
    {
        return Ok(number as u8);
    }
    Err(invalid_option(alloc, command, "--nodes is a number from 1 to 9"))
}

/// Returns the count of workers.
fn worker_count(alloc: Global, options: &ArgMatches) -> Result<WorkerCount, CommandLineFault> {
    match number(options, "workers").and_then(WorkerCount::new) {
        Some(workers) => Ok(workers),
        None => Err(invalid_option(alloc, "serve", "--workers is a number from 1 to 16")),
    }
}

/// Returns the number of events that the nodes of `play` take.
fn event_limit(alloc: Global, options: &ArgMatches) -> Result<u64, CommandLineFault> {
    if options.get_str("max-events").is_none() {
        return Ok(DEFAULT_EVENT_LIMIT);
    }
    match number(options, "max-events") {
        Some(limit) if 1 <= limit && limit <= MAX_EVENT_LIMIT => Ok(limit),
        _ => Err(invalid_option(
            alloc,
            "play",
            "--max-events is a number from 1 to 4294967296",
        )),
    }
}

/// Returns the limit on work that `--max-work` gives, or `default` if it is not given.
fn work_limit(
    alloc: Global,
    command: &str,
    options: &ArgMatches,
    default: Option<u64>,
) -> Result<Option<u64>, CommandLineFault> {
    match options.get_str("max-work") {
        None => return Ok(default),
        Some("none") => return Ok(None),
        Some(_) => {}
    }
    match number(options, "max-work") {
        Some(limit) if limit >= 1 => Ok(Some(limit)),
        _ => Err(invalid_option(
            alloc,
            command,
            "--max-work is a number from 1 to 18446744073709551615, or none",
        )),
    }
}

/// Returns how many theorems `--most` asks for, 0 without the option.
fn most(alloc: Global, options: &ArgMatches) -> Result<u64, CommandLineFault> {
    if options.get_str("most").is_none() {
        return Ok(0);
    }
    match number(options, "most") {
        Some(most) => Ok(most),
        None => Err(invalid_value(alloc, "--most is a number")),
    }
}

/// Returns the seed that `--weather` gives, if it is given.
fn weather_seed(alloc: Global, options: &ArgMatches) -> Result<Option<u64>, CommandLineFault> {
    let Some(text) = options.get_str("weather") else {
        return Ok(None);
    };
    match parse_number(text.as_bytes()) {
        Some(seed) => Ok(Some(seed)),
        None => Err(invalid_option(alloc, "serve", "--weather is a number")),
    }
}

/// Returns the number that an option gives, if it gives one.
pub(crate) fn number(options: &ArgMatches, name: &str) -> Option<u64> {
    parse_number(options.get_str(name)?.as_bytes())
}

/// Returns the weights of `nodes` nodes. Without the option each node has weight 1.
fn weights(alloc: Global, options: &ArgMatches, nodes: u8) -> Result<Weights, CommandLineFault>
    requires { (1 ≤ nodes) × (nodes ≤ MAX_NODES) }
{
    let parsed = match options.get_str("weights") {
        Some(text) => parse_weights(text.as_bytes(), nodes),
        None => Some(Weights::equal(nodes)),
    };
    match parsed {
        Some(weights) => Ok(weights),
        None => Err(CommandLineFault::Bad {
            text: format!(in alloc;
                "bad weights\n--weights needs {nodes} numbers from 1 to 100, parted by commas\n"
            )?,
        }),
    }
}

/// Returns the fault of a bad value, with this text.
pub(crate) fn invalid_value(alloc: Global, text: &str) -> CommandLineFault {
    fault_of_kind(alloc, ErrorKind::InvalidValue, text)
}

/// Returns the fault of a bad value of an option of a command, with this text and the usage of the
/// command.
pub(crate) fn invalid_option(alloc: Global, command: &str, text: &str) -> CommandLineFault {
    match option_refusal_text(alloc, command, text) {
        Ok(text) => CommandLineFault::Bad { text },
        Err(AllocError) => CommandLineFault::Memory,
    }
}

/// Returns the text of `clap` for a bad value of an option of a command.
fn option_refusal_text(alloc: Global, command: &str, text: &str) -> Result<String, AllocError> {
    let error = command_named(alloc, command)?.error(ErrorKind::InvalidValue, text)?;
    format!(in alloc; "{error}")
}

/// Returns the fault of a command line without a command.
fn no_command(alloc: Global) -> CommandLineFault {
    fault_of_kind(alloc, ErrorKind::MissingSubcommand, "a command is wanted")
}

/// Returns the fault of this kind, with this text.
fn fault_of_kind(alloc: Global, kind: ErrorKind, text: &str) -> CommandLineFault {
    match refusal_text(alloc, kind, text) {
        Ok(text) => CommandLineFault::Bad { text },
        Err(AllocError) => CommandLineFault::Memory,
    }
}

/// Returns the text of `clap` for an error of this kind.
fn refusal_text(alloc: Global, kind: ErrorKind, text: &str) -> Result<String, AllocError> {
    let error = commands(alloc)?.error(kind, text)?;
    format!(in alloc; "{error}")
}
