//! The command line.

use clap::builder::ValueParser;
use clap::{Arg, ArgAction, ArgMatches, Command, Error, value_parser};
use std::alloc::Global;

/// The version of the library, as CHANGELOG has it.
const VERSION: &str = "0.1.0";

/// What the program is to do.
#[derive(Clone, Copy)]
pub struct Request<'a> {
    /// The folder of the pages.
    pub source: &'a str,
    /// The folder of the documents.
    pub output: &'a str,
    /// Whether a document may replace a file that is no document.
    pub is_forced: bool,
    /// How many threads there are.
    pub jobs: usize,
    /// What is done with them.
    pub work: Work,
}

/// Whether the pages are built once.
#[derive(Clone, Copy)]
pub enum Work {
    /// Once.
    Build,
    /// Whenever they change.
    Watch {
        /// Whether it is said why a page is rendered again.
        explains: bool,
        /// How many times the folder is looked at; `None` for ever.
        rounds: Option<u64>,
    },
}

/// The arguments that each subcommand has.
fn with_folders<'a>(alloc: Global, command: Command<'a>) -> Result<Command<'a>, Error> {
    let source = Arg::new(alloc, "SOURCE")
        .help("The folder of the pages, which are its .md and .txt files")
        .value_parser(ValueParser::NonEmptyString)
        .required(true);
    let output = Arg::new(alloc, "OUTPUT")
        .help(
            "The folder of the documents, which is made if it is missing. Documents of pages that are gone stay",
        )
        .value_parser(ValueParser::NonEmptyString)
        .required(true);
    let force = Arg::new(alloc, "force")
        .long("force")
        .help("Replaces files that site did not write, too")
        .action(ArgAction::SetTrue);
    let jobs = Arg::new(alloc, "jobs")
        .long("jobs")
        .short('j')
        .value_name("N")
        .help("Renders pages by N threads")
        .value_parser(value_parser!(u16).range(1..=256))
        .default_value("4");
    Ok(command.arg(source)?.arg(output)?.arg(force)?.arg(jobs)?)
}

/// The whole command.
pub fn command<'a>(alloc: Global) -> Result<Command<'a>, Error> {
    let build = Command::new(alloc, "build").about("Builds all pages, and writes what changed");
    let watch = Command::new(alloc, "watch").about("Looks once a second, and builds on a change");
    let explain = Arg::new(alloc, "explain")
        .long("explain")
        .help("Says why a page is rendered again")
        .action(ArgAction::SetTrue);
    let rounds = Arg::new(alloc, "rounds")
        .long("rounds")
        .value_name("N")
        .help("Ends after N looks")
        .value_parser(value_parser!(u64).range(1..));
    let watch = with_folders(alloc, watch)?.arg(explain)?.arg(rounds)?;
    let command = Command::new(alloc, "site")
        .about("Builds the pages of a folder as HTML")
        .version(VERSION)
        .subcommand_required(true)
        .subcommand(with_folders(alloc, build)?)?
        .subcommand(watch)?;
    Ok(command)
}

impl<'a> Request<'a> {
    /// What the words ask; `None` if there is no subcommand, which the command excludes.
    pub fn of(matches: &ArgMatches<'a>) -> Option<Self> {
        let (name, matches) = matches.subcommand()?;
        let jobs = matches.get_one::<u16>("jobs")?;
        let work = if name == "watch" {
            Work::Watch {
                explains: matches.get_flag("explain"),
                rounds: matches.get_one::<u64>("rounds"),
            }
        } else {
            Work::Build
        };
        Some(Request {
            source: matches.get_str("SOURCE")?,
            output: matches.get_str("OUTPUT")?,
            is_forced: matches.get_flag("force"),
            jobs: usize::from(jobs.max(1)),
            work,
        })
    }
}
