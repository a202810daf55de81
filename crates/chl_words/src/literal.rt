//! The commands and their options, as clap has them. A new command, or a new option of one, is an entry here and one in
//! specs/Literal.
ghost use Rattle.std.specs.Prelude.{map, IfOk};
ghost use Rattle.clap.specs.Words.{App, Rule, Shape, with_rule, with_subcommand};
ghost use Rattle.chl_words.specs.Literal as literal;
ghost use Rattle.chl_words.specs.Literal.{IsOption, IsProgram, command_alone};

use clap::builder::ValueParser;
use clap::{Arg, Command};
use std::alloc::{AllocError, Global};

/// The most workers that a command line may ask for.
pub const MOST_WORKERS: u32 = 64;

/// The most roots that a worker may take at a time.
pub const MOST_ROOTS: u32 = 1 << 30;

/// The most roots of which a hybrid construction may be asked to plant the trees.
pub const MOST_PLANTED: u32 = 1 << 30;

/// The latest version of an index file.
pub const LATEST_VERSION: u32 = 2;

/// The most points that may be asked for.
pub const MOST_POINTS: u32 = 1 << 20;

/// The longest side of a grid.
pub const LONGEST_SIDE: u32 = 256;

/// The greatest seed of a grid's weights.
pub const GREATEST_SEED: u32 = (1 << 31) - 1;

/// How many roots a worker takes at a time, where the command line doesn't say.
const USUAL_ROOTS: &str = "1024";

/// How many roots a hybrid construction plants, where the command line doesn't say.
const USUAL_PLANTED: &str = "16";

/// The program, with a subcommand for each of its commands.
pub fn program<'a>(alloc: Global) -> Result<Command<'a>, AllocError>
    ensures { IfOk result (IsProgram literal.program) }
{
    let bare = Command::new(alloc, "chl")
        .disable_help_flag(true)
        .disable_help_subcommand(true)
        .subcommand_required(true);
    let program = with_command(Ok(bare), files(alloc, "list", &["graph", "order"]));
    let program = with_command(program, build(alloc));
    let program = with_command(program, built(alloc, "solve", &["graph", "order", "pairs"]));
    let program = with_command(program, files(alloc, "query", &["index", "pairs"]));
    let program = with_command(program, files(alloc, "path", &["graph", "index", "pairs"]));
    let program = with_command(program, files(alloc, "trace", &["index", "pairs"]));
    let program = with_command(program, near(alloc));
    let program = with_command(program, files(alloc, "audit", &["graph", "order", "index"]));
    let program = with_command(program, files(alloc, "upgrade", &["graph", "index", "out"]));
    let program = with_command(program, opening(alloc));
    let program = with_command(program, files(alloc, "degree", &["graph"]));
    let program = with_command(program, files(alloc, "rank", &["graph"]));
    with_command(program, grid(alloc))
}

/// A command whose options must all be there, each with the name of a file.
fn files<'a>(alloc: Global, name: &'a str, options: &[&'a str]) -> Result<Command<'a>, AllocError>
    ensures { IfOk result (IsProgram (command_alone (literal.files name.entry.now (map (λ f. f.now) options.entry.now)))) }
{
    let mut command = Ok(Command::new(alloc, name));
    for option in options {
        command = with_option(command, file(alloc, option));
    }
    command
}

/// The same, with the options of a build that may be left out.
fn built<'a>(alloc: Global, name: &'a str, options: &[&'a str]) -> Result<Command<'a>, AllocError>
    ensures { IfOk result (IsProgram (command_alone (literal.built name.entry.now (map (λ f. f.now) options.entry.now)))) }
{
    let command = with_option(files(alloc, name, options), construction(alloc));
    let command = with_option(command, workers(alloc));
    let command = with_option(command, cut(alloc));
    with_option(command, eta(alloc))
}

/// The command that writes an index file, of a version that may be left out.
fn build<'a>(alloc: Global) -> Result<Command<'a>, AllocError>
    ensures { IfOk result (IsProgram (command_alone literal.build)) }
{
    let command = built(alloc, "build", &["graph", "order", "out"]);
    with_option(command, version(alloc))
}

/// The command that says the nearest points, of which it is to be told how many.
fn near<'a>(alloc: Global) -> Result<Command<'a>, AllocError>
    ensures { IfOk result (IsProgram (command_alone literal.near)) }
{
    let command = files(alloc, "near", &["index", "points", "from"]);
    with_option(command, number_needed(alloc, "k", 1, MOST_POINTS))
}

/// The command that writes the index of a graph with more edges, of a version that may be left out.
fn opening<'a>(alloc: Global) -> Result<Command<'a>, AllocError>
    ensures { IfOk result (IsProgram (command_alone literal.opening)) }
{
    let command = files(alloc, "open", &["graph", "index", "edits", "out"]);
    with_option(command, version(alloc))
}

fn grid<'a>(alloc: Global) -> Result<Command<'a>, AllocError>
    ensures { IfOk result (IsProgram (command_alone literal.grid)) }
{
    let side = number_needed(alloc, "side", 1, LONGEST_SIDE);
    let seed = number_needed(alloc, "seed", 0, GREATEST_SEED);
    let command = with_option(Ok(Command::new(alloc, "grid")), side);
    let command = with_option(command, seed);
    with_option(command, workers(alloc))
}

/// A program with one more command. It takes both as the steps before gave them, so that a row of such steps has no branch.
fn with_command<'a>(
    program: Result<Command<'a>, AllocError>,
    command: Result<Command<'a>, AllocError>,
) -> Result<Command<'a>, AllocError>
    ensures { (app : App) (shape : Shape) → IfOk program.entry (IsProgram app) → IfOk command.entry (IsProgram (command_alone shape)) → IfOk result (IsProgram (with_subcommand app shape)) }
{
    program?.subcommand(command?)
}

/// A command with one more option. It takes the command as the step before gave it.
fn with_option<'a>(
    command: Result<Command<'a>, AllocError>,
    option: Arg<'a>,
) -> Result<Command<'a>, AllocError>
    ensures { (app : App) (rule : Rule) → IfOk command.entry (IsProgram app) → IsOption rule option.entry → IfOk result (IsProgram (with_rule app rule)) }
{
    command?.arg(option)
}

/// An option with any text as its value.
fn option<'a>(alloc: Global, name: &'a str) -> Arg<'a>
    ensures { IsOption (literal.option_named name.entry.now) result }
{
    Arg::new(alloc, name).long(name)
}

/// An option that must be there, with the name of a file.
fn file<'a>(alloc: Global, name: &'a str) -> Arg<'a>
    ensures { IsOption (literal.file name.entry.now) result }
{
    option(alloc, name).required(true)
}

/// The option that names a construction.
fn construction<'a>(alloc: Global) -> Arg<'a>
    ensures { IsOption literal.construction result }
{
    option(alloc, "by").default_value("plant")
}

/// The option that says how many workers there are, one where it is left out.
fn workers<'a>(alloc: Global) -> Arg<'a>
    ensures { IsOption literal.workers result }
{
    number(alloc, "workers", 1, MOST_WORKERS, "1")
}

/// The option that says how work is cut: how many roots a batch may have, or how many entries a worker puts at least in a
/// superstep.
fn cut<'a>(alloc: Global) -> Arg<'a>
    ensures { IsOption literal.cut result }
{
    number(alloc, "cut", 1, MOST_ROOTS, USUAL_ROOTS)
}

/// The option that says how many of the first roots a hybrid construction plants.
fn eta<'a>(alloc: Global) -> Arg<'a>
    ensures { IsOption literal.eta result }
{
    number(alloc, "eta", 0, MOST_PLANTED, USUAL_PLANTED)
}

/// The option that says of which version an index file is, the first where it is left out.
fn version<'a>(alloc: Global) -> Arg<'a>
    ensures { IsOption literal.version result }
{
    number(alloc, "version", 1, LATEST_VERSION, "1")
}

/// An option that must be there, with a number between two limits.
fn number_needed<'a>(alloc: Global, name: &'a str, least: u32, most: u32) -> Arg<'a>
    ensures { IsOption (literal.number_needed name.entry.now least most) result }
{
    option(alloc, name)
        .required(true)
        .value_parser(ValueParser::unsigned(u64::from(least), u64::from(most)))
}

/// An option with a number between two limits, and this number where it is left out.
fn number<'a>(alloc: Global, name: &'a str, least: u32, most: u32, default: &'a str) -> Arg<'a>
    ensures { IsOption (literal.number name.entry.now least most default.entry.now) result }
{
    option(alloc, name)
        .value_parser(ValueParser::unsigned(u64::from(least), u64::from(most)))
        .default_value(default)
}
