ghost use Rattle.std.specs.Prelude.{◌≡◌, ◌≢◌, Some, None, codes, map, string_bytes, option_and_then, IfOk, IfErr};
ghost use Rattle.std.specs.Option.{option_copied};
ghost use Rattle.clap.specs.Words.{found_of, kind_of, rows_of, subcommand_rows_of};
ghost use Rattle.clap.specs.declared.error.kind.ErrorKind.TheVariants.{OutOfMemory};
ghost use Rattle.chl_words.specs.Asking as asking;
ghost use Rattle.chl_words.specs.Asking.{IsWithinLimits, asked_in, asked_of, asked_by, audit_of, build_of, construction_of, degree_of, grid_of, list_of, near_of, number_in, opening_of, path_of, query_of, rank_of, solve_of, trace_of, upgrade_of, values_in, version_of, workers_of};
ghost use Rattle.chl_words.specs.Reading.{IsRead};
ghost use Rattle.chl_words.specs.declared.asked.AskFault.TheVariants.{Usage};

use crate::asked::{AskFault, Asked, By, Construction, Grid, Name, Version};
use crate::literal::{
    GREATEST_SEED, LATEST_VERSION, LONGEST_SIDE, MOST_PLANTED, MOST_POINTS, MOST_ROOTS,
    MOST_WORKERS, program,
};
use clap::error::ErrorKind;
use clap::{ArgMatches, Error};
use std::alloc::Global;

/// What the words of a command line ask for. The first is the program's own name and isn't judged.
pub fn read_words(alloc: Global, words: &[String]) -> Result<Asked, AskFault>
    ensures ok { IfOk result (λ asked. asked_by (map string_bytes words.now) ≡ Some asked) }
    ensures limits { IfOk result IsWithinLimits }
    ensures usage { IfErr result (λ f. f ≡ Usage → asked_by (map string_bytes words.now) ≡ None) }
{
    let command = program(alloc)?;
    match command.try_get_matches_from(words) {
        Ok(matches) => read_matches(alloc, &matches),
        Err(error) => Err(fault_of(&error)),
    }
}

/// Why there is no command, where clap gives this error.
fn fault_of(error: &Error) -> AskFault
    ensures { result ≡ Usage → kind_of error.now ≢ OutOfMemory }
{
    if error.kind() == ErrorKind::OutOfMemory {
        AskFault::NoMemory
    } else {
        AskFault::Usage
    }
}

/// What the matches of a command line ask for.
fn read_matches(alloc: Global, matches: &ArgMatches<'_>) -> Result<Asked, AskFault>
    ensures { IsRead (asked_in (subcommand_rows_of matches.now)) result }
{
    match matches.subcommand() {
        Some((name, found)) => read_command(alloc, name, found),
        None => Err(AskFault::Usage),
    }
}

/// What the command of this name asks for, with these matches.
fn read_command(alloc: Global, name: &str, found: &ArgMatches<'_>) -> Result<Asked, AskFault>
    ensures { IsRead (asked_of name.now (values_in (rows_of (found_of found.now)))) result }
{
    match name {
        "list" => read_list(alloc, found),
        "build" => read_build(alloc, found),
        "solve" => read_solve(alloc, found),
        "query" => read_query(alloc, found),
        "path" => read_path(alloc, found),
        "trace" => read_trace(alloc, found),
        "near" => read_near(alloc, found),
        "audit" => read_audit(alloc, found),
        "upgrade" => read_upgrade(alloc, found),
        "open" => read_opening(alloc, found),
        "degree" => read_degree(alloc, found),
        "rank" => read_rank(alloc, found),
        "grid" => read_grid(found),
        _ => Err(AskFault::Usage),
    }
}

fn read_list(alloc: Global, found: &ArgMatches<'_>) -> Result<Asked, AskFault>
    ensures { IsRead (list_of (values_in (rows_of (found_of found.now)))) result }
{
    Ok(Asked::List {
        graph: file(alloc, found, "graph")?,
        order: file(alloc, found, "order")?,
    })
}

fn read_build(alloc: Global, found: &ArgMatches<'_>) -> Result<Asked, AskFault>
    ensures { IsRead (build_of (values_in (rows_of (found_of found.now)))) result }
{
    Ok(Asked::Build {
        graph: file(alloc, found, "graph")?,
        order: file(alloc, found, "order")?,
        out: file(alloc, found, "out")?,
        version: version(found)?,
        construction: construction(found)?,
    })
}

fn read_solve(alloc: Global, found: &ArgMatches<'_>) -> Result<Asked, AskFault>
    ensures { IsRead (solve_of (values_in (rows_of (found_of found.now)))) result }
{
    Ok(Asked::Solve {
        graph: file(alloc, found, "graph")?,
        order: file(alloc, found, "order")?,
        pairs: file(alloc, found, "pairs")?,
        construction: construction(found)?,
    })
}

fn read_query(alloc: Global, found: &ArgMatches<'_>) -> Result<Asked, AskFault>
    ensures { IsRead (query_of (values_in (rows_of (found_of found.now)))) result }
{
    Ok(Asked::Query {
        index: file(alloc, found, "index")?,
        pairs: file(alloc, found, "pairs")?,
    })
}

fn read_path(alloc: Global, found: &ArgMatches<'_>) -> Result<Asked, AskFault>
    ensures { IsRead (path_of (values_in (rows_of (found_of found.now)))) result }
{
    Ok(Asked::Path {
        graph: file(alloc, found, "graph")?,
        index: file(alloc, found, "index")?,
        pairs: file(alloc, found, "pairs")?,
    })
}

fn read_trace(alloc: Global, found: &ArgMatches<'_>) -> Result<Asked, AskFault>
    ensures { IsRead (trace_of (values_in (rows_of (found_of found.now)))) result }
{
    Ok(Asked::Trace {
        index: file(alloc, found, "index")?,
        pairs: file(alloc, found, "pairs")?,
    })
}

fn read_near(alloc: Global, found: &ArgMatches<'_>) -> Result<Asked, AskFault>
    ensures { IsRead (near_of (values_in (rows_of (found_of found.now)))) result }
{
    Ok(Asked::Near {
        index: file(alloc, found, "index")?,
        points: file(alloc, found, "points")?,
        from: file(alloc, found, "from")?,
        k: number(found, "k", 1, MOST_POINTS)?,
    })
}

fn read_audit(alloc: Global, found: &ArgMatches<'_>) -> Result<Asked, AskFault>
    ensures { IsRead (audit_of (values_in (rows_of (found_of found.now)))) result }
{
    Ok(Asked::Audit {
        graph: file(alloc, found, "graph")?,
        order: file(alloc, found, "order")?,
        index: file(alloc, found, "index")?,
    })
}

fn read_upgrade(alloc: Global, found: &ArgMatches<'_>) -> Result<Asked, AskFault>
    ensures { IsRead (upgrade_of (values_in (rows_of (found_of found.now)))) result }
{
    Ok(Asked::Upgrade {
        graph: file(alloc, found, "graph")?,
        index: file(alloc, found, "index")?,
        out: file(alloc, found, "out")?,
    })
}

fn read_opening(alloc: Global, found: &ArgMatches<'_>) -> Result<Asked, AskFault>
    ensures { IsRead (opening_of (values_in (rows_of (found_of found.now)))) result }
{
    Ok(Asked::Open {
        graph: file(alloc, found, "graph")?,
        index: file(alloc, found, "index")?,
        edits: file(alloc, found, "edits")?,
        out: file(alloc, found, "out")?,
        version: version(found)?,
    })
}

fn read_degree(alloc: Global, found: &ArgMatches<'_>) -> Result<Asked, AskFault>
    ensures { IsRead (degree_of (values_in (rows_of (found_of found.now)))) result }
{
    Ok(Asked::Degree {
        graph: file(alloc, found, "graph")?,
    })
}

fn read_rank(alloc: Global, found: &ArgMatches<'_>) -> Result<Asked, AskFault>
    ensures { IsRead (rank_of (values_in (rows_of (found_of found.now)))) result }
{
    Ok(Asked::Rank {
        graph: file(alloc, found, "graph")?,
    })
}

fn read_grid(found: &ArgMatches<'_>) -> Result<Asked, AskFault>
    ensures { IsRead (grid_of (values_in (rows_of (found_of found.now)))) result }
{
    Ok(Asked::Grid(Grid {
        side: number(found, "side", 1, LONGEST_SIDE)?,
        seed: number(found, "seed", 0, GREATEST_SEED)?,
        workers: workers(found)?,
    }))
}

/// The name of the file that this option has.
fn file(alloc: Global, found: &ArgMatches<'_>, option: &str) -> Result<Name, AskFault>
    ensures { IsRead (values_in (rows_of (found_of found.now)) option.now) result }
{
    match value(found, option) {
        Some(text) => Ok(Name::new(alloc, text)?),
        None => Err(AskFault::Usage),
    }
}

/// How an index is to be built, by the options that may be left out.
fn construction(found: &ArgMatches<'_>) -> Result<Construction, AskFault>
    ensures { IsRead (construction_of (values_in (rows_of (found_of found.now)))) result }
{
    Ok(Construction {
        by: by(found)?,
        workers: workers(found)?,
        cut: number(found, "cut", 1, MOST_ROOTS)?,
        eta: number(found, "eta", 0, MOST_PLANTED)?,
    })
}

/// Of which version an index file is to be.
fn version(found: &ArgMatches<'_>) -> Result<Version, AskFault>
    ensures { IsRead (version_of (values_in (rows_of (found_of found.now)))) result }
{
    Ok(version_named(number(found, "version", 1, LATEST_VERSION)?))
}

/// The version of this number, 1 or 2.
fn version_named(number: u32) -> Version
    ensures { result ≡ asking.version_named number }
{
    if number == 1 {
        Version::One
    } else {
        Version::Two
    }
}

/// What the option `--by` names.
fn by(found: &ArgMatches<'_>) -> Result<By, AskFault>
    ensures { IsRead (option_and_then asking.by_of (values_in (rows_of (found_of found.now)) (codes "by"))) result }
{
    let word = value(found, "by").ok_or(AskFault::Usage)?;
    by_of(word).ok_or(AskFault::Usage)
}

/// How many workers there are.
fn workers(found: &ArgMatches<'_>) -> Result<u32, AskFault>
    ensures { IsRead (workers_of (values_in (rows_of (found_of found.now)))) result }
{
    number(found, "workers", 1, MOST_WORKERS)
}

/// The number that this option has, between two limits.
fn number(found: &ArgMatches<'_>, option: &str, least: u32, most: u32) -> Result<u32, AskFault>
    ensures { IsRead (number_in least most (values_in (rows_of (found_of found.now)) option.now)) result }
{
    let word = value(found, option).ok_or(AskFault::Usage)?;
    number_of(word, least, most).ok_or(AskFault::Usage)
}

/// The value of this option, as it was written or as its default is.
fn value<'a>(found: &ArgMatches<'a>, option: &str) -> Option<&'a str>
    ensures { option_copied result ≡ values_in (rows_of (found_of found.now)) option.now }
{
    found.get_str(option)
}

/// The construction that a word names.
fn by_of(word: &str) -> Option<By>
    ensures { result ≡ asking.by_of word.now }
{
    match word {
        "plant" => Some(By::Plant),
        "lcc" => Some(By::Lcc),
        "gll" => Some(By::Gll),
        "hybrid" => Some(By::Hybrid),
        _ => None,
    }
}

/// The number between two limits that a word is.
fn number_of(word: &str, least: u32, most: u32) -> Option<u32>
    ensures { result ≡ asking.number_of least most word.now }
{
    let number = any_number_of(word)?;
    if least <= number && number <= most {
        Some(number)
    } else {
        None
    }
}

/// The number below 2^32 that a word is.
fn any_number_of(word: &str) -> Option<u32>
    ensures { result ≡ asking.any_number_of word.now }
{
    word.parse::<u32>().ok()
}
