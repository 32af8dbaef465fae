//! The words of the command line, read by `clap`.

ghost use Rattle.std.specs.Prelude.{◌≡◌, ◌≤◌, ◌<◌, ◌^◌, IfOk, IfErr, IfSome, is_some, false, codes};
ghost use Rattle.clap.specs.Words.{App, Rule, found_of, rows_of, rule_of, subcommand_rows_of, with_rule};
ghost use Rattle.clap.specs.Words.{with_subcommand};
ghost use Rattle.bucket_grid.specs.Grids.{is_grid_size};
ghost use Rattle.command_words.specs.Built.{IsBuilt, IsLine};
ghost use Rattle.command_words.specs.Words.{command_of, gen_command as gen_command_of, program as program_of};
ghost use Rattle.command_words.specs.Words.{AreWordsTaken, alpha_option, flag_in as flag_in_of, flag_of};
ghost use Rattle.command_words.specs.Words.{given_in as given_in_of, grid_option, index_option, most_alpha, most_grid};
ghost use Rattle.command_words.specs.Words.{most_index, most_option, meshing_command, count_option, start_option};
ghost use Rattle.command_words.specs.Words.{number_between as number_between_of, number_in as number_in_of};
ghost use Rattle.command_words.specs.Words.{number_of as number_of_it, parts_command as parts_command_of};
ghost use Rattle.command_words.specs.Words.{workers_option};
ghost use Rattle.command_words.specs.Stops.{AreRefused};
ghost use Rattle.command_words.specs.Tasks.{IsMakingOf, IsTask, IsTaskOf};

use crate::stop::Stop;
use crate::task::{Asked, Drawn, Making, Task, Wanted};
use bucket_grid::Grid;
use clap::error::ErrorKind;
use clap::{Arg, ArgAction, ArgMatches, Command};
use std::alloc::{AllocError, Global};

// The option `--workers`.
fn workers<'a>(alloc: Global) -> Arg<'a>
    ensures rule { rule_of result ≡ workers_option }
    ensures local { result.global ≡ false }
{
    Arg::new(alloc, "workers")
        .long("workers")
        .default_value("1")
        .value_parser(clap::value_parser!(u32).range(1..=64))
}

// The option `--grid`.
fn grid<'a>(alloc: Global) -> Arg<'a>
    ensures rule { rule_of result ≡ grid_option }
    ensures local { result.global ≡ false }
{
    Arg::new(alloc, "grid")
        .long("grid")
        .default_value("4")
        .value_parser(clap::value_parser!(u32).range(1..=16))
}

// A command with one argument more, where there is memory for both.
fn add<'a>(
    command: Result<Command<'a>, AllocError>,
    arg: Arg<'a>,
) -> Result<Command<'a>, AllocError>
    ensures { (app : App) (rule : Rule) → IsBuilt app command.entry → rule_of arg.entry ≡ rule
        → arg.entry.global ≡ false → IsBuilt (with_rule app rule) result }
{
    command?.arg(arg)
}

// A command of this name that makes a mesh.
fn meshing<'a>(alloc: Global, name: &'a str) -> Result<Command<'a>, AllocError>
    ensures { IsBuilt (meshing_command name.now) result }
{
    let command = Ok(Command::new(alloc, name));
    add(add(command, workers(alloc)), grid(alloc))
}

// The command of this name that writes a report.
fn command<'a>(alloc: Global, name: &'a str) -> Result<Command<'a>, AllocError>
    ensures { IsBuilt (command_of name.now) result }
{
    add(meshing(alloc, name), flag(alloc, "order"))
}

// The option `--count`, how many edits a drawn file has.
fn count<'a>(alloc: Global) -> Arg<'a>
    ensures rule { rule_of result ≡ count_option }
    ensures local { result.global ≡ false }
{
    Arg::new(alloc, "count")
        .long("count")
        .required(true)
        .value_parser(clap::value_parser!(u32).range(0..=262_140))
}

// The option `--start`, where the draws of a file start.
fn start<'a>(alloc: Global) -> Arg<'a>
    ensures rule { rule_of result ≡ start_option }
    ensures local { result.global ≡ false }
{
    Arg::new(alloc, "start")
        .long("start")
        .required(true)
        .value_parser(clap::value_parser!(u32).range(0..=2_147_483_647))
}

// The option `--alpha`, a squared radius in sixteenths.
fn alpha<'a>(alloc: Global) -> Arg<'a>
    ensures rule { rule_of result ≡ alpha_option }
    ensures local { result.global ≡ false }
{
    Arg::new(alloc, "alpha")
        .long("alpha")
        .default_value("0")
        .value_parser(clap::value_parser!(u64).range(0..=17_179_869_183))
}

// The option `--most`, how many parts there may be.
fn most_parts<'a>(alloc: Global) -> Arg<'a>
    ensures rule { rule_of result ≡ most_option }
    ensures local { result.global ≡ false }
{
    Arg::new(alloc, "most")
        .long("most")
        .default_value("0")
        .value_parser(clap::value_parser!(u32).range(0..=16_777_216))
}

// The option `--off`, the index of a part.
fn index<'a>(alloc: Global) -> Arg<'a>
    ensures rule { rule_of result ≡ index_option }
    ensures local { result.global ≡ false }
{
    Arg::new(alloc, "off")
        .long("off")
        .value_parser(clap::value_parser!(u32).range(0..=16_777_216))
}

// A flag of this name.
fn flag<'a>(alloc: Global, name: &'a str) -> Arg<'a>
    ensures rule { rule_of result ≡ flag_of name.now }
    ensures local { result.global ≡ false }
{
    Arg::new(alloc, name).long(name).action(ArgAction::SetTrue)
}

// The command `gen`.
fn gen_command<'a>(alloc: Global) -> Result<Command<'a>, AllocError>
    ensures { IsBuilt gen_command_of result }
{
    let command = add(meshing(alloc, "gen"), count(alloc));
    add(add(command, start(alloc)), flag(alloc, "text"))
}

// The command `parts`.
fn parts_command<'a>(alloc: Global) -> Result<Command<'a>, AllocError>
    ensures { IsBuilt parts_command_of result }
{
    let command = add(meshing(alloc, "parts"), alpha(alloc));
    add(add(command, most_parts(alloc)), index(alloc))
}

// A command line with one command more, where there is memory for both.
fn with_command<'a>(
    program: Result<Command<'a>, AllocError>,
    command: Result<Command<'a>, AllocError>,
) -> Result<Command<'a>, AllocError>
    ensures { (line app : App) → IsLine line program.entry → IsBuilt app command.entry
        → IsLine (with_subcommand line app.top) result }
{
    program?.subcommand(command?)
}

// The program's command line.
fn program<'a>(alloc: Global) -> Result<Command<'a>, AllocError>
    ensures { IsLine program_of result }
{
    let program = Ok(Command::new(alloc, "delaunay").subcommand_required(true));
    let program = with_command(program, command(alloc, "mesh"));
    let program = with_command(program, command(alloc, "shape"));
    let program = with_command(program, gen_command(alloc));
    let program = with_command(program, meshing(alloc, "steps"));
    let program = with_command(program, parts_command(alloc));
    let program = with_command(program, meshing(alloc, "near"));
    with_command(program, Ok(Command::new(alloc, "check")))
}

// Whether a flag was given to the command.
fn flag_in(command: &ArgMatches, flag: &str) -> bool
    ensures { result ≡ flag_in_of flag.now (rows_of (found_of command.now)) }
{
    match command.get_str(flag) {
        Some(text) => text == "true",
        None => false,
    }
}

// The number that a text names, if it names one from `least` to `most`, and else `least`.
fn number_between(text: &str, least: u64, most: u64) -> u64
    requires { least ≤ most }
    ensures value { result ≡ number_between_of least most text.now }
    ensures from { least ≤ result }
    ensures within { result ≤ most }
{
    match text.parse::<u64>() {
        Ok(number) if least <= number && number <= most => number,
        _ => least,
    }
}

// The number that was given to an option of the command. `clap` takes none below `least` or above `most`.
fn number_in(command: &ArgMatches, option: &str, least: u64, most: u64) -> u64
    requires { least ≤ most }
    ensures value { result ≡ number_in_of option.now least most (rows_of (found_of command.now)) }
    ensures from { least ≤ result }
    ensures within { result ≤ most }
{
    match command.get_str(option) {
        Some(text) => number_between(text, least, most),
        None => least,
    }
}

// The number that was given to an option of the command, if one was.
fn given_in(command: &ArgMatches, option: &str, most: u64) -> Option<u32>
    requires { most < 2 ^ 32 }
    ensures { result ≡ given_in_of option.now most (rows_of (found_of command.now)) }
{
    match command.get_str(option) {
        Some(text) => Some(number_between(text, 0, most) as u32),
        None => None,
    }
}

// The number that was given to an option of the command that was met.
fn number_of(matches: &ArgMatches, option: &str, least: u64, most: u64) -> u64
    requires { least ≤ most }
    ensures value { result ≡ number_of_it option.now least most (subcommand_rows_of matches.now) }
    ensures from { least ≤ result }
    ensures within { result ≤ most }
{
    match matches.subcommand() {
        Some((_name, command)) => number_in(command, option, least, most),
        None => least,
    }
}

// The workers and the grid of the command that was met; none where there is no grid of the size.
fn making_of(matches: &ArgMatches) -> Option<Making>
    ensures making { IfSome result (IsMakingOf (subcommand_rows_of matches.now)) }
    ensures size { is_some result ≡ is_grid_size (number_of_it (codes "grid") 1 most_grid
        (subcommand_rows_of matches.now)) }
{
    let workers = number_of(matches, "workers", 1, 64) as u32;
    let size = number_of(matches, "grid", 1, 16) as u32;
    match Grid::new(size) {
        Ok(grid) => Some(Making { workers, grid }),
        Err(_) => None,
    }
}

// What parts the command asks for.
fn wanted_in(command: &ArgMatches) -> Wanted
    ensures alpha { result.alpha ≡ number_in_of (codes "alpha") 0 most_alpha (rows_of (found_of command.now)) }
    ensures most { result.most ≡ number_in_of (codes "most") 0 most_index (rows_of (found_of command.now)) }
    ensures off { result.off ≡ given_in_of (codes "off") most_index (rows_of (found_of command.now)) }
{
    Wanted {
        alpha: number_in(command, "alpha", 0, 17_179_869_183),
        most: number_in(command, "most", 0, 16_777_216) as u32,
        off: given_in(command, "off", 16_777_216),
    }
}

// The task of the command that was met, to be done with these workers and this grid.
fn task_of(matches: &ArgMatches, making: Making) -> Task
    requires { IsMakingOf (subcommand_rows_of matches.now) making }
    ensures { IsTaskOf (subcommand_rows_of matches.now) result }
{
    match matches.subcommand() {
        Some((name, command)) => {
            if name == "gen" {
                let drawn = Drawn {
                    count: number_in(command, "count", 0, 262_140) as u32,
                    start: number_in(command, "start", 0, 2_147_483_647) as u32,
                    text: flag_in(command, "text"),
                };
                Task::Draw(making, drawn)
            } else if name == "check" {
                Task::Check
            } else if name == "steps" {
                Task::Step(making)
            } else if name == "parts" {
                Task::Part(making, wanted_in(command))
            } else if name == "near" {
                Task::Query(making)
            } else {
                let asked = Asked {
                    shape: name == "shape",
                    order: flag_in(command, "order"),
                };
                Task::Report(making, asked)
            }
        }
        None => {
            let asked = Asked {
                shape: false,
                order: false,
            };
            Task::Report(making, asked)
        }
    }
}

/// Reads the words of a command line, of which the first is the program's name.
///
/// # Errors
///
/// `Usage` for words that the program does not take, a call for help and a grid of another size included, and `Memory`.
#[inline(never)]
pub fn read_words(alloc: Global, words: &[String]) -> Result<Task, Stop>
    ensures taken { IfOk result (λ task. AreWordsTaken words.now) }
    ensures task { IfOk result (λ task. IsTask words.now task) }
    ensures refused { IfErr result (AreRefused words.now) }
{
    let program = program(alloc)?;
    match program.try_get_matches_from(words) {
        Ok(matches) => {
            let Some(making) = making_of(&matches) else {
                return Err(Stop::Usage);
            };
            Ok(task_of(&matches, making))
        }
        Err(error) => Err(match error.kind() {
            ErrorKind::OutOfMemory => Stop::Memory,
            _ => Stop::Usage,
        }),
    }
}
