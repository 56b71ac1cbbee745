// The program: it reads its arguments and files, and prints what the library makes of them.
#![tactic(auto)]

use check_text::check_report;
use console::describe::universe_report;
use console::failure::Failure;
use console::hex::parse_hex;
use harbour::universe_file;
use model::order::Order;
use options::{
    Command, Fault, Flag, Given, HostOptions, Layers, Reason, parse_options, plain_place,
};
use pile_runs::command::run_command_report;
use piles::host_command_report;
use planner::plan::MOST_LINES;
use planning::closing_text::closing_report;
use planning::plan_lines::plan_lines;
use runs::request::Request;
use scripts::{
    NoOrder, PackFault, lines_report, pack_orders, pack_text, parse_orders, refusal_text,
    script_bytes, script_lines,
};
use std::alloc::AllocError;
use std::process::ExitCode;
use std::{env, fmt, fs, io, mem};

const USAGE: &str = "usage:
  sengoruwa demo                 the harbour example from beginning to end
  sengoruwa universe UNIVERSE    show the universe that a packed file holds
  sengoruwa closing UNIVERSE     show its closing order: the pairs that can be reached, by rank
  sengoruwa plan UNIVERSE GOAL [--room N] [--out FILE]
                                 plan a goal, and show the script; --out also writes it packed
  sengoruwa check UNIVERSE SCRIPT
                                 check a packed script: replay it from empty, before any host is given an order
  sengoruwa lines SCRIPT         show the orders of a packed script
  sengoruwa pack ORDERS FILE     pack the orders of a text file into a script
  sengoruwa host UNIVERSE ORDERS [OPTIONS]
                                 give the orders of a text file to a fresh host, one by one
  sengoruwa run UNIVERSE GOAL [OPTIONS] [--steps N]
  sengoruwa run UNIVERSE --script SCRIPT [OPTIONS] [--steps N]
                                 plan the goal, or take the packed script, check it, start it on a fresh host, take N
                                 steps, and finish
A goal is its bytes in hexadecimal digits, as 24, or @PATH for a file of these bytes: for each line type 4 bits, state 3,
one zero bit. --room N (11136) is how many lines the script may have.
The options of a host: --instances N (256), --bindings N (2048), the most that may stand; --delay D (0), how many
orders are put off before each that is not; --layers WORD, a letter for each layer from the bottom up: v or vv.
--steps N, up to 1048576: as many steps are taken; without it lines × (longest wait + 1), the delay being the longest wait.
An order is written as one of: c INSTANCE TYPE (create), b PORT PROVIDER REQUIRER (bind),
s INSTANCE STATE (change), u PORT PROVIDER REQUIRER (unbind), d INSTANCE (delete).";

// How the program was called wrongly, and what to do.
#[derive(Clone, Copy)]
enum Misuse<'a> {
    NoCommand,
    NoSuchCommand(&'a str),
    Words(&'a str),
    Unreadable(&'a str),
    Unwritable(&'a str),
    NoScript(&'a str),
    NoOrder { line: usize, path: &'a str },
    NoGoal(&'a str),
    Option { word: &'a str, reason: Reason },
}

impl fmt::Display for Misuse<'_> {
    fn fmt<W: fmt::Write>(&self, f: &mut fmt::Formatter<W>) -> fmt::Result {
        match self {
            Misuse::NoCommand => f.write_str(USAGE),
            Misuse::NoSuchCommand(word) => write!(f, "'{word}' is no command\n{USAGE}"),
            Misuse::Words(wanted) => f.write_str(wanted),
            Misuse::Unreadable(path) => {
                write!(f, "cannot read '{path}': name a file that can be read")
            }
            Misuse::Unwritable(path) => {
                write!(f, "cannot write '{path}': name a file that can be written")
            }
            Misuse::NoScript(path) => write!(
                f,
                "'{path}' is no script: its length is no multiple of four bytes, as many as a line has"
            ),
            Misuse::NoOrder { line, path } => write!(
                f,
                "line {line} of '{path}' writes no order: write one as c 0 1, b 0 0 1, s 0 1, u 0 0 1 or d 0, with single blanks and nothing behind it"
            ),
            Misuse::NoGoal(word) => write!(
                f,
                "'{word}' is no goal: write its bytes in hexadecimal digits, as 24, or @PATH for a file of them"
            ),
            Misuse::Option { word, reason } => write!(f, "'{word}' {}", fault_text(*reason)),
        }
    }
}

// Why a command ends before it is done.
#[derive(Drop)]
enum Stop<'a> {
    // It is refused: the text is printed on standard output.
    Refused(String),
    // It is called wrongly: the message is printed on standard error.
    Misused(Misuse<'a>),
    // Memory has run out.
    NoMemory,
    // Standard output cannot be written.
    Unprinted(io::Error),
}

impl<'a> From<Misuse<'a>> for Stop<'a> {
    fn from(misuse: Misuse<'a>) -> Stop<'a> {
        Stop::Misused(misuse)
    }
}

impl From<String> for Stop<'_> {
    fn from(refusal: String) -> Self {
        Stop::Refused(refusal)
    }
}

impl From<AllocError> for Stop<'_> {
    fn from(_: AllocError) -> Self {
        Stop::NoMemory
    }
}

impl From<io::Error> for Stop<'_> {
    fn from(error: io::Error) -> Self {
        Stop::Unprinted(error)
    }
}

impl<'a, E: Into<Stop<'a>>> From<Failure<E>> for Stop<'a> {
    fn from(failure: Failure<E>) -> Stop<'a> {
        match failure.into_refusal() {
            Ok(refusal) => refusal.into(),
            Err(error) => error.into(),
        }
    }
}

// The bytes of a file.
fn read_file<'a>(rt: &HostRuntime, path: &'a str) -> Result<Vec<u8>, Misuse<'a>> {
    fs::read(rt, path).map_err(|_| Misuse::Unreadable(path))
}

fn show_universe<'a>(rt: &HostRuntime, path: &'a str) -> Result<(), Stop<'a>> {
    let bytes = read_file(rt, path)?;
    Ok(rt.print(universe_report(rt.alloc(), &bytes)?)?)
}

fn show_closing<'a>(rt: &HostRuntime, path: &'a str) -> Result<(), Stop<'a>> {
    let bytes = read_file(rt, path)?;
    Ok(rt.print(closing_report(rt.alloc(), &bytes)?)?)
}

// The lines of a script file.
fn read_script<'a>(rt: &HostRuntime, path: &'a str) -> Result<Vec<u32>, Stop<'a>> {
    let bytes = read_file(rt, path)?;
    let lines = script_lines(rt.alloc(), &bytes).map_err(|failure| failure.map(|_| Misuse::NoScript(
        path,
    )))?;
    Ok(lines)
}

fn show_lines<'a>(rt: &HostRuntime, path: &'a str) -> Result<(), Stop<'a>> {
    let lines = read_script(rt, path)?;
    Ok(rt.print(lines_report(rt.alloc(), &lines)?)?)
}

fn show_check<'a>(rt: &HostRuntime, universe: &'a str, script: &'a str) -> Result<(), Stop<'a>> {
    let universe = read_file(rt, universe)?;
    let lines = read_script(rt, script)?;
    Ok(rt.print(check_report(rt.alloc(), &universe, &lines)?)?)
}

// The orders of a text file.
fn read_orders<'a>(rt: &HostRuntime, path: &'a str) -> Result<Vec<Order>, Stop<'a>> {
    let text = read_file(rt, path)?;
    let orders = parse_orders(rt.alloc(), &text).map_err(|failure| failure.map(|NoOrder {
        line,
    }| Misuse::NoOrder { line, path }))?;
    Ok(orders)
}

// Packs the orders and writes the script; an order that does not fit leaves the file as it was.
fn pack<'a>(rt: &HostRuntime, orders: &'a str, path: &'a str) -> Result<(), Stop<'a>> {
    let alloc = rt.alloc();
    let orders = read_orders(rt, orders)?;
    let bytes = match pack_orders(alloc, &orders) {
        Ok(bytes) => bytes,
        Err(failure) => {
            let PackFault { refusal, place } = failure.into_refusal()?;
            let text = refusal_text(alloc, refusal.number(), place)?;
            return Err(Stop::Refused(text));
        }
    };
    fs::write(rt, path, bytes.as_slice()).map_err(|_| Misuse::Unwritable(path))?;
    Ok(rt.print(pack_text(alloc, orders.len())?)?)
}

// What is wrong with an option, and what to do.
fn fault_text(reason: Reason) -> &'static str {
    match reason {
        Reason::Unknown => {
            "is no option of the command: sengoruwa with no words prints all commands and options"
        }
        Reason::Twice(_) => "is given twice: give each option once",
        Reason::NoValue(_) => "has no value: write it behind the option",
        Reason::BadValue(Flag::Layers) => {
            "is no word for --layers: write v or vv, or an empty word for none"
        }
        Reason::BadValue(Flag::Steps) => {
            "is no number for --steps: write decimal digits, up to 1048576"
        }
        Reason::BadValue(Flag::Instances) => {
            "is no number for --instances: write decimal digits, up to 4294967295"
        }
        Reason::BadValue(Flag::Bindings) => {
            "is no number for --bindings: write decimal digits, up to 4294967295"
        }
        Reason::BadValue(Flag::Delay) => {
            "is no number for --delay: write decimal digits, up to 4294967295"
        }
        Reason::BadValue(Flag::Room) => {
            "is no number for --room: write decimal digits, up to 4294967295"
        }
        Reason::BadValue(_) => "is no value of the option",
    }
}

// The word at the place, or the option whose value is missing there.
fn fault_word(words: &[String], fault: Fault) -> &str {
    match (words.get(fault.place), fault.reason) {
        (Some(word), _) => word.as_str(),
        (None, Reason::NoValue(flag)) => flag.as_str(),
        (None, _) => "",
    }
}

// The option among the words that cannot be used, and why.
fn misused_option(words: &[String], fault: Fault) -> Misuse<'_> {
    Misuse::Option {
        word: fault_word(words, fault),
        reason: fault.reason,
    }
}

// The plain word that has so many plain words before it.
fn plain_word(words: &[String], nth: usize) -> Option<&str> {
    let word = words.get(plain_place(words, nth)?)?;
    Some(word.as_str())
}

// The command's options among the words.
fn command_options(command: Command, words: &[String]) -> Result<Given, Misuse<'_>> {
    parse_options(command, words).map_err(|fault| misused_option(words, fault))
}

// The plain words of a command that has two; else what is wanted.
fn two_words<'a>(words: &'a [String], wanted: &'a str) -> Result<(&'a str, &'a str), Misuse<'a>> {
    match (
        plain_word(words, 0),
        plain_word(words, 1),
        plain_word(words, 2),
    ) {
        (Some(first), Some(second), None) => Ok((first, second)),
        _ => Err(Misuse::Words(wanted)),
    }
}

// Gives the orders of a text file to a fresh host of the universe.
fn host<'a>(rt: &HostRuntime, words: &'a [String]) -> Result<(), Stop<'a>> {
    let given = command_options(Command::Host, words)?;
    let (universe, orders) = two_words(
        words,
        "host: name a universe file and a text file of orders",
    )?;
    let universe = read_file(rt, universe)?;
    let orders = read_orders(rt, orders)?;
    Ok(rt.print(host_command_report(rt.alloc(), &universe, given.host_options(), &orders)?)?)
}

// The bytes of a goal, from the word or from the file that it names.
fn read_goal<'a>(rt: &HostRuntime, word: &'a str) -> Result<Vec<u8>, Stop<'a>> {
    if let Some(path) = word.strip_prefix("@") {
        return Ok(read_file(rt, path)?);
    }
    let bytes = parse_hex(rt.alloc(), word.as_bytes()).map_err(|failure| failure.map(
        |_| Misuse::NoGoal(word),
    ))?;
    Ok(bytes)
}

// Plans the goal, writes the script to the file that an option names, and shows it.
fn plan<'a>(rt: &HostRuntime, words: &'a [String]) -> Result<(), Stop<'a>> {
    let given = command_options(Command::Plan, words)?;
    let (universe, goal) = two_words(words, "plan: name a universe file and a goal")?;
    let universe = read_file(rt, universe)?;
    let goal = read_goal(rt, goal)?;
    let room = given.room.map_or(MOST_LINES, |room| room as usize);
    let lines = plan_lines(rt.alloc(), &universe, &goal, room)?;
    if let Some(path) = given.out.and_then(|place| words.get(place)) {
        let bytes = script_bytes(rt.alloc(), &lines)?;
        fs::write(rt, path.as_str(), bytes.as_slice()).map_err(|_| Misuse::Unwritable(
            path.as_str(),
        ))?;
    }
    Ok(rt.print(lines_report(rt.alloc(), &lines)?)?)
}

// What the command `run` wants.
const RUN_WORDS: &str =
    "run: name a universe file, and either a goal or --script with a packed script, not both";

// The plain words of the command `run`, one or two.
fn one_or_two_words(words: &[String]) -> Result<(&str, Option<&str>), Misuse<'_>> {
    match (
        plain_word(words, 0),
        plain_word(words, 1),
        plain_word(words, 2),
    ) {
        (Some(first), second, None) => Ok((first, second)),
        _ => Err(Misuse::Words(RUN_WORDS)),
    }
}

// Runs the request on a fresh host of the universe.
fn show_run<'a>(
    rt: &HostRuntime,
    universe: &'a str,
    request: Request<'_>,
    given: Given,
) -> Result<(), Stop<'a>> {
    let universe = read_file(rt, universe)?;
    let text = run_command_report(
        rt.alloc(),
        &universe,
        given.host_options(),
        request,
        given.steps,
    )?;
    Ok(rt.print(text)?)
}

// Runs a goal, or the packed script that an option names.
fn run<'a>(rt: &HostRuntime, words: &'a [String]) -> Result<(), Stop<'a>> {
    let given = command_options(Command::Run, words)?;
    let (universe, goal) = one_or_two_words(words)?;
    match (goal, given.script.and_then(|place| words.get(place))) {
        (Some(goal), None) => {
            let goal = read_goal(rt, goal)?;
            show_run(rt, universe, Request::Goal(&goal), given)
        }
        (None, Some(path)) => {
            let lines = read_script(rt, path.as_str())?;
            show_run(rt, universe, Request::Script(&lines), given)
        }
        _ => Err(Stop::Misused(Misuse::Words(RUN_WORDS))),
    }
}

// A slow cloud with one layer that refuses gaps.
const SLOW_HOST: HostOptions = HostOptions {
    instances: 256,
    bindings: 2048,
    delay: 2,
    layers: Layers::Verifying,
};

// Exchanges the last two lines.
fn exchange_last(lines: &mut [u32]) {
    if let [.., before, last] = lines {
        mem::swap(before, last);
    }
}

// Prints the text, also that of a refusal.
fn print_told(
    rt: &HostRuntime,
    told: Result<String, Failure<String>>,
) -> Result<(), Stop<'static>> {
    Ok(rt.print(told.or_else(Failure::into_refusal)?)?)
}

fn demo(rt: &HostRuntime) -> Result<(), Stop<'static>> {
    let alloc = rt.alloc();
    println!(rt; "The harbour universe, read from its file of 68 bytes:")?;
    rt.print(universe_report(alloc, &universe_file())?)?;
    println!(rt; "Its closing order, the pairs that a run can bring about:")?;
    rt.print(closing_report(alloc, &universe_file())?)?;
    println!(rt; "The goal 24, a dispatcher (type 2) that serves (state 2), planned:")?;
    let lines = plan_lines(alloc, &universe_file(), &harbour::goal(), MOST_LINES)?;
    let script = lines_report(alloc, &lines)?;
    rt.print(script.as_str())?;
    println!(rt; "Checked, before any host is given an order:")?;
    print_told(rt, check_report(alloc, &universe_file(), &lines))?;
    println!(rt;
        "Checked with its last two lines exchanged, so that the lock is taken away one line before the dispatcher has left"
    )?;
    println!(rt; "the state that requires it:")?;
    let mut exchanged = lines.clone()?;
    exchange_last(&mut exchanged);
    print_told(rt, check_report(alloc, &universe_file(), &exchanged))?;
    println!(rt;
        "Planned, checked, started, stepped and finished on a slow host, a cloud that puts two orders off (21) before each"
    )?;
    println!(rt; "that it takes, under a layer that refuses gaps; 11 × (2 + 1) steps:")?;
    let request = Request::Goal(&harbour::goal());
    print_told(
        rt,
        run_command_report(alloc, &universe_file(), SLOW_HOST, request, None),
    )
}

// What a command wants that takes files alone; none where there is no such command.
fn words_wanted(command: &str) -> Option<&'static str> {
    match command {
        "demo" => Some("demo: write nothing behind it"),
        "universe" => Some("universe: name one universe file"),
        "closing" => Some("closing: name one universe file"),
        "check" => Some("check: name a universe file and a packed script"),
        "lines" => Some("lines: name one packed script"),
        "pack" => Some("pack: name a text file of orders and the file to write"),
        _ => None,
    }
}

// How the words are wrong, where no command takes them.
fn misused_words(words: &[String]) -> Misuse<'_> {
    let Some(command) = words.first() else {
        return Misuse::NoCommand;
    };
    let command = command.as_str();
    match words_wanted(command) {
        Some(wanted) => Misuse::Words(wanted),
        None => Misuse::NoSuchCommand(command),
    }
}

// Does what the command among the words says.
fn execute<'a>(rt: &HostRuntime, words: &'a [String]) -> Result<(), Stop<'a>> {
    match words {
        [command] if command.as_str() == "demo" => demo(rt),
        [command, file] if command.as_str() == "universe" => show_universe(rt, file.as_str()),
        [command, file] if command.as_str() == "closing" => show_closing(rt, file.as_str()),
        [command, rest @ ..] if command.as_str() == "plan" => plan(rt, rest),
        [command, universe, script] if command.as_str() == "check" => {
            show_check(rt, universe.as_str(), script.as_str())
        }
        [command, file] if command.as_str() == "lines" => show_lines(rt, file.as_str()),
        [command, orders, file] if command.as_str() == "pack" => {
            pack(rt, orders.as_str(), file.as_str())
        }
        [command, rest @ ..] if command.as_str() == "host" => host(rt, rest),
        [command, rest @ ..] if command.as_str() == "run" => run(rt, rest),
        _ => Err(Stop::Misused(misused_words(words))),
    }
}

fn main(rt: HostRuntime) -> anyhow::Result<ExitCode> {
    let words: Vec<String> = env::args(&rt)?.skip(1).collect(rt.alloc())?;
    match execute(&rt, &words) {
        Ok(()) => return Ok(ExitCode::SUCCESS),
        Err(Stop::Refused(text)) => rt.print(text)?,
        Err(Stop::Misused(misuse)) => eprintln!(&rt; "{misuse}")?,
        Err(Stop::NoMemory) => {
            eprintln!(&rt; "memory has run out: take fewer steps, or give the program more")?
        }
        Err(Stop::Unprinted(error)) => eprintln!(&rt; "cannot write standard output: {error}")?,
    }
    Ok(ExitCode::FAILURE)
}
