// Tables of worked cases: a data file with a row `label = input` in each line.
use console::failure::Failure;
use std::alloc::{AllocError, Global};
use std::{fmt, fs};

// What a row lacks of what its table has.
#[derive(Clone, Copy)]
pub(crate) enum Lack {
    Digits,
    Bar,
    Universe,
    Options,
    Orders,
    // One of the words of a table of plans, drafts or runs.
    Word,
}

// The line of what a row lacks.
impl fmt::Display for Lack {
    fn fmt<W: fmt::Write>(&self, f: &mut fmt::Formatter<W>) -> fmt::Result {
        f.write_str(match self {
            Lack::Digits => "a row with no digits",
            Lack::Bar => "a row with no bar",
            Lack::Universe => "a row with no universe",
            Lack::Options => "a row with no options",
            Lack::Orders => "a row with no orders",
            Lack::Word => "a row that cannot be read",
        })
    }
}

// Such a row is refused.
impl From<Lack> for Failure<Lack> {
    fn from(lack: Lack) -> Failure<Lack> {
        Failure::Refused(lack)
    }
}

// What was made of a row; where that was refused, what the row lacks.
pub(crate) fn unless_lacking<T, E: Drop>(
    made: Result<T, Failure<E>>,
    lack: Lack,
) -> Result<T, Failure<Lack>> {
    made.map_err(|failure| failure.map(|_| lack))
}

// The text of a report, be it of a refusal.
pub(crate) fn report_text(report: Result<String, Failure<String>>) -> Result<String, AllocError> {
    report.or_else(Failure::into_refusal)
}

// Prints the text that is made of a row, or what the row lacks.
fn print_text(rt: &HostRuntime, text: Result<String, Failure<Lack>>) -> anyhow::Result<()> {
    match text {
        Ok(text) => Ok(rt.print(text)?),
        Err(failure) => {
            let lack = failure.into_refusal()?;
            Ok(println!(rt; "{lack}")?)
        }
    }
}

// Prints the name of a table, and of each row of its file the label and the text that is made of the input.
// No `ensures`: none can speak of what a file gives or a stream takes.
pub(crate) fn show_table<F: Fn(Global, &str) -> Result<String, Failure<Lack>>>(
    rt: &HostRuntime,
    name: &str,
    text_of: F,
) -> anyhow::Result<()>
    requires { F.IsAlwaysCallable text_of }
{
    println!(rt; "{name}")?;
    let path = format!(in rt.alloc(); "{name}.txt")?;
    let rows = fs::read_to_string(rt, path.as_str())?;
    for row in rows.as_str().lines() {
        let Some((label, input)) = row.split_once(" = ") else {
            println!(rt; "a row with no input")?;
            continue;
        };
        println!(rt; "{label}:")?;
        print_text(rt, text_of(rt.alloc(), input))?;
    }
    Ok(())
}
