// Runs every case of the files beside it through the functions that C calls, and compares each number of the answer and each byte of the outputs. Writes a line
// for each file, and before it the file's first difference, if there is one. The answers of take-kernels.txt are published ones: the file keeps them byte
// for byte, and `main`, which names it, has them compared with zeros below nulls (published.rt). One line more says how many had other bytes there.
#![tactic(auto)]

mod batch; // batch.rt: the columns of a case that has several
mod case; // case.rt: a case, run and compared
mod column; // column.rt: the column of a case that has one
mod published; // published.rt: a published answer, with zeros below its nulls
mod report; // report.rt: differences, and what is written of them
mod text; // text.rt: the fields of a line

use case::Case;
use published::run_published;
use report::{Failure, Tally};
use std::alloc::Global;
use std::rt::Files;
use std::{fs, io};

fn run(alloc: Global, line: &[u8], _: &mut Tally<'_>) -> Result<(), Failure> {
    Case::read(alloc, line)?.run(alloc)
}

// Takes in each line: an empty one, a comment, or a case, which `run` runs.
fn run_text<R: AllocGlobal + Print, F>(
    rt: &R,
    mut tally: Tally<'_>,
    text: &[u8],
    run: F,
) -> io::Result<()>
where
    F: Fn(Global, &[u8], &mut Tally<'_>) -> Result<(), Failure>,
    requires { F.IsAlwaysCallable run }
{
    for (i, line) in text.split(|byte| *byte == b'\n').enumerate() {
        if line.is_empty() || line.starts_with(b"#") {
            continue;
        }
        let came = run(rt.alloc(), line, &mut tally);
        tally.count(rt, i + 1, came)?;
    }
    tally.print(rt)?;
    tally.print_zeroed(rt)
}

// No file is as long as this.
const MOST_TEXT: usize = 262144;

fn run_file<R: Files + AllocGlobal + Print, F>(rt: &R, tally: Tally<'_>, run: F) -> io::Result<()>
where
    F: Fn(Global, &[u8], &mut Tally<'_>) -> Result<(), Failure>,
    requires { F.IsAlwaysCallable run }
{
    let name = tally.name;
    match fs::read(rt, name) {
        Ok(text) if (1..MOST_TEXT).contains(&text.len()) => run_text(rt, tally, &text, run),
        _ => println!(rt; "{name}: missing, empty or too long"),
    }
}

fn main(rt: HostRuntime) -> io::Result<()> {
    run_file(&rt, Tally::new("trials.txt"), run)?;
    run_file(&rt, Tally::new("refusals.txt"), run)?;
    run_file(&rt, Tally::new("columnar-format.txt"), run)?;
    run_file(&rt, Tally::new("take-docs.txt"), run)?;
    run_file(&rt, Tally::published("take-kernels.txt"), run_published)?;
    run_file(&rt, Tally::new("null-rows.txt"), run)?;
    run_file(&rt, Tally::new("arrays.txt"), run)
}
