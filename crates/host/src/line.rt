//! A line of the program, from its words to its status.

ghost use Rattle.std.specs.Prelude.{IfErr};
ghost use Rattle.std.specs.Process.{exit_status};
ghost use Rattle.std.specs.Result.{result_map_both};
ghost use Rattle.host.specs.Lines.{AreLent, EndsBy, IsLost};

use command_line::{Failure, Files, execute, is_explained, report_failure};
use std::alloc::Global;
use std::env::{Args, Env};
use std::io::{ErrorKind, Read, Write};
use std::process::ExitCode;
use std::sync::Wait;
use std::thread::Threads;
use std::time::Clock;
use std::{env, io};

/// The words of the command line, which begin with the program's name. `--explain` is put behind it where the environment says
/// `NOVACRASH_EXPLAIN=1`, and it isn't there.
///
/// # Errors
/// Memory where memory is refused, and Line where a word isn't UTF-8.
pub fn words<T: Env + AllocGlobal>(rt: &T) -> Result<Vec<String>, Failure>
    ensures { IfErr result IsLost }
{
    let mut words = lent_words(rt.alloc(), env::args(rt))?;
    if is_asked(rt) && !words.is_empty() && !is_explained(&words) {
        let option = String::from_str(rt.alloc(), "--explain")?;
        if words.insert(1, option).is_err() {
            return Err(Failure::Memory);
        }
    }
    Ok(words)
}

/// Whether the environment asks to explain each failure.
fn is_asked<T: Env>(rt: &T) -> bool {
    let mut value = [0];
    matches!(rt.var("NOVACRASH_EXPLAIN", &mut value), Ok(1)) && value == *b"1"
}

/// The words that the system lends, all of them in their order, or why it lends none.
fn lent_words(alloc: Global, lent: io::Result<Args>) -> Result<Vec<String>, Failure>
    ensures { AreLent lent result }
{
    match lent {
        Ok(words) => Ok(words.collect(alloc)?),
        Err(error) if error.kind() == ErrorKind::OutOfMemory => Err(Failure::Memory),
        Err(_) => Err(Failure::Line(String::from_str(
            alloc,
            "error: a word of the command line isn't UTF-8\n",
        )?)),
    }
}

/// Carries out a line by `execute`, and gives its status to the system. Where its words were lost, the lines of that failure go to
/// standard error, no file and no other stream is touched, and the status is the failure's.
pub fn run<T: Threads + Wait + Sync + Clock + AllocGlobal, F: Files, R: Read, W: Write, E: Write>(
    rt: &T,
    words: Result<Vec<String>, Failure>,
    files: &mut F,
    input: &mut R,
    output: &mut W,
    errors: &mut E,
) -> ExitCode
    ensures { EndsBy F.read_gives F.write_gives R.remaining W.contents E.contents (result_map_both (λ found. found.items) (λ lost. lost) words)
        files.old files.new (input.old, output.old) (input.new, output.new) errors.old errors.new (exit_status result) }
{
    match words {
        Ok(words) => {
            let status = execute(rt, rt.alloc(), &words, files, input, output, errors);
            ExitCode::from(status)
        }
        Err(failure) => {
            let _ = report_failure(&failure, errors);
            ExitCode::from(failure.status())
        }
    }
}
