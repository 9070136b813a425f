//! What is printed of a run that isn't whole.

ghost use Rattle.report.specs.Causes.{cause_line, unfinished_text};
ghost use Rattle.report.specs.Places.{origin_in};
ghost use Rattle.std.specs.Prelude.{◌≡◌, ◌++◌, IfOk, OnOk, string_bytes};

use crate::place::{CodePlace, Places};
use hart::Status;
use std::alloc::{AllocError, Global};
use std::fmt;
use std::fmt::Write;
use unfinished::Unfinished;

/// A line for each of these, as `not whole: h0 running pc=0x10014 line=6` or `not whole: operation 2 is pending`.
#[tactic(auto, using(crate::proofs::Lines::cause_more, crate::proofs::Lines::causes_all))]
pub fn unfinished_text(
    alloc: Global,
    causes: &[Unfinished],
    places: &Places<'_>,
) -> Result<String, AllocError>
    ensures { IfOk result (λ text. string_bytes text ≡ unfinished_text (origin_in places.now) causes.now) }
{
    let mut text = String::new(alloc);
    for cause in causes {
        tell_cause(&mut text, *cause, places)?;
    }
    Ok(text)
}

fn tell_cause(text: &mut String, cause: Unfinished, places: &Places<'_>) -> Result<(), AllocError>
    ensures { OnOk result (string_bytes text.new ≡ string_bytes text.old ++ cause_line (origin_in places.now) cause) }
{
    match cause {
        Unfinished::Hart { hart, status, pc } => {
            let at = places.at(pc);
            let standing = Standing { status, at };
            writeln!(text, "not whole: h{hart} {standing}")
        }
        Unfinished::Pending { op } => writeln!(text, "not whole: operation {op} is pending"),
        Unfinished::NeverBegan { op } => writeln!(text, "not whole: operation {op} never began"),
    }
}

/// A hart's status, and where it stands if it runs or has trapped.
#[derive(Clone, Copy)]
struct Standing<'a> {
    status: Status,
    at: CodePlace<'a>,
}

impl fmt::Display for Standing<'_> {
    ghost use Rattle.std.specs.Prelude.{Some};
    ghost use Rattle.report.specs.Causes.{standing_text};
    ghost use Rattle.report.specs.Places.{known_code};

    ghost output = { λ standing. Some (standing_text standing.status (known_code standing.at)) };

    fn fmt<W: fmt::Write>(&self, f: &mut fmt::Formatter<W>) -> fmt::Result {
        let at = self.at;
        match self.status {
            Status::Running => write!(f, "running{at}"),
            Status::Exited(code) => write!(f, "exit {code}"),
            Status::Trapped(trap) => write!(f, "trap T{}{at}", trap.number()),
        }
    }
}
