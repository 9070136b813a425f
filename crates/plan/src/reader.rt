//! Reading the text of a plan.

ghost use Rattle.std.specs.Prelude.{◌≡◌, IfErr, IfOk};
ghost use Rattle.plan.specs.Grammar.{BeginsThrough, IsFirstFault, IsPlan, OnText};
ghost use Rattle.plan.specs.Plans.{PlanView};

use crate::draft::Draft;
use crate::fault::{PlanCode, PlanFault};
use crate::lines::first_line;
use crate::plan::Plan;
use std::alloc::Global;

impl Plan {
    /// The plan whose text this is: lines of words between spaces, where `#` begins a comment and empty
    /// lines are skipped. `layout 1` or `layout 2` may come first, without it the layout is 1. Then come
    /// `inodes N`, `pages N` and `journals N`, from 1 to 64, from the inodes to 240 and from 1 to 8; then
    /// an operation a line, `op K append I VALUE` or `op K rename I J NAME VALUE`. Numbers are decimal, K
    /// and VALUE of 64 bits. A name has 1 to 32 letters, digits, `.`, `_` and `-`, under layout 2 up to 96.
    ///
    /// # Errors
    /// The first line at fault, by its number from 1, with the first rule that it breaks: Line where no
    /// such line may stand there, Twice where an earlier operation has its number, Inode where an inode
    /// isn't there or a name would stay, Name where the name is none. Line after the last line where the
    /// counts haven't all come. Memory at the line of an operation where a growth is refused, with no line
    /// at fault as far as it.
    #[tactic(auto, using(crate::proofs::Reading::nothing_read, crate::proofs::Reading::one_more_read, crate::proofs::Reading::line_at_fault, crate::proofs::Reading::all_read, crate::proofs::Reading::ends_early, crate::proofs::Reading::one_plan, crate::proofs::Reading::refused_is_none))]
    pub fn read(alloc: Global, text: &[u8]) -> Result<Plan, PlanFault>
        ensures ok { IfOk result (IsPlan text.now) }
        ensures only { IfOk result (λ plan. (other : PlanView) → IsPlan text.now other → other ≡ plan) }
        ensures err { IfErr result (λ fault. OnText fault.code (IsFirstFault text.now fault.line fault.code)) }
        ensures memory { IfErr result (λ fault. fault.code ≡ PlanCode.Memory → BeginsThrough text.now fault.line) }
        ensures none { IfErr result (λ fault. OnText fault.code ((plan : PlanView) → ¬ (IsPlan text.now plan))) }
    {
        let mut draft = Draft::Empty;
        let mut rest = text;
        let mut number = 1;
        while let Some((line, after)) = first_line(rest) {
            match draft.with_line(alloc, line) {
                Ok(next) => {
                    draft = next;
                }
                Err(code) => return Err(PlanFault { line: number, code }),
            }
            rest = after;
            number += 1;
        }
        match draft.finished() {
            Some(plan) => Ok(plan),
            None => Err(PlanFault {
                line: number,
                code: PlanCode::Line,
            }),
        }
    }
}
