//! Whether an operation's inodes and its name are allowed.

ghost use Rattle.std.specs.Prelude.{◌≡◌, ◌<◌, List, ℕ, IfErr, IfOk};
ghost use Rattle.plan.specs.Plans.{IsName, longest_name};
ghost use Rattle.plan.specs.Worded.{Allows, Forbids, HoldsInode, HoldsName};

use crate::fault::PlanCode;
use crate::operation::Action;
use crate::operation_line::WordedAction;
use nova_log::{Layout, Name};

/// An inode that is there.
#[tactic(auto, using(crate::proofs::Judgements::inode_there, crate::proofs::Judgements::inode_high, crate::proofs::Judgements::inode_missing))]
fn check_inode(found: Option<u32>, inodes: u32) -> Result<u32, PlanCode>
    ensures ok { IfOk result (λ there. (inode : ℕ) → HoldsInode found inode → (there ≡ inode) × (inode < inodes)) }
    ensures code { IfErr result (λ code. code ≡ PlanCode.Inode) }
    ensures err { IfErr result (λ code. (inode : ℕ) → HoldsInode found inode → ¬ (inode < inodes)) }
{
    let inode = found.ok_or(PlanCode::Inode)?;
    if inode < inodes {
        Ok(inode)
    } else {
        Err(PlanCode::Inode)
    }
}

/// The most bytes of a name.
fn longest_name(layout: Layout) -> usize
    ensures { result ≡ longest_name layout }
{
    layout.shape().longest_name as usize
}

/// A name that the layout allows.
#[tactic(auto, using(crate::proofs::Judgements::name_there, crate::proofs::Judgements::name_long, crate::proofs::Judgements::name_missing))]
fn check_name(found: Option<Name>, layout: Layout) -> Result<Name, PlanCode>
    ensures ok { IfOk result (λ there. (name : List ℕ) → HoldsName found name
        → (there ≡ name) × IsName (longest_name layout) name) }
    ensures code { IfErr result (λ code. code ≡ PlanCode.Name) }
    ensures err { IfErr result (λ code. (name : List ℕ) → HoldsName found name → ¬ (IsName (longest_name layout) name)) }
{
    let name = found.ok_or(PlanCode::Name)?;
    if name.as_bytes().len() <= longest_name(layout) {
        Ok(name)
    } else {
        Err(PlanCode::Name)
    }
}

/// The action, where its inodes are below the count, a name goes to another inode, and the layout allows it.
#[tactic(auto, using(crate::proofs::Judgements::append_allowed, crate::proofs::Judgements::append_forbidden, crate::proofs::Judgements::rename_allowed, crate::proofs::Judgements::rename_no_from, crate::proofs::Judgements::rename_no_to, crate::proofs::Judgements::rename_same, crate::proofs::Judgements::rename_no_name))]
pub(crate) fn check_action(
    layout: Layout,
    inodes: u32,
    action: WordedAction,
) -> Result<Action, PlanCode>
    ensures ok { IfOk result (Allows layout inodes action) }
    ensures err { IfErr result (Forbids layout inodes action) }
{
    match action {
        WordedAction::Append { inode, value } => Ok(Action::Append {
            inode: check_inode(inode, inodes)?,
            value,
        }),
        WordedAction::Rename {
            from,
            to,
            name,
            value,
        } => {
            let from = check_inode(from, inodes)?;
            let to = check_inode(to, inodes)?;
            if from == to {
                return Err(PlanCode::Inode);
            }
            let name = check_name(name, layout)?;
            Ok(Action::Rename {
                from,
                to,
                name,
                value,
            })
        }
    }
}
