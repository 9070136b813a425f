//! What the line of an operation says, before its inodes and its name are judged.

ghost use Rattle.std.specs.Prelude.{◌≡◌, codes, IfNone, IfSome};
ghost use Rattle.plan.specs.Grammar.{SaysAction, SaysOperation};
ghost use Rattle.text.specs.Words.{words};
ghost use Rattle.plan.specs.Worded.{WordsAction, WordsOperation};
ghost use Rattle.plan.specs.declared.operation.Action.{Action as AnAction};
ghost use Rattle.plan.specs.declared.operation.Operation.{Operation as AnOperation};

use crate::numbers::{after_inode, after_number, name};
use nova_log::Name;
use text::{Blanks, after_keyword, first_word, is_blank};

/// What an operation does. None stands for an inode's number past 32 bits, and for a name that is none.
#[derive(Clone, Copy)]
pub(crate) enum WordedAction {
    Append {
        inode: Option<u32>,
        value: u64,
    },
    Rename {
        from: Option<u32>,
        to: Option<u32>,
        name: Option<Name>,
        value: u64,
    },
}

/// An operation by its number, and what it does.
#[derive(Clone, Copy)]
pub(crate) struct Wording {
    pub number: u64,
    pub action: WordedAction,
}

/// The action that the words after `append` say.
#[tactic(auto, using(crate::proofs::Wordings::append_worded, crate::proofs::Wordings::append_no_inode, crate::proofs::Wordings::append_no_value, crate::proofs::Wordings::append_more))]
fn append(line: &[u8]) -> Option<WordedAction>
    ensures some { IfSome result (WordsAction (codes "append") (words line.now)) }
    ensures none { IfNone result ((action : AnAction) → ¬ (SaysAction (codes "append") (words line.now) action)) }
{
    let (inode, rest) = after_inode(line)?;
    let (value, rest) = after_number(rest)?;
    if is_blank(rest) {
        Some(WordedAction::Append { inode, value })
    } else {
        None
    }
}

/// The action that the words after `rename` say.
#[tactic(auto, using(crate::proofs::Wordings::rename_worded, crate::proofs::Wordings::rename_no_from, crate::proofs::Wordings::rename_no_to, crate::proofs::Wordings::rename_no_name, crate::proofs::Wordings::rename_no_value, crate::proofs::Wordings::rename_more))]
fn rename(line: &[u8]) -> Option<WordedAction>
    ensures some { IfSome result (WordsAction (codes "rename") (words line.now)) }
    ensures none { IfNone result ((action : AnAction) → ¬ (SaysAction (codes "rename") (words line.now) action)) }
{
    let (from, rest) = after_inode(line)?;
    let (to, rest) = after_inode(rest)?;
    let (word, rest) = first_word(rest, Blanks::Spaces)?;
    let (value, rest) = after_number(rest)?;
    if is_blank(rest) {
        let name = name(word);
        Some(WordedAction::Rename {
            from,
            to,
            name,
            value,
        })
    } else {
        None
    }
}

/// The action that a keyword and the words after it say.
#[tactic(auto, using(crate::proofs::Wordings::other_keyword))]
fn action(keyword: &[u8], line: &[u8]) -> Option<WordedAction>
    ensures some { IfSome result (WordsAction keyword.now (words line.now)) }
    ensures none { IfNone result ((action : AnAction) → ¬ (SaysAction keyword.now (words line.now) action)) }
{
    if keyword == b"append".as_slice() {
        append(line)
    } else if keyword == b"rename".as_slice() {
        rename(line)
    } else {
        None
    }
}

/// The operation that a line says.
#[tactic(auto, using(crate::proofs::Wordings::operation_worded, crate::proofs::Wordings::no_op, crate::proofs::Wordings::no_number, crate::proofs::Wordings::no_action_word, crate::proofs::Wordings::no_action))]
pub(crate) fn worded_operation(line: &[u8]) -> Option<Wording>
    ensures some { IfSome result (WordsOperation (words line.now)) }
    ensures none { IfNone result ((operation : AnOperation) → ¬ (SaysOperation (words line.now) operation)) }
{
    let rest = after_keyword(line, b"op")?;
    let (number, rest) = after_number(rest)?;
    let (keyword, rest) = first_word(rest, Blanks::Spaces)?;
    Some(Wording {
        number,
        action: action(keyword, rest)?,
    })
}
