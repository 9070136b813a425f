//! The operands of statements, as they are written: numbers with a sign, names before commas,
//! places of memory, sets, labels and targets.

ghost use Rattle.asm_lex.specs.Kinds.{lexeme_of};
ghost use Rattle.assemble.specs.Grammar.{fit, memory_place, is_dot, no_operands, set_at, Slot};
ghost use Rattle.assemble.specs.Grammar.{access_set, comma_mark, register_then, register_name, signed_number, with_set};
ghost use Rattle.assemble.specs.Grammar.{label_name, target, and_then, with_name, with_number};
ghost use Rattle.assemble.specs.Grammar.{with_target, distance_then};
ghost use Rattle.assemble.specs.Numbers.{number_then};
ghost use Rattle.assemble.specs.Steps.{all_seen, target_seen};
ghost use Rattle.std.specs.Prelude.{◌≡◌, ◌<◌, ◌∷◌, [], length, List, Some, None, IfSome};
ghost use Rattle.std.specs.Prelude.{MatchOption, option_map, option_and_then};

use asm_lex::{Kind, set_of};
use isa_table::AccessSet;

/// A number with its sign. The size is None from 2^64 on.
#[derive(Clone, Copy)]
pub(crate) struct SignedNumber {
    pub(crate) is_negative: bool,
    pub(crate) size: Option<u64>,
}

/// Where a branch or jump goes: to a label, or by a distance from its own place.
#[derive(Clone, Copy)]
pub(crate) enum Target<'a> {
    Label(&'a [u8]),
    Distance(SignedNumber),
}

/// The number that stands first, after at most one sign, and what follows it.
pub(crate) fn number_then<'s, 'a>(lexemes: &'s [Kind<'a>]) -> Option<(SignedNumber, &'s [Kind<'a>])>
    ensures value { MatchOption result (number_then (all_seen lexemes.now) ≡ None)
        (λ (number, rest). number_then (all_seen lexemes.now) ≡ Some (number, all_seen rest.now)) }
    ensures shorter { IfSome result (λ (number, rest). length rest.now < length lexemes.now) }
{
    let (is_negative, size, rest) = match lexemes {
        [Kind::Number { value, .. }, rest @ ..] => (false, *value, rest),
        [Kind::Plus, Kind::Number { value, .. }, rest @ ..] => (false, *value, rest),
        [Kind::Minus, Kind::Number { value, .. }, rest @ ..] => (true, *value, rest),
        _ => return None,
    };
    Some((SignedNumber { is_negative, size }, rest))
}

/// The name before a comma that lexemes begin with, and what follows the comma.
pub(crate) fn name_then<'s, 'a>(lexemes: &'s [Kind<'a>]) -> Option<(&'a [u8], &'s [Kind<'a>])>
    ensures { (slots : List Slot) → fit (register_then slots) (all_seen lexemes.now)
        ≡ option_and_then (λ (name, rest). option_map (with_name name.now) (fit slots (all_seen rest.now))) result }
{
    match lexemes {
        [Kind::Name(name), Kind::Comma, rest @ ..] => Some((*name, rest)),
        _ => None,
    }
}

/// Two names, each before a comma, that lexemes begin with, and what follows them.
pub(crate) fn names_then<'s, 'a>(
    lexemes: &'s [Kind<'a>],
) -> Option<(&'a [u8], &'a [u8], &'s [Kind<'a>])>
    ensures { (slots : List Slot) → fit (register_then (register_then slots)) (all_seen lexemes.now)
        ≡ option_and_then (λ (first, second, rest). option_map (with_name first.now)
        (option_map (with_name second.now) (fit slots (all_seen rest.now)))) result }
{
    let (first, rest) = name_then(lexemes)?;
    let (second, rest) = name_then(rest)?;
    Some((first, second, rest))
}

/// A name alone.
pub(crate) fn name<'a>(lexemes: &[Kind<'a>]) -> Option<&'a [u8]>
    ensures { fit (register_name ∷ []) (all_seen lexemes.now)
        ≡ option_map (λ name. with_name name.now no_operands) result }
{
    match lexemes {
        [Kind::Name(name)] => Some(*name),
        _ => None,
    }
}

/// A number alone.
pub(crate) fn number(lexemes: &[Kind]) -> Option<SignedNumber>
    ensures { fit (signed_number ∷ []) (all_seen lexemes.now)
        ≡ option_map (λ n. with_number n no_operands) result }
{
    match number_then(lexemes)? {
        (number, []) => Some(number),
        _ => None,
    }
}

/// An offset, which may be missing, and a name in parentheses.
pub(crate) fn place<'a>(lexemes: &[Kind<'a>]) -> Option<(SignedNumber, &'a [u8])>
    ensures { fit memory_place (all_seen lexemes.now)
        ≡ option_map (λ (offset, base). with_number offset (with_name base.now no_operands)) result }
{
    let (offset, rest) = number_then(lexemes).unwrap_or((ZERO, lexemes));
    match rest {
        [Kind::Open, Kind::Name(base), Kind::Close] => Some((offset, *base)),
        _ => None,
    }
}

const ZERO: SignedNumber = SignedNumber {
    is_negative: false,
    size: Some(0),
};

/// A name, a comma and a place.
pub(crate) fn name_place<'a>(lexemes: &[Kind<'a>]) -> Option<(&'a [u8], SignedNumber, &'a [u8])>
    ensures { fit (register_then memory_place) (all_seen lexemes.now)
        ≡ option_map (λ (name, offset, base). with_name name.now
        (with_number offset (with_name base.now no_operands))) result }
{
    let (name, rest) = name_then(lexemes)?;
    let (offset, base) = place(rest)?;
    Some((name, offset, base))
}

/// Two sets, between them a comma.
pub(crate) fn sets(lexemes: &[Kind]) -> Option<(AccessSet, AccessSet)>
    ensures { fit (access_set ∷ comma_mark ∷ access_set ∷ []) (all_seen lexemes.now)
        ≡ option_map (λ (a, b). with_set a (with_set b no_operands)) result }
{
    match lexemes {
        [before, Kind::Comma, after] => Some((set(*before)?, set(*after)?)),
        _ => None,
    }
}

/// A label alone.
pub(crate) fn label<'a>(lexemes: &[Kind<'a>]) -> Option<Target<'a>>
    ensures { fit (label_name ∷ []) (all_seen lexemes.now)
        ≡ option_map (λ t. with_target (target_seen t) no_operands) result }
{
    match lexemes {
        [Kind::Name(label)] if !is_dot(*label) => Some(Target::Label(*label)),
        _ => None,
    }
}

/// A label, or `.` with a sign and a number, alone.
pub(crate) fn destination<'a>(lexemes: &[Kind<'a>]) -> Option<Target<'a>>
    ensures { fit (target ∷ []) (all_seen lexemes.now)
        ≡ option_map (λ t. with_target (target_seen t) no_operands) result }
{
    match lexemes {
        [Kind::Name(name), rest @ ..] if is_dot(*name) => distance(rest),
        _ => label(lexemes),
    }
}

/// A name, a comma and a target.
pub(crate) fn name_target<'a>(lexemes: &[Kind<'a>]) -> Option<(&'a [u8], Target<'a>)>
    ensures { fit (register_then (target ∷ [])) (all_seen lexemes.now)
        ≡ option_map (λ (name, t). with_name name.now (with_target (target_seen t) no_operands)) result }
{
    let (name, rest) = name_then(lexemes)?;
    Some((name, destination(rest)?))
}

/// A sign and a number, alone.
fn distance<'a>(lexemes: &[Kind<'a>]) -> Option<Target<'a>>
    ensures { and_then with_target (distance_then (all_seen lexemes.now)) (λ rest. fit [] rest)
        ≡ option_map (λ t. with_target (target_seen t) no_operands) result }
{
    match (lexemes, number_then(lexemes)?) {
        ([Kind::Plus | Kind::Minus, ..], (number, [])) => Some(Target::Distance(number)),
        _ => None,
    }
}

/// `.` is no label.
pub(crate) fn is_dot(name: &[u8]) -> bool
    ensures { result ≡ is_dot name.now }
{
    match name {
        b"." => true,
        _ => false,
    }
}

/// The set that a token stands for.
fn set(lexeme: Kind) -> Option<AccessSet>
    ensures { result ≡ set_at (lexeme_of lexeme.entry) }
{
    match lexeme {
        Kind::Name(text) | Kind::Number { text, .. } => set_of(text),
        _ => None,
    }
}
