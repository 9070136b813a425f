//! Whether two values are the same.

ghost use Rattle.std.specs.Prelude.{◌≡◌, ◌≢◌, MatchBool};

use hart::{HartState, Reply, Request};

pub(crate) fn is_same_request(one: Request, other: Request) -> bool
    ensures { MatchBool result (one ≡ other) (one ≢ other) }
{
    one == other
}

pub(crate) fn is_same_reply(one: Reply, other: Reply) -> bool
    ensures { MatchBool result (one ≡ other) (one ≢ other) }
{
    one == other
}

pub(crate) fn is_same_state(one: &HartState, other: &HartState) -> bool
    ensures { MatchBool result (one.now ≡ other.now) (one.now ≢ other.now) }
{
    *one == *other
}

pub(crate) fn are_same_bytes(one: &[u8], other: &[u8]) -> bool
    ensures { MatchBool result (one.now ≡ other.now) (one.now ≢ other.now) }
{
    one == other
}
