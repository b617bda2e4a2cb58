//! Laws of what messages are.

ghost use Rattle.dn_message.specs.Laws.{IsQueryOnce, IsReplyOnce};

use dn_name::names_are_spelled_once;

/// A message is one reply at most.
pub fn replies_are_spelled_once()
    ensures { IsReplyOnce }
{
    names_are_spelled_once()
}

/// A message is one query at most.
pub fn queries_are_spelled_once()
    ensures { IsQueryOnce }
{
    names_are_spelled_once()
}
