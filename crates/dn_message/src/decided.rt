//! Which query the bytes of a message are.

ghost use Rattle.std.specs.Prelude.{ℕ, List};
ghost use Rattle.dn_name.specs.Exact.{IsOnly};
ghost use Rattle.dn_message.specs.Query.{IsQuery};
ghost use Rattle.dn_message.specs.QueryOf.{query_of};

/// The bytes of a message are one query, which `query_of` gives, or they are none.
pub fn the_query_is_one()
    ensures { (message : List ℕ) → IsOnly (IsQuery message) (query_of message) }
{}
