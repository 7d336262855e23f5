//! What a value is: the definitions stand in specs/, and this crate shows worked examples of them.
#![tactic(auto)]

ghost use Rattle.values.specs.Columns.{EachUnderItsKey};
ghost use Rattle.values.specs.Edges.{Edges};
ghost use Rattle.values.specs.Examples.{Examples};
ghost use Rattle.values.specs.Watchman.{Watchman};

/// The worked examples of the format hold of its definitions.
#[tactic(auto, unfolding(crate::specs::Values::count_encoding, utf8::specs::Utf8::utf8))]
pub fn examples_hold()
    ensures { Examples }
{}

/// What is well formed and within the limits ends where these examples show.
#[tactic(auto, unfolding(crate::specs::Values::count_encoding, utf8::specs::Utf8::utf8))]
pub fn edges_hold()
    ensures { Edges }
{}

/// What another writer made is the encoding of the value that it was given, with its events.
#[tactic(auto, unfolding(crate::specs::Values::count_encoding, utf8::specs::Utf8::utf8))]
pub fn watchman_agrees()
    ensures { Watchman }
{}

/// Each cell of a row gives its events behind the key of its own column, a gap too.
pub fn columns_keep_their_keys()
    ensures { EachUnderItsKey }
{}
