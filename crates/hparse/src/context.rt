//! The contexts of fragments.

ghost use Rattle.std.specs.Prelude.{◌≡◌};
ghost use Rattle.hparse.specs.Parse.{is_context};

use hserialize::is_plain_name;
use names::Tag;

/// The most bytes of a context's name.
const MOST_BYTES: usize = 64;

/// Whether this may be the name of a fragment's context, the context element of the HTML fragment parsing algorithm
/// (`#html-fragment-parsing-algorithm`). The name has at most 64 bytes, and is neither colgroup nor one that is left out of the profile.
pub fn is_context(name: &str) -> bool
    ensures { result ≡ is_context name.now }
{
    name.len() <= MOST_BYTES
        && is_plain_name(name)
        && !(name == "colgroup" || Tag::named(name).is_refused())
}
