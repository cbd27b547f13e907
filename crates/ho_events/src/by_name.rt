//! Lists of pairs that are found by a name.

ghost use Rattle.std.specs.Prelude.{◌≡◌};
ghost use Rattle.ho_events.specs.ByName.{among};

use ho_base::name::Name;

/// What stands first under this name; none exactly where nothing does. It costs one pass over the list.
#[tactic(auto, using(crate::proofs::ByNames::among_at, crate::proofs::ByNames::among_skip, crate::proofs::ByNames::among_end))]
pub fn find<V: Copy>(entries: &[(Name, V)], name: Name) -> Option<V>
    ensures { result ≡ among name entries.now }
{
    let mut i = 0;
    while i < entries.len() {
        let (own, value) = entries[i];
        if own == name {
            return Some(value);
        }
        i += 1;
    }
    None
}
