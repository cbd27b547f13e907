//! The order of elements along a chain.

ghost use Rattle.std.specs.Prelude.{◌≡◌};
ghost use Rattle.kho_records.specs.Chunks.{element_view, elements_view};
ghost use Rattle.kho_records.specs.Fronts.{stands_behind as behind_rule, rise_behind as rise_rule, last_place as last_rule};

use crate::chain::sheet::ElementRead;

/// Where an element stands in the order of elements: by its order, and then by its base.
#[derive(Clone, Copy, Debug)]
pub(crate) struct ElementPlace {
    /// The element's order.
    pub(crate) order: u64,
    /// Its base.
    pub(crate) base: u64,
}

/// Whether an element stands behind a place, if there is one.
fn stands_behind(last: Option<ElementPlace>, element: &ElementRead) -> bool
    ensures { result ≡ behind_rule last (element_view element.now) }
{
    match last {
        None => true,
        Some(place) => {
            place.order < element.order
                || (place.order == element.order && place.base < element.base)
        }
    }
}

/// Whether elements rise behind a place.
pub(crate) fn rise_behind(last: Option<ElementPlace>, elements: &[ElementRead]) -> bool
    ensures { result ≡ rise_rule last (elements_view elements.now) }
{
    match elements {
        [first, rest @ ..] => {
            let place = ElementPlace {
                order: first.order,
                base: first.base,
            };
            stands_behind(last, first) && rise_behind(Some(place), rest)
        }
        [] => true,
    }
}

/// Where the last of some elements stands; `last` where there are none.
pub(crate) fn last_place(
    last: Option<ElementPlace>,
    elements: &[ElementRead],
) -> Option<ElementPlace>
    ensures { result ≡ last_rule last (elements_view elements.now) }
{
    match elements {
        [first, rest @ ..] => {
            let place = ElementPlace {
                order: first.order,
                base: first.base,
            };
            last_place(Some(place), rest)
        }
        [] => last,
    }
}
