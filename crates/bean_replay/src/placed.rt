//! Directives at their places, which lie apart from these until they are booked.
ghost use Rattle.std.specs.Prelude.{◌≡◌};

use bean_directives::{ApartDirective, DirectiveKind};
use bean_loaded::Placed;

/// What a directive does.
pub(crate) fn kind_of<'s, 'a>(placed: &'s Placed<ApartDirective<'a>>) -> &'s DirectiveKind<'a>
    ensures { result.now ≡ placed.now.item.kind }
{
    &placed.item.get().kind
}
