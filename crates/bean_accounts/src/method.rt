//! The names of booking methods.
ghost use Rattle.std.specs.Prelude.{◌≡◌};
ghost use Rattle.bean_accounts.specs.Method as spec;

use bean_base::Text;
use bean_reductions::Method;

/// The booking method of a name, if there is one.
pub fn method_named(name: &Text<'_>) -> Option<Method>
    ensures { result ≡ spec.method_named name.now }
{
    if *name == Text::new("STRICT") {
        return Some(Method::Strict);
    }
    if *name == Text::new("FIFO") {
        return Some(Method::Fifo);
    }
    if *name == Text::new("LIFO") {
        return Some(Method::Lifo);
    }
    if *name == Text::new("NONE") {
        return Some(Method::None);
    }
    None
}
