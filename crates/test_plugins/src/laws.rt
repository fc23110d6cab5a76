//! Laws of the test tags, each as the contract of a function.
ghost use Rattle.test_plugins.specs.laws.LeakLaw.{LeakIsNotDiscreet};

use liquid_runtime::Fresh;

/// What `leak` writes depends on a global that is hidden from the template. For two views that differ only in that
/// global, it makes different texts. So a language with `leak` is not rendered in a sandbox.
pub fn leak_is_not_discreet<V: Fresh>()
    ensures { LeakIsNotDiscreet V.Shape }
{}
