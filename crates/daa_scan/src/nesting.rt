//! Which levels lie within others.

ghost use Rattle.std.specs.Prelude.{◌≡◌, ◌↔◌, IsTrue};
ghost use Rattle.daa_taumod.specs.Volume.{place_of};
ghost use Rattle.daa_scan.specs.Inside.Nesting.{LiesWithin};

use daa_config::Level;
use daa_taumod::Model;

/// Whether no threshold of the inner level and not its lookahead is above that of the outer one,
/// and its model does not come after the outer one's in the order in which the models lie one
/// within the next. Whatever meets the inner level then meets the outer one.
pub(crate) fn lies_within(inner: &Level, outer: &Level) -> bool
    ensures { IsTrue result ↔ LiesWithin inner.now outer.now }
{
    inner.lookahead <= outer.lookahead
        && inner.volume.dthr <= outer.volume.dthr
        && inner.volume.zthr <= outer.volume.zthr
        && inner.volume.tthr <= outer.volume.tthr
        && inner.volume.tcoa <= outer.volume.tcoa
        && place(inner.volume.model) <= place(outer.volume.model)
}

/// Where the model stands in that order.
fn place(model: Model) -> u32
    ensures { result ≡ place_of model }
{
    match model {
        Model::Tau => 0,
        Model::Tcpa => 1,
        Model::Taumod => 2,
        Model::Tep => 3,
    }
}
