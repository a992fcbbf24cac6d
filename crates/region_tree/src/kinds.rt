// A kind of its own.
ghost use Rattle.std.specs.Prelude.{◌≡◌};

use cil_model::RegionKind;

/// The same kind of handler, as a value of its own.
pub fn same_kind(kind: &RegionKind) -> RegionKind
    ensures { result ≡ kind.now }
{
    match kind {
        RegionKind::Catch(token) => RegionKind::Catch(*token),
        RegionKind::Filter(at) => RegionKind::Filter(*at),
        RegionKind::Finally => RegionKind::Finally,
        RegionKind::Fault => RegionKind::Fault,
    }
}
