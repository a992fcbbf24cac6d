// Segments and calls in the order of their places, found by halving.

ghost use Rattle.std.specs.Prelude.{◌≡◌};
ghost use Rattle.std.specs.List.{prefix_len};
ghost use Rattle.std.specs.List.Sorted.{IsNonDecreasingBy};
ghost use Rattle.contract_parts.specs.declared.segment.Segment.{Segment};
ghost use Rattle.contract_extract.specs.declared.numbers.Counted.{Counted};
ghost use Rattle.contract_extract.specs.Halving.{ends_before, calls_from, calls_up_to, calls_in};

use crate::numbers::Counted;
use contract_parts::Segment;

/// How many of the segments end before a place.
pub(crate) fn ended_before(segments: &[Segment], place: u32) -> usize
    requires { IsNonDecreasingBy (λ (s : Segment). s.at) segments.now }
    ensures { result ≡ prefix_len (ends_before place) segments.now }
{
    segments.partition_point(|segment| segment.at < place)
}

/// The calls from a place on.
fn calls_from(calls: &[Counted], place: u32) -> &[Counted]
    requires { IsNonDecreasingBy (λ (x : Counted). x.segment.at) calls.now }
    ensures { result.now ≡ calls_from place calls.now }
{
    &calls[calls.partition_point(|one| one.segment.at < place)..]
}

/// The calls up to a place.
fn calls_up_to(calls: &[Counted], place: u32) -> &[Counted]
    requires { IsNonDecreasingBy (λ (x : Counted). x.segment.at) calls.now }
    ensures { result.now ≡ calls_up_to place calls.now }
{
    &calls[..calls.partition_point(|one| one.segment.at <= place)]
}

/// The calls within a segment.
pub(crate) fn calls_within<'a>(calls: &'a [Counted], segment: &Segment) -> &'a [Counted]
    requires { IsNonDecreasingBy (λ (x : Counted). x.segment.at) calls.now }
    ensures { result.now ≡ calls_in segment.now calls.now }
{
    calls_up_to(calls_from(calls, segment.from), segment.at)
}
