// The segments of a contract block.

ghost use Rattle.std.specs.Prelude.{◌≡◌, ◌<◌, ◌≤◌, ◌^◌, ◌++◌, length, find, All, IfOk, option_copied};
ghost use Rattle.contract_parts.specs.Parts.{segments_from, rest_behind, is_in};

use std::alloc::{AllocError, Global};

/// Where a segment begins, and the place of the prefix call that ends it.
#[derive(Clone, Copy)]
pub struct Segment {
    pub from: u32,
    pub at: u32,
}

impl Segment {
    /// Whether a place lies in the segment.
    pub fn holds(&self, place: u32) -> bool
        ensures { result ≡ is_in place self.now }
    {
        self.from <= place && place <= self.at
    }
}

/// The segments that prefix calls at these places end, each from where the one before ended.
pub fn segments_from(alloc: Global, from: u32, prefixes: &[u32]) -> Result<Vec<Segment>, AllocError>
    requires { All (λ at. at < 2 ^ 31) prefixes.now }
    ensures { IfOk result (λ segments. segments.items ≡ segments_from from prefixes.now) }
{
    let mut segments = Vec::new(alloc);
    let mut begin = from;
    for at in prefixes {
        segments.push(Segment {
            from: begin,
            at: *at,
        })?;
        begin = *at + 1;
    }
    Ok(segments)
}

/// Where the rest begins, behind prefix calls at these places.
pub fn rest_behind(prefixes: &[u32]) -> u32
    requires { All (λ at. at < 2 ^ 31) prefixes.now }
    ensures { result ≡ rest_behind 0 prefixes.now }
{
    let mut rest = 0;
    for at in prefixes {
        rest = *at + 1;
    }
    rest
}

/// The segment in which a place lies.
pub fn segment_at(segments: &[Segment], place: u32) -> Option<&Segment>
    ensures { option_copied result ≡ find (is_in place) segments.now }
{
    segments.iter().find(|segment| segment.holds(place))
}
