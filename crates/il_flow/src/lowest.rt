// The refusal of the lowest offset.
ghost use Rattle.std.specs.Prelude.{◌≡◌};
ghost use Rattle.il_flow.specs.Lowest.{beats, lowered};

use cil_base::Refusal;

fn beats(found: Refusal, best: Option<Refusal>) -> bool
    ensures { result ≡ beats found best }
{
    match best {
        None => true,
        Some(best) => found.at < best.at,
    }
}

/// A refusal that holds and has a lower offset than the best before it, or else that one.
pub fn lowered(best: Option<Refusal>, found: Refusal, fails: bool) -> Option<Refusal>
    ensures { result ≡ lowered best (record { refusal = found; fails = fails }) }
{
    if fails && beats(found, best) {
        return Some(found);
    }
    best
}
