// Numbers of the signatures of methods.
ghost use Rattle.std.specs.Prelude.{◌≡◌, ◌<◌, ◌^◌, ℕ, List, Option, length, map, IfOk};
ghost use Rattle.descriptions.specs.Signatures.{place_in, signature_number, TellApart};

use cil_base::U32s;
use members::{Keys, rows_by_key};
use std::alloc::{AllocError, Global};

/// Signatures of methods in the list are the same where they have one number.
pub fn numbers_tell_signatures_apart()
    ensures { (all : List (Option (List ℕ))) → TellApart all }
{}

/// The place of the first method with this signature, where `found` has the first of each.
fn place_of(found: &Keys, count: u32, signature: &Option<U32s>) -> u32
    ensures { result ≡ place_in found.now count signature.now }
{
    match signature {
        None => count,
        Some(numbers) => {
            match found.number(numbers.as_slice()) {
                Some(row) => row.saturating_sub(1),
                None => count,
            }
        }
    }
}

/// The places of the first methods with these signatures.
fn places_of(
    alloc: Global,
    found: &Keys,
    count: u32,
    signatures: &[Option<U32s>],
) -> Result<Vec<u32>, AllocError>
    ensures { IfOk result (λ v. v.items ≡ map (place_in found.now count) signatures.now) }
{
    let mut places = Vec::new(alloc);
    for signature in signatures {
        places.push(place_of(found, count, signature))?;
    }
    Ok(places)
}

/// The number of each method's signature, where `signatures` has them in the order of methods. One
/// pass, by a hash map.
pub fn signature_numbers(alloc: Global, signatures: &[Option<U32s>]) -> Result<Vec<u32>, AllocError>
    requires { length signatures.now < 2 ^ 32 }
    ensures { IfOk result (λ v. v.items ≡ map (signature_number signatures.now) signatures.now) }
{
    let found = rows_by_key(alloc, signatures)?;
    places_of(alloc, &found, signatures.len() as u32, signatures)
}
