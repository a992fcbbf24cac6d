// A member that is in no assembly of the set.

use cil_base::Name;
use set_signatures::Shape;

/// A member outside: the name of its type, and by what it is compared.
#[derive(Drop)]
pub struct OutsideMember {
    pub owner: Name,
    pub shape: Shape,
}
