// How many parameters types of the set have (ECMA-335, II.22.20).
ghost use Rattle.std.specs.Prelude.{◌≡◌};
ghost use Rattle.signature_rules.specs.ParameterCounts.{count_of};

/// By row of TypeDef and of TypeRef from 0: how many parameters the type has that the row names;
/// None where it is no type of the set.
#[derive(Drop)]
pub struct ParameterCounts {
    pub defs: Vec<Option<u32>>,
    pub refs: Vec<Option<u32>>,
}

fn count_at(counts: &[Option<u32>], row: u32) -> Option<u32>
    ensures { result ≡ Rattle.signature_rules.specs.ParameterCounts.count_at counts.now row }
{
    if row == 0 || row as usize > counts.len() {
        return None;
    }
    counts[row as usize - 1]
}

impl ParameterCounts {
    /// How many parameters the type has that a TypeDefOrRef index names.
    pub fn count(&self, coded: u32) -> Option<u32>
        ensures { result ≡ count_of self.now coded }
    {
        match coded % 4 {
            0 => count_at(self.defs.as_slice(), coded / 4),
            1 => count_at(self.refs.as_slice(), coded / 4),
            _ => None,
        }
    }
}
