// The members that are in no assembly of the set, each once.
ghost use Rattle.std.specs.Prelude.{◌≡◌, ◌<◌, ◌^◌, ◌+◌, ◌++◌, ◌∷◌, [], length, IfOk, OnOk};
ghost use Rattle.members.specs.Keys.{ended_list, member_key};
ghost use Rattle.members.specs.OutsideMembers.{outside_key, member_place, added_member};

use crate::declaring::{key_length, push_ended, push_member};
use crate::keys::Keys;
use crate::outside_member::OutsideMember;
use cil_base::U32s;
use std::alloc::{AllocError, Global};
use std::marker::Model;

/// Outside members in the order in which they were noted.
#[derive(Drop)]
pub struct Outside {
    keys: Keys,
    members: Vec<OutsideMember>,
}

impl Model for Outside {
    ghost use Rattle.std.specs.Prelude.{List, Vec};
    ghost use Rattle.members.specs.declared.outside_member.OutsideMember.{OutsideMember};

    ghost Value = { List OutsideMember };

    ghost use Rattle.members.specs.OutsideMembers.{AreKeyed};

    ghost view = { λ o. o.members.items };

    ghost invariant = { λ o. AreKeyed o.keys o.members.items };
}

/// The key of an outside member.
fn outside_key(alloc: Global, member: &OutsideMember) -> Result<U32s, AllocError>
    ensures { IfOk result (λ key. key ≡ outside_key member.now) }
{
    let room = member
        .owner
        .len()
        .saturating_add(key_length(&member.shape))
        .saturating_add(1);
    let mut key = Vec::with_capacity(alloc, room)?;
    push_ended(&mut key, member.owner.as_slice())?;
    push_member(&mut key, 0, &member.shape)?;
    Ok(U32s::from_vec(key))
}

impl Outside {
    pub fn new(alloc: Global) -> Outside
        ensures { result ≡ [] }
    {
        Outside {
            keys: Keys::new(alloc),
            members: Vec::new(alloc),
        }
    }

    pub fn len(&self) -> usize
        ensures { result ≡ length self.now }
    {
        self.members.len()
    }

    pub fn as_slice(&self) -> &[OutsideMember]
        ensures { result.now ≡ self.now }
    {
        self.members.as_slice()
    }

    /// The place of a member.
    pub fn place(&self, alloc: Global, member: &OutsideMember) -> Result<Option<u32>, AllocError>
        ensures { IfOk result (λ k. k ≡ member_place self.now member.now) }
    {
        let key = outside_key(alloc, member)?;
        Ok(self.keys.number(key.as_slice()))
    }

    /// With a member that is to stand there once.
    pub fn with(self, alloc: Global, member: OutsideMember) -> Result<Outside, AllocError>
        requires { length self + 1 < 2 ^ 32 }
        ensures { IfOk result (λ o. o ≡ added_member self member) }
    {
        let key = outside_key(alloc, &member)?;
        if self.keys.number(key.as_slice()).is_some() {
            return Ok(self);
        }
        let Outside { keys, members } = self;
        let mut keys = keys;
        let mut members = members;
        keys.note(alloc, key.as_slice(), members.len() as u32)?;
        members.push(member)?;
        Ok(Outside { keys, members })
    }
}
