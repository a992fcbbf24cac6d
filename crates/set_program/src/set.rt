// A set of assemblies (ECMA-335, II.6.1).
ghost use Rattle.std.specs.Prelude.{◌≡◌, ◌+◌, ◌<◌, ◌≤◌, ◌^◌, ◌++◌, ◌∷◌, [], length, IfOk, OnOk, OnErr, MatchOption};
ghost use Rattle.cil_base.specs.Refusals.{OnRefused};
ghost use Rattle.assembly.specs.Assemblies.{IsReadable, IsUnread};
ghost use Rattle.set_rows.specs.Sets.{assembly_of, assembly_at};

use crate::part::Part;
use assembly::Assembly;
use cil_base::Fault;
use cli_heaps::Heaps;
use cli_tables::Tables;
use pe_image::Image;
use set_rows::Rows;
use std::alloc::{AllocError, Global};
use std::marker::Model;

/// The assemblies of a command, TARGET first. It borrows the bytes of the files.
#[derive(Drop)]
pub struct Set<'a> {
    alloc: Global,
    assemblies: Vec<Assembly<'a>>,
}

impl<'a> Model for Set<'a> {
    ghost use Rattle.set_rows.specs.Sets.{Assemblies};
    ghost use Rattle.set_program.specs.Files.{assemblies_of, AreNumbered};

    ghost Value = { Assemblies };

    ghost view = { λ s. assemblies_of s.assemblies.items };

    ghost invariant = { λ s. AreNumbered s.assemblies.items };
}

/// Appends an assembly; after an error the list is as it was.
fn append<'a>(list: &mut Vec<Assembly<'a>>, assembly: Assembly<'a>) -> Result<(), AllocError>
    ensures ok { OnOk result (list.new.items ≡ list.old.items ++ assembly.entry ∷ []) }
    ensures err { OnErr result (list.new.items ≡ list.old.items) }
{
    list.push(assembly)?;
    Ok(())
}

impl<'a> Set<'a> {
    pub fn new(alloc: Global) -> Set<'a>
        ensures { result ≡ [] }
    {
        Set {
            alloc,
            assemblies: Vec::new(alloc),
        }
    }

    /// How many assemblies there are.
    pub fn len(&self) -> usize
        ensures { result ≡ length self.now }
    {
        self.assemblies.len()
    }

    /// Reads one more assembly, whose number is the number of those before it. After an error the
    /// set is as it was.
    pub fn add(&mut self, bytes: &'a [u8]) -> Result<(), Fault>
        requires short { length bytes.now < 2 ^ 32 }
        requires few { length self.old + 1 < 2 ^ 32 }
        ensures ok { OnOk result (self.new ≡ self.old ++ assembly_of bytes.entry.now ∷ []) }
        ensures err { OnErr result (self.new ≡ self.old) }
        ensures accepted { OnOk result (IsReadable bytes.entry.now (length self.old)) }
        ensures refused { OnRefused result (IsUnread bytes.entry.now (length self.old)) }
    {
        let number = self.assemblies.len() as u32;
        let assembly = Assembly::read(self.alloc, bytes, number)?;
        append(&mut self.assemblies, assembly)?;
        Ok(())
    }

    /// The tables of an assembly; None where there are not so many assemblies.
    pub fn tables(&self, assembly: u32) -> Option<&Tables>
        ensures { MatchOption result (length self.now ≤ assembly) (λ t. t.now ≡ (assembly_at self.now assembly).tables) }
    {
        match self.assemblies.get(assembly as usize) {
            Some(assembly) => Some(assembly.tables()),
            None => None,
        }
    }

    /// The heaps of an assembly; None where there are not so many assemblies.
    pub fn heaps(&self, assembly: u32) -> Option<&Heaps<'a>>
        ensures { MatchOption result (length self.now ≤ assembly) (λ h. h.now ≡ record { bytes = (assembly_at self.now assembly).meta; assembly = assembly }) }
    {
        match self.assemblies.get(assembly as usize) {
            Some(assembly) => Some(assembly.heaps()),
            None => None,
        }
    }

    /// The image of an assembly; None where there are not so many assemblies.
    pub fn image(&self, assembly: u32) -> Option<&Image<'a>>
        ensures { MatchOption result (length self.now ≤ assembly) (λ i. i.now ≡ record { bytes = (assembly_at self.now assembly).bytes; assembly = assembly }) }
    {
        match self.assemblies.get(assembly as usize) {
            Some(assembly) => Some(assembly.image()),
            None => None,
        }
    }

    /// Its assemblies with their names found beforehand.
    pub fn parts(&'a self) -> Result<Vec<Part<'a>>, AllocError>
        ensures { IfOk result (λ parts. parts.items ≡ self.now) }
    {
        let mut parts = Vec::new(self.alloc);
        for assembly in &self.assemblies {
            let part = Part::new(self.alloc, Rows::new(assembly))?;
            match parts.push(part) {
                Ok(()) => {}
                Err(e) => return Err(e.into()),
            }
        }
        Ok(parts)
    }
}
