// The grammars in which the blobs of rows are to be.
ghost use Rattle.std.specs.Prelude.{◌≡◌, ◌||◌};
ghost use Rattle.set_names.specs.Names.{is_name};
ghost use Rattle.set_program.specs.Attributes.{class_attribute, class_for_attribute, abbreviator_attribute, invariant_attribute, reference_attribute};
ghost use Rattle.set_blobs.specs.BadBlobs.{blob_column, attribute_form};

use cil_base::Name;
use cil_base::tables::{
    CUSTOM_ATTRIBUTE, FIELD, MEMBER_REF, METHOD_DEF, METHOD_SPEC, PROPERTY, STAND_ALONE_SIG,
    TYPE_SPEC,
};
use signature_rules::BlobKind;

/// The grammar of a blob: of a signature, or of a contract attribute with a text or without
/// arguments.
#[derive(Clone, Copy)]
pub enum BlobForm {
    Signature(BlobKind),
    Text,
    Bare,
}

/// The column of a table that names a signature or the value of an attribute.
pub fn blob_column(table: u8) -> Option<u8>
    ensures { result ≡ blob_column table }
{
    match table {
        FIELD => Some(2),
        METHOD_DEF => Some(4),
        MEMBER_REF => Some(2),
        CUSTOM_ATTRIBUTE => Some(2),
        STAND_ALONE_SIG => Some(0),
        PROPERTY => Some(2),
        TYPE_SPEC => Some(0),
        METHOD_SPEC => Some(1),
        _ => None,
    }
}

/// Whether there is a name, and it is this one.
fn is_name(name: &Option<Name>, wanted: &[u8]) -> bool
    ensures { result ≡ is_name wanted.now name.now }
{
    match name {
        Some(name) => wanted == name.as_slice(),
        None => false,
    }
}

/// Whether it is the name of an attribute that names a type.
fn names_type(name: &Option<Name>) -> bool
    ensures { result ≡ (is_name class_attribute name.now || is_name class_for_attribute name.now) }
{
    is_name(name, b"System.Diagnostics.Contracts.ContractClassAttribute")
        || is_name(
            name,
            b"System.Diagnostics.Contracts.ContractClassForAttribute",
        )
}

/// Whether it is the name of a contract attribute without arguments.
fn is_bare(name: &Option<Name>) -> bool
    ensures { result ≡ (is_name abbreviator_attribute name.now || (is_name invariant_attribute name.now || is_name reference_attribute name.now)) }
{
    is_name(
        name,
        b"System.Diagnostics.Contracts.ContractAbbreviatorAttribute",
    ) || is_name(
        name,
        b"System.Diagnostics.Contracts.ContractInvariantMethodAttribute",
    ) || is_name(
        name,
        b"System.Diagnostics.Contracts.ContractReferenceAssemblyAttribute",
    )
}

/// The grammar of the value of an attribute of this type; None where it isn't read.
pub fn attribute_form(name: &Option<Name>) -> Option<BlobForm>
    ensures { result ≡ attribute_form name.now }
{
    if names_type(name) {
        return Some(BlobForm::Text);
    }
    if is_bare(name) {
        return Some(BlobForm::Bare);
    }
    None
}
