//! Signatures and the texts of contract attributes (ECMA-335, II.23.2 and II.23.3): values, readers
//! and printers.
#![tactic(auto)]

mod attribute;
mod blobs;
mod elements;
mod numbers;
mod printing;
mod reading;
mod types;

pub use attribute::{TypeName, read_bare_attribute, read_type_attribute, split_type_name};
pub use blobs::{
    read_field_sig, read_locals, read_method_sig, read_method_spec, read_property_sig,
    read_type_spec,
};
pub use elements::{Element, MethodKind, Slot};
pub use printing::{print_locals, print_method_sig, print_method_spec, print_type};
pub use types::{MethodSig, SigTy, SigTys};
