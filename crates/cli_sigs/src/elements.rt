// Element types: what the first byte of a type says (ECMA-335, II.23.1.16), and where it may stand.
ghost use Rattle.std.specs.Prelude.{◌≡◌};
ghost use Rattle.cli_sigs.specs.Elements.{element_of, element_in, is_leaf, may_stand, slot_behind};
ghost use Rattle.cli_sigs.specs.Methods.{may_begin, result_slot};

/// What the first byte of a type says.
#[derive(Clone, Copy)]
pub enum Element {
    Prim(u8),
    Ptr,
    ByRef,
    /// VALUETYPE where true, else CLASS.
    Named(bool),
    Var,
    MVar,
    Array,
    Inst,
    Func,
    SzArray,
    /// CMOD_REQD where true, else CMOD_OPT.
    Modified(bool),
    Pinned,
}

/// Where a type stands: what may stand there beside the types that may stand anywhere.
#[derive(Clone, Copy)]
pub enum Slot {
    /// A field, an item of an array or an argument of an instance: nothing else.
    Plain,
    /// Behind PTR: void.
    Pointed,
    /// A parameter: BYREF and TYPEDBYREF.
    Param,
    /// A result: void, BYREF and TYPEDBYREF.
    Returned,
    /// A local: BYREF, TYPEDBYREF and PINNED.
    Local,
    /// A local, behind PINNED or a modifier: BYREF and PINNED.
    Constrained,
}

/// Whose signature it is: a method's, that of a method behind FNPTR, or a property's.
#[derive(Clone, Copy)]
pub enum MethodKind {
    Method,
    Pointer,
    Property,
}

fn element_of(b: u8) -> Option<Element>
    ensures { result ≡ element_of b }
{
    match b {
        0x01..=0x0E | 0x16 | 0x18 | 0x19 | 0x1C => Some(Element::Prim(b)),
        0x0F => Some(Element::Ptr),
        0x10 => Some(Element::ByRef),
        0x11 => Some(Element::Named(true)),
        0x12 => Some(Element::Named(false)),
        0x13 => Some(Element::Var),
        0x14 => Some(Element::Array),
        0x15 => Some(Element::Inst),
        0x1B => Some(Element::Func),
        0x1D => Some(Element::SzArray),
        0x1E => Some(Element::MVar),
        0x1F => Some(Element::Modified(true)),
        0x20 => Some(Element::Modified(false)),
        0x45 => Some(Element::Pinned),
        _ => None,
    }
}

impl MethodKind {
    /// Whether a signature of this kind may begin with the byte.
    pub fn may_begin(self, b: u8) -> bool
        ensures { result ≡ may_begin self b }
    {
        match self {
            MethodKind::Method => {
                matches!(
                    b,
                    0x00 | 0x05 | 0x10 | 0x20 | 0x25 | 0x30 | 0x60 | 0x65 | 0x70
                )
            }
            MethodKind::Pointer => {
                matches!(b, 0x00..=0x05 | 0x10 | 0x20..=0x25 | 0x30 | 0x60..=0x65 | 0x70)
            }
            MethodKind::Property => matches!(b, 0x08 | 0x28),
        }
    }

    /// Where the result of this kind stands: a property is not void.
    pub fn result_slot(self) -> Slot
        ensures { result ≡ result_slot self }
    {
        match self {
            MethodKind::Property => Slot::Param,
            MethodKind::Method | MethodKind::Pointer => Slot::Returned,
        }
    }
}

impl Slot {
    /// Where the type behind a modifier or PINNED stands.
    pub fn slot_behind(self) -> Slot
        ensures { result ≡ slot_behind self }
    {
        match self {
            Slot::Local => Slot::Constrained,
            slot => slot,
        }
    }

    fn may_hold(self, b: u8) -> bool
        ensures { result ≡ may_stand self b }
    {
        match b {
            0x01 => matches!(self, Slot::Pointed | Slot::Returned),
            0x10 => matches!(
                self,
                Slot::Param | Slot::Returned | Slot::Local | Slot::Constrained
            ),
            0x16 => matches!(self, Slot::Param | Slot::Returned | Slot::Local),
            0x45 => matches!(self, Slot::Local | Slot::Constrained),
            _ => true,
        }
    }

    /// The element type of a byte that may begin a type here.
    pub fn element(self, b: u8) -> Option<Element>
        ensures { result ≡ element_in self b }
    {
        if self.may_hold(b) {
            element_of(b)
        } else {
            None
        }
    }
}

impl Element {
    /// Whether a type of this kind can have no types inside.
    pub fn is_leaf(self) -> bool
        ensures { result ≡ is_leaf self }
    {
        matches!(
            self,
            Element::Prim(_) | Element::Named(_) | Element::Var | Element::MVar | Element::Inst
        )
    }
}
