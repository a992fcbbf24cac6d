// The rules that an input can break.
ghost use Rattle.std.specs.Prelude.{◌≡◌};

use std::fmt;

/// What an input is refused by. The order is that of the list in the README.
#[derive(Clone, Copy, Debug, PartialEq, Eq)]
pub enum Rule {
    /// The DOS or PE signature is missing.
    P1,
    /// The optional header has another magic, or is too short.
    P2,
    /// The alignments or the section table are wrong.
    P3,
    /// The CLI header or its metadata lies in no section, or the image is not IL only.
    P4,
    /// There is no room for one more section.
    P5,
    /// A header field lies past the end of the file.
    P6,
    /// The metadata root or `#US` is not whole.
    M1,
    /// A stream is missing or stands twice.
    M2,
    /// A stream, table or heap bit that is not read, or Module or Assembly without exactly one row.
    M3,
    /// A row passes its stream.
    M4,
    /// An index is past its table.
    M5,
    /// A list column falls.
    M6,
    /// A heap index gives no whole entry.
    M7,
    /// A signature is not in the grammar.
    S1,
    /// The blob of a contract attribute is not in its grammar.
    S2,
    /// A type of the set is missing.
    N1,
    /// A member of the set is missing.
    N2,
    /// Types form a cycle, or nest too deep.
    N3,
    /// Two assemblies, types or members share an identity.
    N4,
    /// The assembly is rewritten already, or is a contract reference assembly.
    N5,
    /// A wrong number of type arguments, or a type parameter out of place.
    N6,
    /// An opcode is undefined or left out.
    I1,
    /// An instruction is cut.
    I2,
    /// A branch or region names no instruction.
    I3,
    /// A stack height is wrong.
    I4,
    /// A body is not whole.
    I5,
    /// A token or index has no meaning of the kind that it needs.
    I6,
    /// A filter clause.
    X1,
    /// Two regions are neither nested nor apart.
    X2,
    /// Control passes a region's edge.
    X3,
    /// `leave`, `endfinally` or `rethrow` outside its block.
    X4,
    /// A contract call inside a region, crossed by a branch, or in generated code.
    C1,
    /// A contract call that no path reaches, or that leaves values on the stack.
    C2,
    /// Result, OldValue, ValueAtReturn or Invariant out of place.
    C3,
    /// An OldValue argument that cannot be captured.
    C4,
    /// A contract segment throws.
    C5,
    /// A contract segment shares a local with the lead-in or the rest.
    C6,
    /// The exception type of a contract cannot be thrown.
    C7,
    /// An abbreviator or its call has another form.
    C8,
    /// An invariant method has another form.
    C9,
    /// A contract class and its type do not name each other.
    C10,
    /// An override has a precondition of its own.
    H1,
    /// An inherited clause names what the method cannot reach.
    H2,
    /// A contract-class member has no member to stand for.
    H3,
    /// Abbreviators call each other in a cycle.
    H4,
    /// The input needs a part that is not built yet.
    Z1,
    /// A file is too long.
    L1,
    /// There are too many assemblies, or too many bytes of them.
    L2,
    /// A spliced body has too many locals, stack slots or nested regions.
    L3,
    /// A body has too many instructions.
    L4,
    /// A table, heap or the list of streams is full.
    L5,
    /// The written image is too long.
    L6,
}

impl fmt::Display for Rule {
    ghost use Rattle.std.specs.Prelude.{Some};
    ghost use Rattle.cil_base.specs.Rules.{rule_name};

    ghost output = { λ rule. Some (rule_name rule) };

    fn fmt<W: fmt::Write>(&self, f: &mut fmt::Formatter<W>) -> fmt::Result {
        f.write_str(match self {
            Rule::P1 => "P1",
            Rule::P2 => "P2",
            Rule::P3 => "P3",
            Rule::P4 => "P4",
            Rule::P5 => "P5",
            Rule::P6 => "P6",
            Rule::M1 => "M1",
            Rule::M2 => "M2",
            Rule::M3 => "M3",
            Rule::M4 => "M4",
            Rule::M5 => "M5",
            Rule::M6 => "M6",
            Rule::M7 => "M7",
            Rule::S1 => "S1",
            Rule::S2 => "S2",
            Rule::N1 => "N1",
            Rule::N2 => "N2",
            Rule::N3 => "N3",
            Rule::N4 => "N4",
            Rule::N5 => "N5",
            Rule::N6 => "N6",
            Rule::I1 => "I1",
            Rule::I2 => "I2",
            Rule::I3 => "I3",
            Rule::I4 => "I4",
            Rule::I5 => "I5",
            Rule::I6 => "I6",
            Rule::X1 => "X1",
            Rule::X2 => "X2",
            Rule::X3 => "X3",
            Rule::X4 => "X4",
            Rule::C1 => "C1",
            Rule::C2 => "C2",
            Rule::C3 => "C3",
            Rule::C4 => "C4",
            Rule::C5 => "C5",
            Rule::C6 => "C6",
            Rule::C7 => "C7",
            Rule::C8 => "C8",
            Rule::C9 => "C9",
            Rule::C10 => "C10",
            Rule::H1 => "H1",
            Rule::H2 => "H2",
            Rule::H3 => "H3",
            Rule::H4 => "H4",
            Rule::Z1 => "Z1",
            Rule::L1 => "L1",
            Rule::L2 => "L2",
            Rule::L3 => "L3",
            Rule::L4 => "L4",
            Rule::L5 => "L5",
            Rule::L6 => "L6",
        })
    }
}
