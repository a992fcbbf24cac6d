// The tables and their columns (ECMA-335, II.22), and the coded indexes (II.24.2.6).
ghost use Rattle.std.specs.Prelude.{◌≡◌, ◌≤◌, length};
ghost use Rattle.cli_tables.specs.Schema.{the_tables, columns_of, coded_tables, table_of_tag, tag_bits};

use cil_base::tables::{
    ASSEMBLY, ASSEMBLY_REF, DECL_SECURITY, EVENT, EXPORTED_TYPE, FIELD, FILE, GENERIC_PARAM,
    GENERIC_PARAM_CONSTRAINT, INTERFACE_IMPL, MANIFEST_RESOURCE, MEMBER_REF, METHOD_DEF,
    METHOD_SPEC, MODULE, MODULE_REF, PARAM, PROPERTY, STAND_ALONE_SIG, TYPE_DEF, TYPE_REF,
    TYPE_SPEC,
};

/// An index into one of several tables, told by a tag in its low bits.
#[derive(Clone, Copy)]
pub enum CodedIndex {
    TypeDefOrRef,
    HasConstant,
    HasCustomAttribute,
    HasFieldMarshal,
    HasDeclSecurity,
    MemberRefParent,
    HasSemantics,
    MethodDefOrRef,
    MemberForwarded,
    Implementation,
    CustomAttributeType,
    ResolutionScope,
    TypeOrMethodDef,
}

/// What a column holds.
#[derive(Clone, Copy)]
pub enum Column {
    U8,
    U16,
    U32,
    StringIndex,
    GuidIndex,
    BlobIndex,
    /// A row of this table, or 0.
    Row(u8),
    /// The first of a run of rows of this table, which ends where the next row's run begins.
    FirstRow(u8),
    Coded(CodedIndex),
}

use CodedIndex::{
    CustomAttributeType, HasConstant, HasCustomAttribute, HasDeclSecurity, HasFieldMarshal,
    HasSemantics, Implementation, MemberForwarded, MemberRefParent, MethodDefOrRef,
    ResolutionScope, TypeDefOrRef, TypeOrMethodDef,
};
use Column::{BlobIndex, Coded, FirstRow, GuidIndex, Row, StringIndex, U8, U16, U32};

/// How many numbers of tables are told apart; those above are not read.
pub const TABLE_COUNT: usize = 45;

static TABLES: [&[Column]; 45] = [
    // 00 Module
    &[U16, StringIndex, GuidIndex, GuidIndex, GuidIndex],
    // 01 TypeRef
    &[Coded(ResolutionScope), StringIndex, StringIndex],
    // 02 TypeDef
    &[
        U32,
        StringIndex,
        StringIndex,
        Coded(TypeDefOrRef),
        FirstRow(FIELD),
        FirstRow(METHOD_DEF),
    ],
    // 03 is not read
    &[],
    // 04 Field
    &[U16, StringIndex, BlobIndex],
    // 05 is not read
    &[],
    // 06 MethodDef
    &[U32, U16, U16, StringIndex, BlobIndex, FirstRow(PARAM)],
    // 07 is not read
    &[],
    // 08 Param
    &[U16, U16, StringIndex],
    // 09 InterfaceImpl
    &[Row(TYPE_DEF), Coded(TypeDefOrRef)],
    // 0A MemberRef
    &[Coded(MemberRefParent), StringIndex, BlobIndex],
    // 0B Constant
    &[U8, U8, Coded(HasConstant), BlobIndex],
    // 0C CustomAttribute
    &[
        Coded(HasCustomAttribute),
        Coded(CustomAttributeType),
        BlobIndex,
    ],
    // 0D FieldMarshal
    &[Coded(HasFieldMarshal), BlobIndex],
    // 0E DeclSecurity
    &[U16, Coded(HasDeclSecurity), BlobIndex],
    // 0F ClassLayout
    &[U16, U32, Row(TYPE_DEF)],
    // 10 FieldLayout
    &[U32, Row(FIELD)],
    // 11 StandAloneSig
    &[BlobIndex],
    // 12 EventMap
    &[Row(TYPE_DEF), FirstRow(EVENT)],
    // 13 is not read
    &[],
    // 14 Event
    &[U16, StringIndex, Coded(TypeDefOrRef)],
    // 15 PropertyMap
    &[Row(TYPE_DEF), FirstRow(PROPERTY)],
    // 16 is not read
    &[],
    // 17 Property
    &[U16, StringIndex, BlobIndex],
    // 18 MethodSemantics
    &[U16, Row(METHOD_DEF), Coded(HasSemantics)],
    // 19 MethodImpl
    &[Row(TYPE_DEF), Coded(MethodDefOrRef), Coded(MethodDefOrRef)],
    // 1A ModuleRef
    &[StringIndex],
    // 1B TypeSpec
    &[BlobIndex],
    // 1C ImplMap
    &[U16, Coded(MemberForwarded), StringIndex, Row(MODULE_REF)],
    // 1D FieldRVA
    &[U32, Row(FIELD)],
    // 1E is not read
    &[],
    // 1F is not read
    &[],
    // 20 Assembly
    &[
        U32,
        U16,
        U16,
        U16,
        U16,
        U32,
        BlobIndex,
        StringIndex,
        StringIndex,
    ],
    // 21 AssemblyProcessor
    &[U32],
    // 22 AssemblyOS
    &[U32, U32, U32],
    // 23 AssemblyRef
    &[
        U16,
        U16,
        U16,
        U16,
        U32,
        BlobIndex,
        StringIndex,
        StringIndex,
        BlobIndex,
    ],
    // 24 AssemblyRefProcessor
    &[U32, Row(ASSEMBLY_REF)],
    // 25 AssemblyRefOS
    &[U32, U32, U32, Row(ASSEMBLY_REF)],
    // 26 File
    &[U32, StringIndex, BlobIndex],
    // 27 ExportedType
    &[U32, U32, StringIndex, StringIndex, Coded(Implementation)],
    // 28 ManifestResource
    &[U32, U32, StringIndex, Coded(Implementation)],
    // 29 NestedClass
    &[Row(TYPE_DEF), Row(TYPE_DEF)],
    // 2A GenericParam
    &[U16, U16, Coded(TypeOrMethodDef), StringIndex],
    // 2B MethodSpec
    &[Coded(MethodDefOrRef), BlobIndex],
    // 2C GenericParamConstraint
    &[Row(GENERIC_PARAM), Coded(TypeDefOrRef)],
];

static TYPE_DEF_OR_REF: [Option<u8>; 3] = [Some(TYPE_DEF), Some(TYPE_REF), Some(TYPE_SPEC)];

static HAS_CONSTANT: [Option<u8>; 3] = [Some(FIELD), Some(PARAM), Some(PROPERTY)];

static HAS_CUSTOM_ATTRIBUTE: [Option<u8>; 22] = [
    Some(METHOD_DEF),
    Some(FIELD),
    Some(TYPE_REF),
    Some(TYPE_DEF),
    Some(PARAM),
    Some(INTERFACE_IMPL),
    Some(MEMBER_REF),
    Some(MODULE),
    Some(DECL_SECURITY),
    Some(PROPERTY),
    Some(EVENT),
    Some(STAND_ALONE_SIG),
    Some(MODULE_REF),
    Some(TYPE_SPEC),
    Some(ASSEMBLY),
    Some(ASSEMBLY_REF),
    Some(FILE),
    Some(EXPORTED_TYPE),
    Some(MANIFEST_RESOURCE),
    Some(GENERIC_PARAM),
    Some(GENERIC_PARAM_CONSTRAINT),
    Some(METHOD_SPEC),
];

static HAS_FIELD_MARSHAL: [Option<u8>; 2] = [Some(FIELD), Some(PARAM)];

static HAS_DECL_SECURITY: [Option<u8>; 3] = [Some(TYPE_DEF), Some(METHOD_DEF), Some(ASSEMBLY)];

static MEMBER_REF_PARENT: [Option<u8>; 5] = [
    Some(TYPE_DEF),
    Some(TYPE_REF),
    Some(MODULE_REF),
    Some(METHOD_DEF),
    Some(TYPE_SPEC),
];

static HAS_SEMANTICS: [Option<u8>; 2] = [Some(EVENT), Some(PROPERTY)];

static METHOD_DEF_OR_REF: [Option<u8>; 2] = [Some(METHOD_DEF), Some(MEMBER_REF)];

static MEMBER_FORWARDED: [Option<u8>; 2] = [Some(FIELD), Some(METHOD_DEF)];

static IMPLEMENTATION: [Option<u8>; 3] = [Some(FILE), Some(ASSEMBLY_REF), Some(EXPORTED_TYPE)];

static CUSTOM_ATTRIBUTE_TYPE: [Option<u8>; 5] = [
    None,
    None,
    Some(METHOD_DEF),
    Some(MEMBER_REF),
    None,
];

static RESOLUTION_SCOPE: [Option<u8>; 4] = [
    Some(MODULE),
    Some(MODULE_REF),
    Some(ASSEMBLY_REF),
    Some(TYPE_REF),
];

static TYPE_OR_METHOD_DEF: [Option<u8>; 2] = [Some(TYPE_DEF), Some(METHOD_DEF)];

/// The columns of a table; none where the table is not read.
#[tactic(auto, unfolding(crate::specs::Schema::the_tables))]
pub fn columns(table: u8) -> &'static [Column]
    ensures columns { result.now ≡ columns_of table }
    ensures few { length result.now ≤ 16 }
{
    let table = table as usize;
    if table < TABLE_COUNT {
        TABLES[table]
    } else {
        &[]
    }
}

impl CodedIndex {
    ghost use Rattle.cli_tables.specs.Schema.{coded_tables, table_of_tag, tag_bits};

    /// The tables, by rising tag; None where a tag is unused.
    pub fn tables(self) -> &'static [Option<u8>]
        ensures { result.now ≡ coded_tables self }
    {
        match self {
            TypeDefOrRef => &TYPE_DEF_OR_REF,
            HasConstant => &HAS_CONSTANT,
            HasCustomAttribute => &HAS_CUSTOM_ATTRIBUTE,
            HasFieldMarshal => &HAS_FIELD_MARSHAL,
            HasDeclSecurity => &HAS_DECL_SECURITY,
            MemberRefParent => &MEMBER_REF_PARENT,
            HasSemantics => &HAS_SEMANTICS,
            MethodDefOrRef => &METHOD_DEF_OR_REF,
            MemberForwarded => &MEMBER_FORWARDED,
            Implementation => &IMPLEMENTATION,
            CustomAttributeType => &CUSTOM_ATTRIBUTE_TYPE,
            ResolutionScope => &RESOLUTION_SCOPE,
            TypeOrMethodDef => &TYPE_OR_METHOD_DEF,
        }
    }

    /// How many bits the tag has.
    pub fn bits(self) -> u32
        ensures value { result ≡ tag_bits self }
        ensures small { result ≤ 5 }
    {
        match self {
            HasCustomAttribute => 5,
            MemberRefParent | CustomAttributeType => 3,
            TypeDefOrRef | HasConstant | HasDeclSecurity | Implementation | ResolutionScope => 2,
            HasFieldMarshal | HasSemantics | MethodDefOrRef | MemberForwarded | TypeOrMethodDef =>
                1,
        }
    }

    /// The table of a tag; None where the tag is unused.
    pub fn table_of(self, tag: u32) -> Option<u8>
        ensures { result ≡ table_of_tag self tag }
    {
        match self.tables().get(tag as usize) {
            None => None,
            Some(table) => *table,
        }
    }
}
