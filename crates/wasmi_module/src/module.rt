//! Modules, as decoded.
use std::alloc::Allocator;

/// The type of a value.
#[derive(Clone, Copy, Debug, PartialEq, Eq, Hash)]
pub enum ValType {
    /// Integers of 32 bits.
    I32,
    /// Integers of 64 bits.
    I64,
    /// Floats of 32 bits.
    F32,
    /// Floats of 64 bits.
    F64,
    /// Vectors of 128 bits.
    V128,
    /// References to functions.
    FuncRef,
    /// References to what the host has.
    ExternRef,
}

/// The type of a reference.
#[derive(Clone, Copy, Debug, PartialEq, Eq)]
pub enum RefType {
    /// To a function.
    FuncRef,
    /// To what the host has.
    ExternRef,
}

/// How many elements a table has, or how many pages a memory.
#[derive(Clone, Copy, Debug, PartialEq, Eq)]
pub struct Limits {
    /// At least so many.
    pub min: u32,
    /// At most so many, if there is a limit.
    pub max: Option<u32>,
}

/// The type of a table.
#[derive(Clone, Copy, Debug, PartialEq, Eq)]
pub struct TableType {
    /// Of its elements.
    pub element: RefType,
    /// How many elements it has.
    pub limits: Limits,
}

/// The type of a memory.
#[derive(Clone, Copy, Debug, PartialEq, Eq)]
pub struct MemoryType {
    /// How many pages of 65,536 bytes it has.
    pub limits: Limits,
}

/// The type of a global.
#[derive(Clone, Copy, Debug, PartialEq, Eq)]
pub struct GlobalType {
    /// Of its value.
    pub value: ValType,
    /// Whether it may be written.
    pub mutable: bool,
}

/// The type of a function.
#[derive(Debug, Drop)]
pub struct FuncType<A: Allocator> {
    /// Of its parameters.
    pub params: Vec<ValType, A>,
    /// Of its results.
    pub results: Vec<ValType, A>,
}

/// What a module asks for.
#[derive(Clone, Copy, Debug, PartialEq, Eq)]
pub enum ImportType {
    /// A function of the type of this index.
    Func(u32),
    /// A table.
    Table(TableType),
    /// A memory.
    Memory(MemoryType),
    /// A global.
    Global(GlobalType),
}

/// An import.
#[derive(Clone, Copy, Debug)]
pub struct Import<'a> {
    /// The name of the module that is asked.
    pub module: &'a str,
    /// The name of its export.
    pub field: &'a str,
    /// What is asked for.
    pub item: ImportType,
}

/// The first value of a global: a constant instruction.
#[derive(Clone, Copy, Debug)]
pub enum Init<'a> {
    /// An integer of 32 bits.
    I32(i32),
    /// An integer of 64 bits.
    I64(i64),
    /// The four bytes of a float.
    F32(&'a [u8]),
    /// The eight bytes of a float.
    F64(&'a [u8]),
    /// The sixteen bytes of a vector.
    V128(&'a [u8]),
    /// The null reference of this type.
    RefNull(RefType),
    /// A reference to the function of this index.
    RefFunc(u32),
    /// The value of the global of this index.
    GlobalGet(u32),
}

/// A global.
#[derive(Clone, Copy, Debug)]
pub struct Global<'a> {
    /// Its type.
    pub ty: GlobalType,
    /// Its first value.
    pub init: Init<'a>,
}

/// What is imported or exported.
#[derive(Clone, Copy, Debug, PartialEq, Eq)]
pub enum Kind {
    /// A function.
    Func,
    /// A table.
    Table,
    /// A memory.
    Memory,
    /// A global.
    Global,
}

/// An export.
#[derive(Clone, Copy, Debug)]
pub struct Export<'a> {
    /// Its name.
    pub name: &'a str,
    /// What is exported.
    pub kind: Kind,
    /// Its index among the module's items of this kind, those that it imports first.
    pub index: u32,
}

/// What a module says of itself up to its exports. Names are those of the bytes it was decoded from.
#[derive(Debug, Drop)]
pub struct Module<'a, A: Allocator> {
    /// The types of functions.
    pub types: Vec<FuncType<A>, A>,
    /// What it asks for.
    pub imports: Vec<Import<'a>, A>,
    /// The index of the type of each function of its own.
    pub functions: Vec<u32, A>,
    /// Its own tables.
    pub tables: Vec<TableType, A>,
    /// Its own memories.
    pub memories: Vec<MemoryType, A>,
    /// Its own globals.
    pub globals: Vec<Global<'a>, A>,
    /// What it gives.
    pub exports: Vec<Export<'a>, A>,
}
