//! What linking finds out: each import with its answer, and the counts.
use std::alloc::Allocator;
use wasmi_module::{FuncType, GlobalType, MemoryType, TableType};

/// The type of what is imported or exported.
#[derive_where(Clone, Copy)]
pub enum ItemType<'a, A: Allocator> {
    /// Of a function.
    Func(&'a FuncType<A>),
    /// Of a table.
    Table(TableType),
    /// Of a memory.
    Memory(MemoryType),
    /// Of a global.
    Global(GlobalType),
}

/// What became of an import.
#[derive_where(Clone, Copy)]
pub enum Answer<'a, A: Allocator> {
    /// This module gives it.
    Found(&'a str),
    /// No module of that name is there, or the first one has no such export.
    Missing,
    /// This module has an export of that name, which is of this type.
    Differs(&'a str, ItemType<'a, A>),
}

/// An import with its answer.
#[derive_where(Clone, Copy)]
pub struct Line<'a, A: Allocator> {
    /// The module that imports.
    pub asker: &'a str,
    /// The module that it asks.
    pub asked: &'a str,
    /// The name of the export that it asks for.
    pub field: &'a str,
    /// The type that it asks for.
    pub item: ItemType<'a, A>,
    /// What became of it.
    pub answer: Answer<'a, A>,
}

/// All imports of all modules with their answers, and the counts.
#[derive(Drop)]
pub struct Linked<'a, A: Allocator> {
    /// The imports, in the order of the modules and of their imports.
    pub lines: Vec<Line<'a, A>, A>,
    /// How many modules there are.
    pub modules: usize,
    /// How many entries all their type sections have.
    pub types: usize,
    /// How many types of functions are among these.
    pub distinct_types: usize,
    /// How many different names there are: of modules, of what they ask for, and of exports.
    pub names: usize,
}
