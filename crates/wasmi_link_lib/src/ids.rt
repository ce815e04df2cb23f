//! The keys of modules and of types of functions.
use wasmi_arena::TypedKey;

// What has a `ModuleId`.
pub(crate) enum Modules {}

// The key of a module: its number among the modules.
pub(crate) type ModuleId = TypedKey<Modules>;

// What has a `TypeId`.
pub(crate) enum Types {}

// The key of a type of functions: its number among those that differ.
pub(crate) type TypeId = TypedKey<Types>;
