//! Modules under their names.
use std::alloc::Allocator;
use wasmi_module::Module;

/// A module under its name.
#[derive(Drop)]
pub struct NamedModule<'a, A: Allocator> {
    /// The name.
    pub name: &'a str,
    /// What it says of itself.
    pub module: Module<'a, A>,
}
