//! What is checked of a whole list.
ghost use Rattle.std.specs.Prelude.{◌≡◌, ◌↔◌, ◌≤◌, IfOk, IsTrue, All, length, map};
ghost use Rattle.std.specs.List.{count_by, list_any};
ghost use Rattle.std.specs.Str.{bytes_eq};
ghost use Rattle.wasmi_module.specs.Valid.{is_of, IsImportWithin, IsInitWithin, AreDistinct};
ghost use Rattle.wasmi_module.specs.Views.{init_of};

use crate::counts::Counts;
use crate::module::{Export, Global, Import, ImportType, Init, Kind};
use std::alloc::{AllocError, Allocator};
use std::collections::BTreeSet;

// Whether an import has a type of the module.
pub(crate) fn is_import_within(item: &ImportType, counts: &Counts) -> bool
    ensures { IsTrue result ↔ IsImportWithin counts.now item.now }
{
    match item {
        ImportType::Func(index) => (*index as usize) < counts.types,
        _ => true,
    }
}

impl ImportType {
    /// Whether it is of this kind. Constant time.
    pub fn is_of(&self, kind: Kind) -> bool
        ensures { result ≡ is_of kind self.now }
    {
        match kind {
            Kind::Func => matches!(self, ImportType::Func(_)),
            Kind::Table => matches!(self, ImportType::Table(_)),
            Kind::Memory => matches!(self, ImportType::Memory(_)),
            Kind::Global => matches!(self, ImportType::Global(_)),
        }
    }
}

// How many imports are of this kind.
pub(crate) fn imported(imports: &[Import<'_>], kind: Kind) -> usize
    ensures count { result ≡ count_by (λ import. is_of kind import.item) imports.now }
    ensures bound { result ≤ length imports.now }
{
    imports
        .iter()
        .filter(|import| import.item.is_of(kind))
        .count()
}

// Whether the first values of globals refer only to what there is.
pub(crate) fn are_inits_within(globals: &[Global<'_>], counts: &Counts) -> bool
    ensures { IsTrue result ↔ All (λ global. IsInitWithin counts.now (init_of global.init)) globals.now }
{
    globals
        .iter()
        .all(|global| is_init_within(&global.init, counts))
}

// Whether a first value refers only to what there is.
fn is_init_within(init: &Init<'_>, counts: &Counts) -> bool
    ensures { IsTrue result ↔ IsInitWithin counts.now (init_of init.now) }
{
    match init {
        Init::RefFunc(index) => (*index as usize) < counts.functions,
        Init::GlobalGet(index) => (*index as usize) < counts.globals,
        _ => true,
    }
}

// So many names are compared each with each, which costs less than a set of them.
const FEW: usize = 16;

// Whether no two exports have one name.
pub(crate) fn are_distinct<A: Allocator + Copy>(
    alloc: A,
    exports: &[Export<'_>],
) -> Result<bool, AllocError>
    ensures { IfOk result (λ distinct. IsTrue distinct ↔ AreDistinct (map (λ export. export.name.now) exports.now)) }
{
    if exports.len() <= FEW {
        return Ok(are_few_distinct(exports));
    }
    let mut names = BTreeSet::new(alloc);
    for export in exports {
        if !names.insert(export.name)? {
            return Ok(false);
        }
    }
    Ok(true)
}

// The same of few exports, without memory.
fn are_few_distinct(exports: &[Export<'_>]) -> bool
    ensures { IsTrue result ↔ AreDistinct (map (λ export. export.name.now) exports.now) }
{
    for (place, export) in exports.iter().enumerate() {
        if is_among(&exports[..place], export.name) {
            return false;
        }
    }
    true
}

// Whether one of these exports has this name.
fn is_among(exports: &[Export<'_>], name: &str) -> bool
    ensures { result ≡ list_any (bytes_eq name.now) (map (λ export. export.name.now) exports.now) }
{
    exports.iter().any(|export| name == export.name)
}
