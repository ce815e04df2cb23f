//! From the files of modules to a report.
ghost use Rattle.std.specs.Prelude.{◌≡◌, ◌≢◌, map, IfErr, IfOk, string_bytes};
ghost use Rattle.std.specs.List.{AllZip};
ghost use Rattle.wasmi_link_lib.specs.Files.{IsIn, IsNoModule, IsRefusal, IsWantOfMemory, Tells};
ghost use Rattle.wasmi_link_lib.specs.inner.Files.{IsShortage};
ghost use Rattle.wasmi_link_lib.specs.Linking.{AreValid, linked, named_of};
ghost use Rattle.wasmi_link_lib.specs.Report.{report_text, status_of};

use crate::named::NamedModule;
use crate::path::module_name;
use crate::resolver::resolve;
use crate::text::{exit_status, report};
use std::alloc::{AllocError, AllocFailed, Allocator};
use thiserror::Error;
use wasmi_arena::ArenaError;
use wasmi_module::{DecodeError, decode};

/// A file with its bytes.
#[derive(Clone, Copy, Debug)]
pub struct File<'a> {
    /// Where it lies.
    pub path: &'a str,
    /// What is in it.
    pub bytes: &'a [u8],
}

/// A report, and the exit status of a program that prints it.
#[derive(Debug, Drop)]
pub struct Outcome<A: Allocator> {
    /// The report.
    pub text: String<A>,
    /// 0 where all imports are found, else 1.
    pub status: u8,
}

/// Why there is no report.
#[derive(Clone, Copy, Debug, PartialEq, Eq, Error)]
pub enum LinkError {
    /// The file at this place among the files, from 0 on, is no module.
    #[error("file {0}: {1}")]
    NotAModule(usize, DecodeError),
    /// There is no memory, or there are more modules, names or types than have keys.
    #[error("{0}")]
    Refused(ArenaError),
}

impl From<AllocError> for LinkError {
    ghost from_gives = { λ _ error. IsWantOfMemory error };

    fn from(_error: AllocError) -> LinkError {
        LinkError::Refused(ArenaError::OutOfSystemMemory)
    }
}

impl<T: Drop> From<AllocFailed<T>> for LinkError {
    ghost from_gives = { λ _ error. IsWantOfMemory error };

    fn from(_error: AllocFailed<T>) -> LinkError {
        LinkError::Refused(ArenaError::OutOfSystemMemory)
    }
}

/// Decodes the modules in files, and reports which of them gives what another one asks for.
///
/// Of several files that are no modules, the error is of the first, unless memory ran out before. Expected
/// time and memory are linear in the files and the report.
pub fn link<A: Allocator + Copy>(alloc: A, files: &[File<'_>]) -> Result<Outcome<A>, LinkError>
    ensures tells { IfOk result (λ outcome. Tells files.now (string_bytes outcome.text) outcome.status) }
    ensures errors { IfErr result (IsRefusal files.now) }
{
    let modules = decode_all(alloc, &*files)?;
    link_modules(alloc, &modules)
}

// The report on modules.
fn link_modules<A: Allocator + Copy>(
    alloc: A,
    modules: &[NamedModule<'_, A>],
) -> Result<Outcome<A>, LinkError>
    requires { AreValid (map named_of modules.now) }
    ensures text { IfOk result (λ outcome.
        string_bytes outcome.text ≡ report_text (linked (map named_of modules.now))) }
    ensures status { IfOk result (λ outcome.
        outcome.status ≡ status_of (linked (map named_of modules.now))) }
    ensures errors { IfErr result (IsShortage (linked (map named_of modules.now))) }
{
    let linked = match resolve(alloc, &*modules) {
        Ok(linked) => linked,
        Err(error) => return Err(LinkError::Refused(error)),
    };
    let status = exit_status(&linked);
    let text = report(alloc, &linked)?;
    Ok(Outcome { text, status })
}

// The modules in files, in order.
fn decode_all<'a, A: Allocator + Copy>(
    alloc: A,
    files: &'a [File<'a>],
) -> Result<Vec<NamedModule<'a, A>, A>, LinkError>
    ensures read { IfOk result (λ modules. AllZip IsIn files.now (map named_of modules.items)) }
    ensures valid { IfOk result (λ modules. AreValid (map named_of modules.items)) }
    ensures errors { IfErr result (IsRefusal files.now) }
{
    let mut modules = Vec::new(alloc);
    for (place, file) in files.iter().enumerate() {
        match decode_file(alloc, file) {
            Ok(named) => modules.push(named)?,
            Err(DecodeError::NoMemory) => {
                return Err(LinkError::Refused(ArenaError::OutOfSystemMemory));
            }
            Err(error) => return Err(LinkError::NotAModule(place, error)),
        }
    }
    Ok(modules)
}

// The module in a file, under its name.
fn decode_file<'a, A: Allocator + Copy>(
    alloc: A,
    file: &'a File<'a>,
) -> Result<NamedModule<'a, A>, DecodeError>
    ensures ok { IfOk result (λ named. IsIn file.now (named_of named)) }
    ensures none { IfErr result (λ error. error ≢ DecodeError.NoMemory → IsNoModule file.now) }
{
    let module = decode(alloc, file.bytes)?;
    Ok(NamedModule {
        name: module_name(file.path),
        module,
    })
}
