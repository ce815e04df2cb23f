//! Writes what the modules in files say of themselves, an item a line.
#![tactic(auto)]

use std::alloc::Global;
use std::{env, fs, io};
use wasmi_module::{Module, decode};

fn main(rt: HostRuntime) -> io::Result<()> {
    for path in env::args(&rt)?.skip(1) {
        let bytes = fs::read(&rt, path.as_str())?;
        match decode(rt.alloc(), bytes.as_slice()) {
            Ok(module) => {
                println!(rt; "{path}: ok")?;
                dump(&rt, &module)?;
            }
            Err(error) => println!(rt; "{path}: {error}")?,
        }
    }
    Ok(())
}

// Writes each item, in the order of the sections.
fn dump(rt: &impl Print, module: &Module<'_, Global>) -> io::Result<()> {
    for ty in &module.types {
        println!(rt; "type {:?} {:?}", ty.params, ty.results)?;
    }
    for import in &module.imports {
        println!(rt;
            "import {} {} {:?}",
            import.module, import.field, import.item
        )?;
    }
    for index in &module.functions {
        println!(rt; "func {index}")?;
    }
    for ty in &module.tables {
        println!(rt; "table {ty:?}")?;
    }
    for ty in &module.memories {
        println!(rt; "memory {ty:?}")?;
    }
    for global in &module.globals {
        println!(rt; "global {:?} {:?}", global.ty, global.init)?;
    }
    for export in &module.exports {
        println!(rt; "export {} {:?} {}", export.name, export.kind, export.index)?;
    }
    Ok(())
}
