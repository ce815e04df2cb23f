//! The texts of types.
ghost use Rattle.std.specs.Prelude.{◌≡◌, ◌++◌, OnOk, string_bytes};
ghost use Rattle.wasmi_link_lib.specs.Lines.{item_of};
ghost use Rattle.wasmi_link_lib.specs.Report.{given_text, is_same_kind, kind_text, limits_text, ref_type_text, results_text, tuple_text, type_text, val_type_text};

use crate::line::ItemType;
use std::alloc::{AllocError, Allocator};
use wasmi_module::{Limits, RefType, ValType};

// The kind of an item.
pub(crate) fn kind_text<A: Allocator>(item: &ItemType<'_, A>) -> &'static str
    ensures { result.now ≡ kind_text (item_of item.now) }
{
    match item {
        ItemType::Func(_) => "func",
        ItemType::Table(_) => "table",
        ItemType::Memory(_) => "memory",
        ItemType::Global(_) => "global",
    }
}

// The type of an item that is given in place of the one asked for, behind its kind where that is another.
pub(crate) fn write_given<A: Allocator, B: Allocator>(
    text: &mut String<B>,
    asked: &ItemType<'_, A>,
    given: &ItemType<'_, A>,
) -> Result<(), AllocError>
    ensures { OnOk result (string_bytes text.new ≡ string_bytes text.old ++ given_text (item_of asked.now) (item_of given.now)) }
{
    if !is_same_kind(asked, given) {
        write!(text, "{} ", kind_text(given))?;
    }
    write_type(text, given)
}

// Whether two items are of one kind.
fn is_same_kind<A: Allocator>(asked: &ItemType<'_, A>, given: &ItemType<'_, A>) -> bool
    ensures { result ≡ is_same_kind (item_of asked.now) (item_of given.now) }
{
    match asked {
        ItemType::Func(_) => matches!(given, ItemType::Func(_)),
        ItemType::Table(_) => matches!(given, ItemType::Table(_)),
        ItemType::Memory(_) => matches!(given, ItemType::Memory(_)),
        ItemType::Global(_) => matches!(given, ItemType::Global(_)),
    }
}

// The type of an item.
pub(crate) fn write_type<A: Allocator, B: Allocator>(
    text: &mut String<B>,
    item: &ItemType<'_, A>,
) -> Result<(), AllocError>
    ensures { OnOk result (string_bytes text.new ≡ string_bytes text.old ++ type_text (item_of item.now)) }
{
    match item {
        ItemType::Func(ty) => {
            write_tuple(text, &ty.params)?;
            text.push_str(" -> ")?;
            write_results(text, &ty.results)
        }
        ItemType::Table(ty) => {
            write!(text, "{} ", ref_type_text(ty.element))?;
            write_limits(text, &ty.limits)
        }
        ItemType::Memory(ty) => write_limits(text, &ty.limits),
        ItemType::Global(ty) => {
            let access = if ty.mutable { "mut " } else { "" };
            write!(text, "{access}{}", val_type_text(ty.value))
        }
    }
}

// Types of values, in parentheses.
fn write_tuple<B: Allocator>(text: &mut String<B>, types: &[ValType]) -> Result<(), AllocError>
    ensures { OnOk result (string_bytes text.new ≡ string_bytes text.old ++ tuple_text types.now) }
{
    match types {
        [] => text.push_str("()"),
        [first, others @ ..] => {
            write!(text, "({}", val_type_text(*first))?;
            for ty in others {
                write!(text, " {}", val_type_text(*ty))?;
            }
            text.push_str(")")
        }
    }
}

// The types of results.
fn write_results<B: Allocator>(text: &mut String<B>, types: &[ValType]) -> Result<(), AllocError>
    ensures { OnOk result (string_bytes text.new ≡ string_bytes text.old ++ results_text types.now) }
{
    match types {
        [ty] => text.push_str(val_type_text(*ty)),
        types => write_tuple(text, types),
    }
}

// The least and the most.
fn write_limits<B: Allocator>(text: &mut String<B>, limits: &Limits) -> Result<(), AllocError>
    ensures { OnOk result (string_bytes text.new ≡ string_bytes text.old ++ limits_text limits.now) }
{
    match limits.max {
        Some(max) => write!(text, "{}..{max}", limits.min),
        None => write!(text, "{}..", limits.min),
    }
}

// The type of a value.
fn val_type_text(ty: ValType) -> &'static str
    ensures { result.now ≡ val_type_text ty }
{
    match ty {
        ValType::I32 => "i32",
        ValType::I64 => "i64",
        ValType::F32 => "f32",
        ValType::F64 => "f64",
        ValType::V128 => "v128",
        ValType::FuncRef => "funcref",
        ValType::ExternRef => "externref",
    }
}

// The type of a reference.
fn ref_type_text(ty: RefType) -> &'static str
    ensures { result.now ≡ ref_type_text ty }
{
    match ty {
        RefType::FuncRef => "funcref",
        RefType::ExternRef => "externref",
    }
}
