//! The text of a trace.
ghost use Rattle.std.specs.Prelude.{◌≡◌, ◌≤◌, [], ◌++◌, ◌∷◌, length, codes, Ok, IfOk, OnOk};
ghost use Rattle.std.specs.List.{flat_map};
ghost use Rattle.melt_text.specs.Printed.{line};
ghost use Rattle.melt_trace.specs.Grammar.{op_line, item_line, program_lines, canonical};
ghost use Rattle.melt_trace.specs.Language.{max_bytes, script_of};

use crate::script::Item;
use crate::trace::{Program, Trace};
use melt_model::{NoMemory, Op};
use melt_text::push_line;
use std::alloc::Global;

fn push_one(out: &mut Vec<u8>, word: &[u8], a: u8) -> Result<(), NoMemory>
    ensures { OnOk result (out.new.items ≡ out.old.items ++ line word.now (a ∷ [])) }
{
    push_line(out, word, &[u64::from(a)])
}

fn push_two(out: &mut Vec<u8>, word: &[u8], a: u8, b: u8) -> Result<(), NoMemory>
    ensures { OnOk result (out.new.items ≡ out.old.items ++ line word.now (a ∷ b ∷ [])) }
{
    push_line(out, word, &[u64::from(a), u64::from(b)])
}

fn push_three(out: &mut Vec<u8>, word: &[u8], a: u8, b: u8, c: u8) -> Result<(), NoMemory>
    ensures { OnOk result (out.new.items ≡ out.old.items ++ line word.now (a ∷ b ∷ c ∷ [])) }
{
    push_line(out, word, &[u64::from(a), u64::from(b), u64::from(c)])
}

fn push_op(out: &mut Vec<u8>, op: Op) -> Result<(), NoMemory>
    ensures { OnOk result (out.new.items ≡ out.old.items ++ op_line op) }
{
    match op {
        Op::New { dst, refs, nums } => push_three(out, b"new", dst, refs, nums),
        Op::Load { dst, src, i } => push_three(out, b"load", dst, src, i),
        Op::Store { obj, i, src } => push_three(out, b"store", obj, i, src),
        Op::Get { src, j } => push_two(out, b"get", src, j),
        Op::Put { obj, j, v } => push_line(out, b"put", &[u64::from(obj), u64::from(j), v]),
        Op::GLoad { dst, g } => push_two(out, b"gload", dst, g),
        Op::GStore { g, src } => push_two(out, b"gstore", g, src),
        Op::Same { a, b } => push_two(out, b"same", a, b),
        Op::Copy { dst, src } => push_two(out, b"copy", dst, src),
        Op::Drop { r } => push_one(out, b"drop", r),
        Op::Collect => push_line(out, b"collect", &[]),
    }
}

fn push_item(out: &mut Vec<u8>, item: Item) -> Result<(), NoMemory>
    ensures { OnOk result (out.new.items ≡ out.old.items ++ item_line item) }
{
    match item {
        Item::Op(op) => push_op(out, op),
        Item::Repeat(turns) => push_line(out, b"repeat", &[u64::from(turns)]),
        Item::End => push_line(out, b"end", &[]),
    }
}

fn push_items(out: &mut Vec<u8>, items: &[Item]) -> Result<(), NoMemory>
    ensures { OnOk result (out.new.items ≡ out.old.items ++ flat_map item_line items.now) }
{
    for item in items {
        push_item(out, *item)?;
    }
    Ok(())
}

fn push_program(out: &mut Vec<u8>, thread: u64, program: &Program) -> Result<(), NoMemory>
    ensures { OnOk result (out.new.items ≡ out.old.items
        ++ (line (codes "thread") (thread ∷ []) ++ flat_map item_line program.now ++ line (codes "done") [])) }
{
    push_line(out, b"thread", &[thread])?;
    push_items(out, program.items())?;
    push_line(out, b"done", &[])
}

fn push_programs(out: &mut Vec<u8>, programs: &[Program]) -> Result<(), NoMemory>
    ensures { OnOk result (out.new.items ≡ out.old.items ++ program_lines 0 programs.now) }
{
    for (thread, program) in programs.iter().enumerate() {
        push_program(out, thread as u64, program)?;
    }
    Ok(())
}

fn push_orders(out: &mut Vec<u8>, orders: &[(u32, u32)]) -> Result<(), NoMemory>
    ensures { OnOk result (out.new.items ≡ out.old.items
        ++ flat_map (λ order. line (codes "order") (order.0 ∷ order.1 ∷ [])) orders.now) }
{
    for (thread, events) in orders {
        push_line(out, b"order", &[u64::from(*thread), u64::from(*events)])?;
    }
    Ok(())
}

/// The trace's text in its one canonical form: no comments, no empty lines, and one space before each
/// number.
pub fn print(alloc: Global, trace: &Trace) -> Result<Vec<u8>, NoMemory>
    ensures text { IfOk result (λ text. text.items ≡ canonical trace.now) }
    ensures read_again { IfOk result (λ text. length text.items ≤ max_bytes → script_of text.items ≡ Ok trace.now) }
{
    let mut out = Vec::new(alloc);
    push_line(&mut out, b"melt", &[1])?;
    push_line(&mut out, b"threads", &[u64::from(trace.threads())])?;
    push_line(&mut out, b"globals", &[u64::from(trace.globals())])?;
    push_orders(&mut out, trace.all_orders())?;
    push_programs(&mut out, trace.programs())?;
    Ok(out)
}
