//! The lines of operations.
ghost use Rattle.std.specs.Prelude.{◌≡◌, ◌≤◌, ℕ, List, true};
ghost use Rattle.melt_trace.specs.Language.{Place, is_operation};
ghost use Rattle.melt_trace.specs.Parsing.{AreArguments, IsOperationOf, IsShort};

use crate::language::Word;
use crate::parser::fields::Arguments;
use crate::parser::numbers::{Limits, none, one, three, two};
use crate::reason::Reason;
use melt_model::Op;

/// The operation of a line with two numbers or fewer.
fn short_operation(word: Word, globals: u32, arguments: &Arguments<'_>) -> Result<Op, Reason>
    requires word { IsShort word }
    requires globals { globals ≤ 64 }
    ensures { (place : Place) (fields : List (List ℕ)) → place.script.globals ≡ globals
        → AreArguments arguments.now fields → IsOperationOf place word fields result }
{
    let register = Limits::REGISTER;
    let global = Limits::global(globals);
    match word {
        Word::Get => {
            let (src, j) = two(arguments, register, Limits::PART)?;
            let (src, j) = (src as u8, j as u8);
            Ok(Op::Get { src, j })
        }
        Word::GLoad => {
            let (dst, g) = two(arguments, register, global)?;
            let (dst, g) = (dst as u8, g as u8);
            Ok(Op::GLoad { dst, g })
        }
        Word::GStore => {
            let (g, src) = two(arguments, global, register)?;
            let (g, src) = (g as u8, src as u8);
            Ok(Op::GStore { g, src })
        }
        Word::Same => {
            let (a, b) = two(arguments, register, register)?;
            let (a, b) = (a as u8, b as u8);
            Ok(Op::Same { a, b })
        }
        Word::Copy => {
            let (dst, src) = two(arguments, register, register)?;
            let (dst, src) = (dst as u8, src as u8);
            Ok(Op::Copy { dst, src })
        }
        Word::Drop => Ok(Op::Drop {
            r: one(arguments, register)? as u8,
        }),
        _ => none(arguments).map(|_| Op::Collect),
    }
}

/// The operation of a line, among this many globals.
pub fn operation(word: Word, globals: u32, arguments: &Arguments<'_>) -> Result<Op, Reason>
    requires word { is_operation word ≡ true }
    requires globals { globals ≤ 64 }
    ensures { (place : Place) (fields : List (List ℕ)) → place.script.globals ≡ globals
        → AreArguments arguments.now fields → IsOperationOf place word fields result }
{
    let register = Limits::REGISTER;
    match word {
        Word::New => {
            let (dst, refs, nums) = three(arguments, register, Limits::PARTS, Limits::PARTS)?;
            let (dst, refs, nums) = (dst as u8, refs as u8, nums as u8);
            Ok(Op::New { dst, refs, nums })
        }
        Word::Load => {
            let (dst, src, i) = three(arguments, register, register, Limits::PART)?;
            let (dst, src, i) = (dst as u8, src as u8, i as u8);
            Ok(Op::Load { dst, src, i })
        }
        Word::Store => {
            let (obj, i, src) = three(arguments, register, Limits::PART, register)?;
            let (obj, i, src) = (obj as u8, i as u8, src as u8);
            Ok(Op::Store { obj, i, src })
        }
        Word::Put => {
            let (obj, j, v) = three(arguments, register, Limits::PART, Limits::WORD)?;
            let (obj, j) = (obj as u8, j as u8);
            Ok(Op::Put { obj, j, v })
        }
        _ => short_operation(word, globals, arguments),
    }
}
