//! Searches for a text in a part. Each is a block that is left out where the part ends before the text could, and has
//! the later ones in it.

ghost use Rattle.std.specs.Prelude.{◌≡◌, ◌+◌, ◌*◌, ◌-◌, ◌≤◌, ◌++◌, suc, length, IfOk, OnOk};
ghost use Rattle.rules.specs.Limits.{FitsText, FitsPart};
ghost use Rattle.rules_compiler.specs.Code.{instructions};
ghost use Rattle.rules_compiler.specs.Tests as definitions;

use crate::pieces::{
    ANSWER, FRAME, NEAR, PART, TRUTH, change, copy, put_part, put_text, set, skip_if,
};
use machine_spec::{Instruction, Operation, Test};
use rules::{Part, Text};
use std::alloc::{AllocError, Global};

/// How many places the helper looks at.
const PLACES: usize = 4096;

/// How many bytes of a part are looked at.
const LOOKED_AT: usize = 65536;

/// How many searches may follow the first one.
const OTHERS: usize = 15;

/// Asks for the first place of the text among so many from a place on.
fn look(size: usize, place: usize) -> [Instruction; 6]
    requires size { size ≤ 255 }
    requires place { place ≤ 65536 }
    ensures { result ≡ definitions.look size place }
{
    [
        copy(1, PART),
        set(2, place as i32),
        copy(3, FRAME),
        change(Operation::Add, 3, i32::from(NEAR)),
        set(4, size as i32),
        Instruction::Call(15),
    ]
}

/// The last search.
#[tactic(auto, unfolding(crate::specs::Tests::searches_code))]
fn last_search(alloc: Global, size: usize, place: usize) -> Result<Vec<Instruction>, AllocError>
    requires size { size ≤ 255 }
    requires place { place ≤ 65536 }
    ensures { IfOk result (λ code. code.items ≡ instructions (definitions.searches_code size place 0)) }
{
    let mut code = Vec::new(alloc);
    code.extend_from_slice(&[
        copy(1, PART),
        Instruction::Call(13),
        skip_if(Test::Less, ANSWER, (place + size + 2) as i32, 9),
    ])?;
    code.extend_from_slice(&look(size, place))?;
    code.extend_from_slice(&[
        skip_if(Test::Equal, ANSWER, 0, 2),
        skip_if(Test::Greater, ANSWER, (LOOKED_AT - size + 1) as i32, 1),
        set(TRUTH, 1),
    ])?;
    Ok(code)
}

/// A search that so many others follow.
#[tactic(auto, using(crate::proofs::Lengths::searches_length), unfolding(crate::specs::Tests::searches_code))]
fn earlier_search(
    alloc: Global,
    size: usize,
    place: usize,
    left: usize,
    later: &[Instruction],
) -> Result<Vec<Instruction>, AllocError>
    requires size { size ≤ 255 }
    requires place { place ≤ 65536 }
    requires left { left ≤ OTHERS }
    requires later { later.now ≡ instructions (definitions.searches_code size (place + PLACES) left) }
    ensures { IfOk result (λ code. code.items ≡ instructions (definitions.searches_code size place (suc left))) }
{
    let mut code = Vec::new(alloc);
    code.extend_from_slice(&[
        copy(1, PART),
        Instruction::Call(13),
        skip_if(
            Test::Less,
            ANSWER,
            (place + size + 2) as i32,
            (later.len() + 9) as i16,
        ),
    ])?;
    code.extend_from_slice(&look(size, place))?;
    code.extend_from_slice(&[
        skip_if(Test::Equal, ANSWER, 0, 1),
        set(TRUTH, 1),
        skip_if(Test::NotEqual, TRUTH, 0, later.len() as i16),
    ])?;
    code.extend_from_slice(later)?;
    Ok(code)
}

/// All searches.
fn searches(alloc: Global, size: usize) -> Result<Vec<Instruction>, AllocError>
    requires { size ≤ 255 }
    ensures { IfOk result (λ code. code.items ≡ instructions (definitions.searches_code size 0 OTHERS)) }
{
    let mut code = last_search(alloc, size, PLACES * OTHERS)?;
    for left in 0..OTHERS {
        code = earlier_search(alloc, size, PLACES * (OTHERS - 1 - left), left, &code)?;
    }
    Ok(code)
}

/// Whether a text stands somewhere in a part.
#[tactic(auto, unfolding(crate::specs::Tests::has_code))]
pub fn put_has(
    alloc: Global,
    code: &mut Vec<Instruction>,
    part: &Part,
    text: &Text,
) -> Result<(), AllocError>
    requires part { FitsPart FitsText part.now }
    requires text { FitsText text.now }
    ensures { OnOk result (code.new.items ≡ code.old.items ++ instructions (definitions.has_code part.now text.now)) }
{
    let searches = searches(alloc, text.bytes.len())?;
    put_part(code, part)?;
    put_text(code, NEAR, &text.bytes)?;
    code.push(set(TRUTH, 0))?;
    code.extend_from_slice(&searches)
}
