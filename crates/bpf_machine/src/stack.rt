//! The stack of the plain machine.
ghost use Rattle.std.specs.Prelude.{◌≡◌, ℕ, ◌+◌, ◌≤◌, length, None, IfOk};
ghost use Rattle.machine_spec.specs.declared.limits.TheConstants.{STACK_SIZE};
ghost use Rattle.machine_spec.specs.Machine.{stack_with_bytes};
ghost use Rattle.bpf_machine.specs.Views.{stack_of};

use machine_spec::STACK_SIZE;
use std::alloc::{AllocError, Global};
use std::marker::Model;

/// The bytes of the stack, of which each is set or not. A clause sees the list of them.
#[derive(Drop)]
pub struct Stack {
    bytes: Vec<Option<u8>>,
}

impl Model for Stack {
    ghost use Rattle.std.specs.Prelude.{◌≡◌, List, ℕ, Option, length};
    ghost use Rattle.machine_spec.specs.declared.limits.TheConstants.{STACK_SIZE};

    ghost Value = { List (Option ℕ) };

    ghost view = { λ s. s.bytes.items };

    ghost invariant = { λ s. length s.bytes.items ≡ STACK_SIZE };
}

/// As many bytes as the stack has, none of them set.
fn unset(alloc: Global) -> Result<Vec<Option<u8>>, AllocError>
    ensures size { IfOk result (λ bytes. length bytes.items ≡ STACK_SIZE) }
    ensures none { IfOk result (λ bytes. (place : ℕ) → stack_of bytes.items place ≡ None) }
{
    let mut bytes = Vec::with_capacity(alloc, STACK_SIZE)?;
    for _count in 0..STACK_SIZE {
        bytes.push(None)?;
    }
    Ok(bytes)
}

/// Sets bytes from a place on.
fn set(stack: &mut [Option<u8>], start: usize, bytes: &[u8])
    requires { start + length bytes.now ≤ length stack.old }
    ensures { (place : ℕ) → stack_of stack.new place ≡ stack_with_bytes (stack_of stack.old) start bytes.now place }
{
    for k in 0..bytes.len() {
        stack[start + k] = Some(bytes[k]);
    }
}

impl Stack {
    /// A stack of which no byte is set. It fails only where memory runs out.
    pub fn new(alloc: Global) -> Result<Stack, AllocError>
        ensures { IfOk result (λ stack. (place : ℕ) → stack_of stack place ≡ None) }
    {
        let bytes = unset(alloc)?;
        Ok(Stack { bytes })
    }

    /// The byte at a place, from 0; none where it is not set or past the stack's end.
    pub fn get(&self, place: u128) -> Option<u8>
        ensures { result ≡ stack_of self.now place }
    {
        if place < STACK_SIZE as u128 {
            self.bytes[place as usize]
        } else {
            None
        }
    }

    /// Sets bytes from a place on, which end within the stack.
    pub fn write(&mut self, start: usize, bytes: &[u8])
        requires { start + length bytes.now ≤ STACK_SIZE }
        ensures { (place : ℕ) → stack_of self.new place ≡ stack_with_bytes (stack_of self.old) start bytes.now place }
    {
        set(&mut self.bytes, start, bytes);
    }
}
