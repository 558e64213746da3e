ghost use Rattle.std.specs.Prelude.{◌≡◌, true, if◌then◌else◌, Some, None, IfSome, IfNone};
ghost use Rattle.verifier_spec.specs.declared.state.Abstract.{Abstract};
ghost use Rattle.verifier_spec.specs.Ranges.{lengths_from_to};
ghost use Rattle.verifier_spec.specs.Kinds.{kind_at};
ghost use Rattle.verifier_spec.specs.States.{is_proper, is_within, entry_state};
ghost use Rattle.verifier_spec.specs.Joins.{joined_state};
ghost use Rattle.verifier_spec.specs.Checks.{failed_check};
ghost use Rattle.verifier_spec.specs.Transfer.{falls_to, jumps_to};
ghost use Rattle.machine_spec.specs.Image.{helpers_of};
ghost use Rattle.machine_spec.specs.declared.helper.TheConstants.{HELPERS};

use crate::{checks, transfer};
use lattice::kinds;
use machine_spec::{Instruction, Region, STACK_SIZE, Table};
use std::marker::Model;
use verifier_spec::{Abs, Abstract, Check, Range, StackSet};
use wire_spec::{MAX_KEY, MAX_VALUE};

/// What is known before an instruction: a kind for each register, the ranges of the key's and the
/// value's lengths, and which stack bytes are certainly set. Its ranges hold: intervals are not
/// empty, addresses lie within 2^32 bytes of their region's start, and lengths within the greatest
/// key and value. A clause sees it as the `Abstract` inside.
#[derive(Clone, Copy, Debug, Drop)]
pub struct State {
    inner: Abstract,
}

impl Model for State {
    ghost use Rattle.std.specs.Prelude.{◌≡◌, true};
    ghost use Rattle.verifier_spec.specs.declared.state.Abstract.{Abstract};
    ghost use Rattle.verifier_spec.specs.States.{is_proper};

    ghost Value = { Abstract };

    ghost view = { λ s. s.inner };

    ghost invariant = { λ s. is_proper s.inner ≡ true };

    ghost inverse = { λ a. record { inner = a } };
}

impl State {
    /// The state of these kinds, lengths in bytes and set stack bytes, if they are in their ranges.
    pub fn new(
        registers: [Abs; 11],
        key_min: u32,
        key_max: u32,
        value_min: u32,
        value_max: u32,
        set: StackSet,
    ) -> Option<State>
        ensures { let whole : Abstract = record {
          registers = registers;
          key = lengths_from_to key_min key_max;
          value = lengths_from_to value_min value_max;
          set = set;
        } in
            result ≡ (if is_proper whole then Some whole else None) }
    {
        let inner = Abstract {
            registers,
            key: Range {
                min: key_min,
                max: key_max,
            },
            value: Range {
                min: value_min,
                max: value_max,
            },
            set,
        };
        if lattice::is_proper(&inner) {
            Some(State { inner })
        } else {
            None
        }
    }

    /// The state that every run begins in: r1 and r3 address the value and the key, r2 and r4 are
    /// their lengths, r5 has the null flags, r10 is the stack's end, and no stack byte is set.
    #[tactic(auto, unfolding(verifier_spec::specs::States::is_proper))]
    pub fn entry() -> State
        ensures { result ≡ entry_state }
    {
        State {
            inner: Abstract {
                registers: [
                    Abs::None,
                    Abs::Addr(Region::Value, 0, 0),
                    Abs::Len(Region::Value),
                    Abs::Addr(Region::Key, 0, 0),
                    Abs::Len(Region::Key),
                    Abs::Num(0, 3),
                    Abs::None,
                    Abs::None,
                    Abs::None,
                    Abs::None,
                    Abs::Addr(Region::Stack, STACK_SIZE as i64, STACK_SIZE as i64),
                ],
                key: Range {
                    min: 0,
                    max: MAX_KEY as u32,
                },
                value: Range {
                    min: 0,
                    max: MAX_VALUE as u32,
                },
                set: StackSet { words: [0; 8] },
            },
        }
    }

    /// What is known of a register; of one past r10, nothing.
    pub fn kind(&self, register: usize) -> Abs
        ensures kind { result ≡ kind_at self.now register }
        ensures proper { is_proper self.now ≡ true }
    {
        kinds::kind_of(&self.inner.registers, register)
    }

    /// All that is known: each register's kind, the ranges of the lengths, and the set stack bytes.
    pub fn as_abstract(&self) -> &Abstract
        ensures { result.now ≡ self.now }
    {
        &self.inner
    }

    /// Whether all that another state knows is known here too: each register's kind is within the
    /// other's, the key's and the value's ranges are, and no fewer stack bytes are set.
    pub fn within(&self, outer: &State) -> bool
        ensures within { result ≡ is_within self.now outer.now }
        ensures proper { is_proper self.now ≡ true }
        ensures outer_proper { is_proper outer.now ≡ true }
    {
        lattice::is_within(&self.inner, &outer.inner)
    }

    /// The least state that this one and another are both within: of each register what both know,
    /// the least ranges that contain both's lengths, and the stack bytes that are set in both.
    pub fn join(&self, other: &State) -> State
        ensures joined { result ≡ joined_state self.now other.now }
        ensures proper { is_proper self.now ≡ true }
        ensures other_proper { is_proper other.now ≡ true }
        ensures joined_proper { is_proper result ≡ true }
    {
        State {
            inner: lattice::joined(&self.inner, &other.inner),
        }
    }

    /// The first check of an instruction of a program with a helper table that fails here, if one
    /// does. Where none does, none does in a program that may call every helper.
    #[tactic(auto, using(verifier_spec::proofs::Tables::passes_all))]
    pub fn check(&self, instruction: Instruction, table: Table) -> Option<Check>
        ensures failed { result ≡ failed_check (helpers_of table) instruction self.now }
        ensures passed { IfNone result (failed_check HELPERS instruction self.now ≡ None) }
        ensures proper { is_proper self.now ≡ true }
    {
        checks::failed_check(instruction, &self.inner, table)
    }

    /// Goes on to the next instruction from one whose checks pass. Returns whether a run can come there; where it
    /// can't, nothing is said of the state any more.
    pub fn fall(&mut self, instruction: Instruction) -> bool
        requires { failed_check HELPERS instruction self.old ≡ None }
        ensures next { (if result then Some self.new else None) ≡ falls_to instruction self.old }
        ensures proper { is_proper self.old ≡ true }
        ensures next_proper { is_proper self.new ≡ true }
    {
        transfer::fall(instruction, &mut self.inner)
    }

    /// Takes an instruction's jump, if it has one. Returns whether a run can take it; where it can't, nothing is said of
    /// the state any more.
    pub fn jump(&mut self, instruction: Instruction) -> bool
        ensures jump { (if result then Some self.new else None) ≡ jumps_to instruction self.old }
        ensures proper { is_proper self.old ≡ true }
        ensures jump_proper { is_proper self.new ≡ true }
    {
        transfer::jump(instruction, &mut self.inner)
    }

    /// What an instruction whose checks pass makes of this state, along each of its edges.
    pub fn transfer(&self, instruction: Instruction) -> Edges
        requires { failed_check HELPERS instruction self.now ≡ None }
        ensures next { result.next ≡ falls_to instruction self.now }
        ensures jump { result.jump ≡ jumps_to instruction self.now }
        ensures proper { is_proper self.now ≡ true }
        ensures next_proper { IfSome result.next (λ s. is_proper s ≡ true) }
        ensures jump_proper { IfSome result.jump (λ s. is_proper s ≡ true) }
    {
        let mut next = *self;
        let mut jump = *self;
        Edges {
            next: if next.fall(instruction) {
                Some(next)
            } else {
                None
            },
            jump: if jump.jump(instruction) {
                Some(jump)
            } else {
                None
            },
        }
    }
}

/// What an instruction makes of a state: the state at the next instruction, and the one at the
/// target of its jump. None where it can't come there.
#[derive(Clone, Copy, Debug, Drop)]
pub struct Edges {
    pub next: Option<State>,
    pub jump: Option<State>,
}
