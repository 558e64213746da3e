//! What the checks and the transfer promise of every instruction, and the join of every two states.

ghost use Rattle.std.specs.Prelude.{◌≡◌, true, None};
ghost use Rattle.verifier_spec.specs.States.{is_within};
ghost use Rattle.verifier_spec.specs.Joins.{joined_state, IsLeastAbove};
ghost use Rattle.verifier_spec.specs.Checks.{failed_check};
ghost use Rattle.verifier_spec.specs.Soundness.{IsSoundAt, KeepsOrder};
ghost use Rattle.machine_spec.specs.Image.{helpers_of};
ghost use Rattle.machine_spec.specs.declared.helper.TheConstants.{HELPERS};

use crate::State;
use machine_spec::{Instruction, Table};

/// Transfer is sound: where a state whose checks pass holds of the machine's state before a step,
/// the step's edge propagates a state that holds of the machine's state after it.
#[tactic(auto, using(verifier_spec::proofs::Sound::transfer_sound))]
pub fn transfer_is_sound(state: &State, instruction: Instruction)
    requires { failed_check HELPERS instruction state.now ≡ None }
    ensures { IsSoundAt instruction state.now }
{
    let _failed = state.check(instruction, Table::Two);
}

/// Checks and transfer keep the order, under each helper table: a state within another passes the
/// checks that the other passes, and each edge propagates from it a state within the one from the
/// other, or none.
pub fn order_is_kept(inner: &State, outer: &State, instruction: Instruction, table: Table)
    requires within { is_within inner.now outer.now ≡ true }
    requires passes { failed_check (helpers_of table) instruction outer.now ≡ None }
    ensures { KeepsOrder (helpers_of table) instruction inner.now outer.now }
{
    let _within = inner.within(outer);
}

/// The join is the least state above two: both states are within it, and it is within every state
/// that both are within. `State::join` returns it, and `State::within` is the order.
#[tactic(auto, using(verifier_spec::proofs::Joins::least_above))]
pub fn join_is_least(a: &State, b: &State)
    ensures { IsLeastAbove a.now b.now (joined_state a.now b.now) }
{
    let _join = a.join(b);
}
