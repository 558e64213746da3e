ghost use Rattle.std.specs.Prelude.{◌≡◌};
ghost use Rattle.std.specs.Option.{option_copied};
ghost use Rattle.verifier_spec.specs.Annotation.{claim_at};

use abstract_regs::State;

/// The state of an instruction, by its number from 0, if it is there and reached.
#[tactic(auto, using(crate::proofs::Lookups::claim_at_listed, crate::proofs::Lookups::claim_at_past))]
pub fn claim_at(claims: &[Option<State>], k: usize) -> Option<&State>
    ensures { option_copied result ≡ claim_at claims.now k }
{
    if k < claims.len() {
        claims[k].as_ref()
    } else {
        None
    }
}
