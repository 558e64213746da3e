//! What holds between images and codes.

ghost use Rattle.std.specs.Prelude.{◌≡◌, ◌↔◌, List, ℕ, Ok};
ghost use Rattle.machine_spec.specs.Image.{IsCodeOf, read_image};
ghost use Rattle.machine_spec.specs.declared.instruction.Placed.{Placed};
ghost use Rattle.bpf_isa.specs.Code.{AreBytes};

/// Code has one image, an image has one code, and that is what it reads as.
pub fn image_and_code()
    ensures one_image { (image other : List ℕ) (code : List Placed) → AreBytes image → AreBytes other → IsCodeOf image code → IsCodeOf other code → image ≡ other }
    ensures one_code { (image : List ℕ) (code other : List Placed) → IsCodeOf image code → IsCodeOf image other → code ≡ other }
    ensures reads { (image : List ℕ) (code : List Placed) → IsCodeOf image code ↔ (read_image image ≡ Ok code) }
{}
