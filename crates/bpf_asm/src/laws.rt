//! What holds between texts and images.

ghost use Rattle.std.specs.Prelude.{◌≡◌, List, ℕ, Ok};
ghost use Rattle.machine_spec.specs.Image.{IsCodeOf};
ghost use Rattle.machine_spec.specs.declared.instruction.Placed.{Placed};
ghost use Rattle.bpf_isa.specs.Code.{AreBytes};
ghost use Rattle.bpf_asm.specs.Images.{image_of};
ghost use Rattle.bpf_asm.specs.Writing.{text_of};

/// The text of an image's code says that image.
pub fn text_and_image()
    ensures { (image : List ℕ) (code : List Placed) → AreBytes image → IsCodeOf image code → image_of (text_of code) ≡ Ok image }
{}
