//! What holds of the rules of texts.

ghost use Rattle.std.specs.Prelude.{◌≡◌, ℕ, List, Ok};
ghost use Rattle.rules.specs.Lines.{Line};
ghost use Rattle.rules.specs.Limits.{AreRules, FitsText, IsText};
ghost use Rattle.rules.specs.Reading.{rules_of};
ghost use Rattle.rules.specs.Writing.{text_of};

/// The rules of a text are within the limits.
pub fn rules_are_limited()
    ensures { (text : List ℕ) (rules : List Line) → rules_of text ≡ Ok rules → AreRules FitsText rules }
{}

/// Rules within the limits are those of the text that is printed of them.
pub fn rules_are_read_again()
    ensures { (rules : List Line) → AreRules IsText rules → rules_of (text_of rules) ≡ Ok rules }
{}
