//! What is written of a name is read as that name.

ghost use Rattle.std.specs.Prelude.{◌≡◌};
ghost use Rattle.text.specs.Grammar.{IsImageName};
ghost use Rattle.text.specs.Texts.{IsProper, image_text};
ghost use Rattle.text.specs.declared.image_name.name.ImageName.{ImageName};

/// The text of a name whose lines go strictly upwards is that name's, and no other's.
pub fn written_is_read()
    ensures read { (name : ImageName) → IsProper name → IsImageName (image_text name) name }
    ensures only { (name other : ImageName) → IsProper name → IsImageName (image_text name) other → other ≡ name }
{}
