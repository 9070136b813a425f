//! Writing the name of an image.

use crate::image_name::cut::Cut;
use crate::image_name::name::ImageName;
use std::fmt;

/// The cut's text: `lN:K` for each line N with its number K, a comma between each two, or `floor` where there is none.
impl fmt::Display for Cut {
    ghost use Rattle.std.specs.Prelude.{Some};
    ghost use Rattle.text.specs.Texts.{cut_text};

    ghost output = { λ cut. Some (cut_text cut) };

    fn fmt<W: fmt::Write>(&self, f: &mut fmt::Formatter<W>) -> fmt::Result {
        let [first, rest @ ..] = self.entries() else {
            return write!(f, "floor");
        };
        write!(f, "l{}:{}", first.0, first.1)?;
        for entry in rest {
            write!(f, ",l{}:{}", entry.0, entry.1)?;
        }
        Ok(())
    }
}

/// The number in decimal digits, or the cut's text.
impl fmt::Display for ImageName {
    ghost use Rattle.std.specs.Prelude.{Some};
    ghost use Rattle.text.specs.Texts.{image_text};

    ghost output = { λ name. Some (image_text name) };

    fn fmt<W: fmt::Write>(&self, f: &mut fmt::Formatter<W>) -> fmt::Result {
        match self {
            ImageName::Number(number) => write!(f, "{number}"),
            ImageName::Cut(cut) => write!(f, "{cut}"),
        }
    }
}
