// A checked reader of the FSS-UTF characters of one to four bytes, for the loops that take many of them.
ghost use Rattle.std.specs.Prelude.{◌≡◌, ◌<◌, length};
ghost use Rattle.forms.specs.Forms.{fss_utf};
ghost use Rattle.tables.specs.declared.ByteForm.TheVariants as byte_form;
ghost use Rattle.characters.specs.Short.{ShortAt};

use crate::Character;
use crate::bytes::Layout;
use tables::ByteForm;
use types::FssUtf;

impl Layout for FssUtf {
    ghost form = { byte_form.FssUtf };

    fn form(&self) -> ByteForm {
        ByteForm::FssUtf
    }

    fn plain(&self, byte: u8) -> u8 {
        byte
    }
}

// The character at an offset, if it has 1 to 4 bytes.
pub fn short_at(text: &[u8], at: usize) -> Option<Character>
    requires { at < length text.now }
    ensures { ShortAt fss_utf text.now at result }
{
    crate::bytes::short_at(&FssUtf, text, at)
}
