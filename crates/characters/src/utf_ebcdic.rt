// A checked reader of the UTF-EBCDIC characters of one to four bytes, for the loops that take many of them. The exchange table is a
// parameter, so that a loop looks up in one copy of it.
ghost use Rattle.std.specs.Prelude.{◌≡◌, ◌<◌, length};
ghost use Rattle.forms.specs.Forms.{utf_ebcdic};
ghost use Rattle.tables.specs.declared.ByteForm.TheVariants as byte_form;
ghost use Rattle.characters.specs.Short.{ShortAt};

use crate::Character;
use crate::bytes::Layout;
use tables::ByteForm;
use tables::exchange::ExchangeTable;

impl Layout for ExchangeTable {
    ghost form = { byte_form.UtfEbcdic };

    fn form(&self) -> ByteForm {
        ByteForm::UtfEbcdic
    }

    fn plain(&self, byte: u8) -> u8 {
        self.get(byte)
    }
}

// The character at an offset, if it has 1 to 4 bytes.
pub fn short_at(table: &ExchangeTable, text: &[u8], at: usize) -> Option<Character>
    requires { at < length text.now }
    ensures { ShortAt utf_ebcdic text.now at result }
{
    crate::bytes::short_at(table, text, at)
}
