// The lossy decodings: a function for each form, since C, which calls them, has no type parameters.
ghost use Rattle.forms.specs.Forms.{fss_utf, utf_ebcdic, utf16, ucs4};
ghost use Rattle.c_answers.specs.Promises.{DecodesLossyInC};

use c_answers::JkDecoding;
use types::{FssUtf, Ucs4, Utf16, UtfEbcdic};

pub fn jk_fss_utf_decode_lossy(text: &[u8], values: &mut [u32], starts: &mut [u32]) -> JkDecoding
    ensures { DecodesLossyInC fss_utf text.now values.old starts.old result values.new starts.new }
{
    JkDecoding::from(lossy::decode_lossy::<FssUtf>(text, values, starts))
}

pub fn jk_utf_ebcdic_decode_lossy(text: &[u8], values: &mut [u32], starts: &mut [u32]) -> JkDecoding
    ensures { DecodesLossyInC utf_ebcdic text.now values.old starts.old result values.new starts.new }
{
    JkDecoding::from(lossy::decode_lossy::<UtfEbcdic>(text, values, starts))
}

pub fn jk_utf16_decode_lossy(text: &[u16], values: &mut [u32], starts: &mut [u32]) -> JkDecoding
    ensures { DecodesLossyInC utf16 text.now values.old starts.old result values.new starts.new }
{
    JkDecoding::from(lossy::decode_lossy::<Utf16>(text, values, starts))
}

pub fn jk_ucs4_decode_lossy(text: &[u32], values: &mut [u32], starts: &mut [u32]) -> JkDecoding
    ensures { DecodesLossyInC ucs4 text.now values.old starts.old result values.new starts.new }
{
    JkDecoding::from(lossy::decode_lossy::<Ucs4>(text, values, starts))
}
