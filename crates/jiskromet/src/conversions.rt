// The strict converters and their measures: a function for each pair of forms, since C, which calls them, has no type parameters.
ghost use Rattle.forms.specs.Forms.{fss_utf, utf_ebcdic, utf16, ucs4};
ghost use Rattle.c_answers.specs.Promises.{MeasuresInC, ConvertsInC};

use c_answers::JkConversion;
use types::{FssUtf, Ucs4, Utf16, UtfEbcdic};

pub fn jk_fss_utf_to_utf_ebcdic(src: &[u8], dst: &mut [u8]) -> JkConversion
    ensures { ConvertsInC fss_utf utf_ebcdic src.now dst.old result dst.new }
{
    JkConversion::from(conversion::convert::<FssUtf, UtfEbcdic>(src, dst))
}

pub fn jk_fss_utf_to_utf_ebcdic_length(src: &[u8]) -> JkConversion
    ensures { MeasuresInC fss_utf utf_ebcdic src.now result }
{
    JkConversion::from(conversion_length::length::<FssUtf, UtfEbcdic>(src))
}

pub fn jk_fss_utf_to_utf16(src: &[u8], dst: &mut [u16]) -> JkConversion
    ensures { ConvertsInC fss_utf utf16 src.now dst.old result dst.new }
{
    JkConversion::from(conversion::convert::<FssUtf, Utf16>(src, dst))
}

pub fn jk_fss_utf_to_utf16_length(src: &[u8]) -> JkConversion
    ensures { MeasuresInC fss_utf utf16 src.now result }
{
    JkConversion::from(conversion_length::length::<FssUtf, Utf16>(src))
}

pub fn jk_fss_utf_to_ucs4(src: &[u8], dst: &mut [u32]) -> JkConversion
    ensures { ConvertsInC fss_utf ucs4 src.now dst.old result dst.new }
{
    JkConversion::from(conversion::convert::<FssUtf, Ucs4>(src, dst))
}

pub fn jk_fss_utf_to_ucs4_length(src: &[u8]) -> JkConversion
    ensures { MeasuresInC fss_utf ucs4 src.now result }
{
    JkConversion::from(conversion_length::length::<FssUtf, Ucs4>(src))
}

pub fn jk_utf_ebcdic_to_fss_utf(src: &[u8], dst: &mut [u8]) -> JkConversion
    ensures { ConvertsInC utf_ebcdic fss_utf src.now dst.old result dst.new }
{
    JkConversion::from(conversion::convert::<UtfEbcdic, FssUtf>(src, dst))
}

pub fn jk_utf_ebcdic_to_fss_utf_length(src: &[u8]) -> JkConversion
    ensures { MeasuresInC utf_ebcdic fss_utf src.now result }
{
    JkConversion::from(conversion_length::length::<UtfEbcdic, FssUtf>(src))
}

pub fn jk_utf_ebcdic_to_utf16(src: &[u8], dst: &mut [u16]) -> JkConversion
    ensures { ConvertsInC utf_ebcdic utf16 src.now dst.old result dst.new }
{
    JkConversion::from(conversion::convert::<UtfEbcdic, Utf16>(src, dst))
}

pub fn jk_utf_ebcdic_to_utf16_length(src: &[u8]) -> JkConversion
    ensures { MeasuresInC utf_ebcdic utf16 src.now result }
{
    JkConversion::from(conversion_length::length::<UtfEbcdic, Utf16>(src))
}

pub fn jk_utf_ebcdic_to_ucs4(src: &[u8], dst: &mut [u32]) -> JkConversion
    ensures { ConvertsInC utf_ebcdic ucs4 src.now dst.old result dst.new }
{
    JkConversion::from(conversion::convert::<UtfEbcdic, Ucs4>(src, dst))
}

pub fn jk_utf_ebcdic_to_ucs4_length(src: &[u8]) -> JkConversion
    ensures { MeasuresInC utf_ebcdic ucs4 src.now result }
{
    JkConversion::from(conversion_length::length::<UtfEbcdic, Ucs4>(src))
}

pub fn jk_utf16_to_fss_utf(src: &[u16], dst: &mut [u8]) -> JkConversion
    ensures { ConvertsInC utf16 fss_utf src.now dst.old result dst.new }
{
    JkConversion::from(conversion::convert::<Utf16, FssUtf>(src, dst))
}

pub fn jk_utf16_to_fss_utf_length(src: &[u16]) -> JkConversion
    ensures { MeasuresInC utf16 fss_utf src.now result }
{
    JkConversion::from(conversion_length::length::<Utf16, FssUtf>(src))
}

pub fn jk_utf16_to_utf_ebcdic(src: &[u16], dst: &mut [u8]) -> JkConversion
    ensures { ConvertsInC utf16 utf_ebcdic src.now dst.old result dst.new }
{
    JkConversion::from(conversion::convert::<Utf16, UtfEbcdic>(src, dst))
}

pub fn jk_utf16_to_utf_ebcdic_length(src: &[u16]) -> JkConversion
    ensures { MeasuresInC utf16 utf_ebcdic src.now result }
{
    JkConversion::from(conversion_length::length::<Utf16, UtfEbcdic>(src))
}

pub fn jk_utf16_to_ucs4(src: &[u16], dst: &mut [u32]) -> JkConversion
    ensures { ConvertsInC utf16 ucs4 src.now dst.old result dst.new }
{
    JkConversion::from(conversion::convert::<Utf16, Ucs4>(src, dst))
}

pub fn jk_utf16_to_ucs4_length(src: &[u16]) -> JkConversion
    ensures { MeasuresInC utf16 ucs4 src.now result }
{
    JkConversion::from(conversion_length::length::<Utf16, Ucs4>(src))
}

pub fn jk_ucs4_to_fss_utf(src: &[u32], dst: &mut [u8]) -> JkConversion
    ensures { ConvertsInC ucs4 fss_utf src.now dst.old result dst.new }
{
    JkConversion::from(conversion::convert::<Ucs4, FssUtf>(src, dst))
}

pub fn jk_ucs4_to_fss_utf_length(src: &[u32]) -> JkConversion
    ensures { MeasuresInC ucs4 fss_utf src.now result }
{
    JkConversion::from(conversion_length::length::<Ucs4, FssUtf>(src))
}

pub fn jk_ucs4_to_utf_ebcdic(src: &[u32], dst: &mut [u8]) -> JkConversion
    ensures { ConvertsInC ucs4 utf_ebcdic src.now dst.old result dst.new }
{
    JkConversion::from(conversion::convert::<Ucs4, UtfEbcdic>(src, dst))
}

pub fn jk_ucs4_to_utf_ebcdic_length(src: &[u32]) -> JkConversion
    ensures { MeasuresInC ucs4 utf_ebcdic src.now result }
{
    JkConversion::from(conversion_length::length::<Ucs4, UtfEbcdic>(src))
}

pub fn jk_ucs4_to_utf16(src: &[u32], dst: &mut [u16]) -> JkConversion
    ensures { ConvertsInC ucs4 utf16 src.now dst.old result dst.new }
{
    JkConversion::from(conversion::convert::<Ucs4, Utf16>(src, dst))
}

pub fn jk_ucs4_to_utf16_length(src: &[u32]) -> JkConversion
    ensures { MeasuresInC ucs4 utf16 src.now result }
{
    JkConversion::from(conversion_length::length::<Ucs4, Utf16>(src))
}
