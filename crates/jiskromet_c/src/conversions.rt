// The strict converters and their measures.
ghost use Rattle.forms.specs.Forms.{fss_utf, utf_ebcdic, utf16, ucs4};
ghost use Rattle.c_answers.specs.Promises.{MeasuresInC, ConvertsInC};

use c_answers::JkConversion;

#[unsafe(no_mangle)]
pub extern "C" fn jk_fss_utf_to_utf_ebcdic(src: &[u8], dst: &mut [u8]) -> JkConversion
    ensures { ConvertsInC fss_utf utf_ebcdic src.now dst.old result dst.new }
{
    jiskromet::conversions::jk_fss_utf_to_utf_ebcdic(src, dst)
}

#[unsafe(no_mangle)]
pub extern "C" fn jk_fss_utf_to_utf_ebcdic_length(src: &[u8]) -> JkConversion
    ensures { MeasuresInC fss_utf utf_ebcdic src.now result }
{
    jiskromet::conversions::jk_fss_utf_to_utf_ebcdic_length(src)
}

#[unsafe(no_mangle)]
pub extern "C" fn jk_fss_utf_to_utf16(src: &[u8], dst: &mut [u16]) -> JkConversion
    ensures { ConvertsInC fss_utf utf16 src.now dst.old result dst.new }
{
    jiskromet::conversions::jk_fss_utf_to_utf16(src, dst)
}

#[unsafe(no_mangle)]
pub extern "C" fn jk_fss_utf_to_utf16_length(src: &[u8]) -> JkConversion
    ensures { MeasuresInC fss_utf utf16 src.now result }
{
    jiskromet::conversions::jk_fss_utf_to_utf16_length(src)
}

#[unsafe(no_mangle)]
pub extern "C" fn jk_fss_utf_to_ucs4(src: &[u8], dst: &mut [u32]) -> JkConversion
    ensures { ConvertsInC fss_utf ucs4 src.now dst.old result dst.new }
{
    jiskromet::conversions::jk_fss_utf_to_ucs4(src, dst)
}

#[unsafe(no_mangle)]
pub extern "C" fn jk_fss_utf_to_ucs4_length(src: &[u8]) -> JkConversion
    ensures { MeasuresInC fss_utf ucs4 src.now result }
{
    jiskromet::conversions::jk_fss_utf_to_ucs4_length(src)
}

#[unsafe(no_mangle)]
pub extern "C" fn jk_utf_ebcdic_to_fss_utf(src: &[u8], dst: &mut [u8]) -> JkConversion
    ensures { ConvertsInC utf_ebcdic fss_utf src.now dst.old result dst.new }
{
    jiskromet::conversions::jk_utf_ebcdic_to_fss_utf(src, dst)
}

#[unsafe(no_mangle)]
pub extern "C" fn jk_utf_ebcdic_to_fss_utf_length(src: &[u8]) -> JkConversion
    ensures { MeasuresInC utf_ebcdic fss_utf src.now result }
{
    jiskromet::conversions::jk_utf_ebcdic_to_fss_utf_length(src)
}

#[unsafe(no_mangle)]
pub extern "C" fn jk_utf_ebcdic_to_utf16(src: &[u8], dst: &mut [u16]) -> JkConversion
    ensures { ConvertsInC utf_ebcdic utf16 src.now dst.old result dst.new }
{
    jiskromet::conversions::jk_utf_ebcdic_to_utf16(src, dst)
}

#[unsafe(no_mangle)]
pub extern "C" fn jk_utf_ebcdic_to_utf16_length(src: &[u8]) -> JkConversion
    ensures { MeasuresInC utf_ebcdic utf16 src.now result }
{
    jiskromet::conversions::jk_utf_ebcdic_to_utf16_length(src)
}

#[unsafe(no_mangle)]
pub extern "C" fn jk_utf_ebcdic_to_ucs4(src: &[u8], dst: &mut [u32]) -> JkConversion
    ensures { ConvertsInC utf_ebcdic ucs4 src.now dst.old result dst.new }
{
    jiskromet::conversions::jk_utf_ebcdic_to_ucs4(src, dst)
}

#[unsafe(no_mangle)]
pub extern "C" fn jk_utf_ebcdic_to_ucs4_length(src: &[u8]) -> JkConversion
    ensures { MeasuresInC utf_ebcdic ucs4 src.now result }
{
    jiskromet::conversions::jk_utf_ebcdic_to_ucs4_length(src)
}

#[unsafe(no_mangle)]
pub extern "C" fn jk_utf16_to_fss_utf(src: &[u16], dst: &mut [u8]) -> JkConversion
    ensures { ConvertsInC utf16 fss_utf src.now dst.old result dst.new }
{
    jiskromet::conversions::jk_utf16_to_fss_utf(src, dst)
}

#[unsafe(no_mangle)]
pub extern "C" fn jk_utf16_to_fss_utf_length(src: &[u16]) -> JkConversion
    ensures { MeasuresInC utf16 fss_utf src.now result }
{
    jiskromet::conversions::jk_utf16_to_fss_utf_length(src)
}

#[unsafe(no_mangle)]
pub extern "C" fn jk_utf16_to_utf_ebcdic(src: &[u16], dst: &mut [u8]) -> JkConversion
    ensures { ConvertsInC utf16 utf_ebcdic src.now dst.old result dst.new }
{
    jiskromet::conversions::jk_utf16_to_utf_ebcdic(src, dst)
}

#[unsafe(no_mangle)]
pub extern "C" fn jk_utf16_to_utf_ebcdic_length(src: &[u16]) -> JkConversion
    ensures { MeasuresInC utf16 utf_ebcdic src.now result }
{
    jiskromet::conversions::jk_utf16_to_utf_ebcdic_length(src)
}

#[unsafe(no_mangle)]
pub extern "C" fn jk_utf16_to_ucs4(src: &[u16], dst: &mut [u32]) -> JkConversion
    ensures { ConvertsInC utf16 ucs4 src.now dst.old result dst.new }
{
    jiskromet::conversions::jk_utf16_to_ucs4(src, dst)
}

#[unsafe(no_mangle)]
pub extern "C" fn jk_utf16_to_ucs4_length(src: &[u16]) -> JkConversion
    ensures { MeasuresInC utf16 ucs4 src.now result }
{
    jiskromet::conversions::jk_utf16_to_ucs4_length(src)
}

#[unsafe(no_mangle)]
pub extern "C" fn jk_ucs4_to_fss_utf(src: &[u32], dst: &mut [u8]) -> JkConversion
    ensures { ConvertsInC ucs4 fss_utf src.now dst.old result dst.new }
{
    jiskromet::conversions::jk_ucs4_to_fss_utf(src, dst)
}

#[unsafe(no_mangle)]
pub extern "C" fn jk_ucs4_to_fss_utf_length(src: &[u32]) -> JkConversion
    ensures { MeasuresInC ucs4 fss_utf src.now result }
{
    jiskromet::conversions::jk_ucs4_to_fss_utf_length(src)
}

#[unsafe(no_mangle)]
pub extern "C" fn jk_ucs4_to_utf_ebcdic(src: &[u32], dst: &mut [u8]) -> JkConversion
    ensures { ConvertsInC ucs4 utf_ebcdic src.now dst.old result dst.new }
{
    jiskromet::conversions::jk_ucs4_to_utf_ebcdic(src, dst)
}

#[unsafe(no_mangle)]
pub extern "C" fn jk_ucs4_to_utf_ebcdic_length(src: &[u32]) -> JkConversion
    ensures { MeasuresInC ucs4 utf_ebcdic src.now result }
{
    jiskromet::conversions::jk_ucs4_to_utf_ebcdic_length(src)
}

#[unsafe(no_mangle)]
pub extern "C" fn jk_ucs4_to_utf16(src: &[u32], dst: &mut [u16]) -> JkConversion
    ensures { ConvertsInC ucs4 utf16 src.now dst.old result dst.new }
{
    jiskromet::conversions::jk_ucs4_to_utf16(src, dst)
}

#[unsafe(no_mangle)]
pub extern "C" fn jk_ucs4_to_utf16_length(src: &[u32]) -> JkConversion
    ensures { MeasuresInC ucs4 utf16 src.now result }
{
    jiskromet::conversions::jk_ucs4_to_utf16_length(src)
}
