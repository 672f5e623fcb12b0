// The contracts that `acceptance` starts from are those of the calls: each export, and each call of the readers, by its name, with the
// promise that the acceptance paper reads. Only the contract of a call is seen here, so that one that says less, or asks something of its
// caller, is refused. (What an export promises is proved from the contract of the call behind it.) There is a function for each form and
// pair of forms, as for C, since each export is held by its own name.
#![tactic(auto)]

ghost use Rattle.std.specs.Prelude.{◌≡◌};
ghost use Rattle.forms.specs.Forms.{fss_utf, utf_ebcdic, utf16, ucs4};
ghost use Rattle.forms.specs.Finder.{item_covering};
ghost use Rattle.reader.specs.Step.{cursor, step_at, ReadsItem};
ghost use Rattle.c_answers.specs.Answer.{item_answer, found_answer};
ghost use Rattle.c_answers.specs.Promises.{ConvertsInC, MeasuresInC, DecodesLossyInC};

use c_answers::{JkConversion, JkDecoding, JkItem};
use reader::{Cursor, FssUtf, Reader, Step, Ucs4, Utf16, UtfEbcdic};
use types::Refusal;

pub fn fss_utf_longest() -> usize
    ensures { result ≡ 6 }
{
    FssUtf::longest()
}

pub fn fss_utf_reader() -> Cursor
    ensures { result ≡ cursor 0 }
{
    FssUtf::reader()
}

pub fn fss_utf_step(at: Cursor, text: &[u8]) -> Result<Step, Refusal>
    ensures { ReadsItem fss_utf text.now at result }
{
    at.step::<FssUtf>(text)
}

pub fn fss_utf_item_at(text: &[u8], offset: usize) -> JkItem
    ensures { result ≡ item_answer (step_at fss_utf text.now (cursor offset)) }
{
    jiskromet::jk_fss_utf_item_at(text, offset)
}

pub fn fss_utf_item_covering(text: &[u8], offset: usize) -> JkItem
    ensures { result ≡ found_answer (item_covering fss_utf text.now offset) }
{
    jiskromet::finders::jk_fss_utf_item_covering(text, offset)
}

pub fn fss_utf_decode_lossy(text: &[u8], values: &mut [u32], starts: &mut [u32]) -> JkDecoding
    ensures { DecodesLossyInC fss_utf text.now values.old starts.old result values.new starts.new }
{
    jiskromet::decodings::jk_fss_utf_decode_lossy(text, values, starts)
}

pub fn fss_utf_to_utf_ebcdic(src: &[u8], dst: &mut [u8]) -> JkConversion
    ensures { ConvertsInC fss_utf utf_ebcdic src.now dst.old result dst.new }
{
    jiskromet::conversions::jk_fss_utf_to_utf_ebcdic(src, dst)
}

pub fn fss_utf_to_utf_ebcdic_length(src: &[u8]) -> JkConversion
    ensures { MeasuresInC fss_utf utf_ebcdic src.now result }
{
    jiskromet::conversions::jk_fss_utf_to_utf_ebcdic_length(src)
}

pub fn fss_utf_to_utf16(src: &[u8], dst: &mut [u16]) -> JkConversion
    ensures { ConvertsInC fss_utf utf16 src.now dst.old result dst.new }
{
    jiskromet::conversions::jk_fss_utf_to_utf16(src, dst)
}

pub fn fss_utf_to_utf16_length(src: &[u8]) -> JkConversion
    ensures { MeasuresInC fss_utf utf16 src.now result }
{
    jiskromet::conversions::jk_fss_utf_to_utf16_length(src)
}

pub fn fss_utf_to_ucs4(src: &[u8], dst: &mut [u32]) -> JkConversion
    ensures { ConvertsInC fss_utf ucs4 src.now dst.old result dst.new }
{
    jiskromet::conversions::jk_fss_utf_to_ucs4(src, dst)
}

pub fn fss_utf_to_ucs4_length(src: &[u8]) -> JkConversion
    ensures { MeasuresInC fss_utf ucs4 src.now result }
{
    jiskromet::conversions::jk_fss_utf_to_ucs4_length(src)
}

pub fn utf_ebcdic_longest() -> usize
    ensures { result ≡ 7 }
{
    UtfEbcdic::longest()
}

pub fn utf_ebcdic_reader() -> Cursor
    ensures { result ≡ cursor 0 }
{
    UtfEbcdic::reader()
}

pub fn utf_ebcdic_step(at: Cursor, text: &[u8]) -> Result<Step, Refusal>
    ensures { ReadsItem utf_ebcdic text.now at result }
{
    at.step::<UtfEbcdic>(text)
}

pub fn utf_ebcdic_item_at(text: &[u8], offset: usize) -> JkItem
    ensures { result ≡ item_answer (step_at utf_ebcdic text.now (cursor offset)) }
{
    jiskromet::jk_utf_ebcdic_item_at(text, offset)
}

pub fn utf_ebcdic_item_covering(text: &[u8], offset: usize) -> JkItem
    ensures { result ≡ found_answer (item_covering utf_ebcdic text.now offset) }
{
    jiskromet::finders::jk_utf_ebcdic_item_covering(text, offset)
}

pub fn utf_ebcdic_decode_lossy(text: &[u8], values: &mut [u32], starts: &mut [u32]) -> JkDecoding
    ensures { DecodesLossyInC utf_ebcdic text.now values.old starts.old result values.new starts.new }
{
    jiskromet::decodings::jk_utf_ebcdic_decode_lossy(text, values, starts)
}

pub fn utf_ebcdic_to_fss_utf(src: &[u8], dst: &mut [u8]) -> JkConversion
    ensures { ConvertsInC utf_ebcdic fss_utf src.now dst.old result dst.new }
{
    jiskromet::conversions::jk_utf_ebcdic_to_fss_utf(src, dst)
}

pub fn utf_ebcdic_to_fss_utf_length(src: &[u8]) -> JkConversion
    ensures { MeasuresInC utf_ebcdic fss_utf src.now result }
{
    jiskromet::conversions::jk_utf_ebcdic_to_fss_utf_length(src)
}

pub fn utf_ebcdic_to_utf16(src: &[u8], dst: &mut [u16]) -> JkConversion
    ensures { ConvertsInC utf_ebcdic utf16 src.now dst.old result dst.new }
{
    jiskromet::conversions::jk_utf_ebcdic_to_utf16(src, dst)
}

pub fn utf_ebcdic_to_utf16_length(src: &[u8]) -> JkConversion
    ensures { MeasuresInC utf_ebcdic utf16 src.now result }
{
    jiskromet::conversions::jk_utf_ebcdic_to_utf16_length(src)
}

pub fn utf_ebcdic_to_ucs4(src: &[u8], dst: &mut [u32]) -> JkConversion
    ensures { ConvertsInC utf_ebcdic ucs4 src.now dst.old result dst.new }
{
    jiskromet::conversions::jk_utf_ebcdic_to_ucs4(src, dst)
}

pub fn utf_ebcdic_to_ucs4_length(src: &[u8]) -> JkConversion
    ensures { MeasuresInC utf_ebcdic ucs4 src.now result }
{
    jiskromet::conversions::jk_utf_ebcdic_to_ucs4_length(src)
}

pub fn utf16_longest() -> usize
    ensures { result ≡ 2 }
{
    Utf16::longest()
}

pub fn utf16_reader() -> Cursor
    ensures { result ≡ cursor 0 }
{
    Utf16::reader()
}

pub fn utf16_step(at: Cursor, text: &[u16]) -> Result<Step, Refusal>
    ensures { ReadsItem utf16 text.now at result }
{
    at.step::<Utf16>(text)
}

pub fn utf16_item_at(text: &[u16], offset: usize) -> JkItem
    ensures { result ≡ item_answer (step_at utf16 text.now (cursor offset)) }
{
    jiskromet::jk_utf16_item_at(text, offset)
}

pub fn utf16_item_covering(text: &[u16], offset: usize) -> JkItem
    ensures { result ≡ found_answer (item_covering utf16 text.now offset) }
{
    jiskromet::finders::jk_utf16_item_covering(text, offset)
}

pub fn utf16_decode_lossy(text: &[u16], values: &mut [u32], starts: &mut [u32]) -> JkDecoding
    ensures { DecodesLossyInC utf16 text.now values.old starts.old result values.new starts.new }
{
    jiskromet::decodings::jk_utf16_decode_lossy(text, values, starts)
}

pub fn utf16_to_fss_utf(src: &[u16], dst: &mut [u8]) -> JkConversion
    ensures { ConvertsInC utf16 fss_utf src.now dst.old result dst.new }
{
    jiskromet::conversions::jk_utf16_to_fss_utf(src, dst)
}

pub fn utf16_to_fss_utf_length(src: &[u16]) -> JkConversion
    ensures { MeasuresInC utf16 fss_utf src.now result }
{
    jiskromet::conversions::jk_utf16_to_fss_utf_length(src)
}

pub fn utf16_to_utf_ebcdic(src: &[u16], dst: &mut [u8]) -> JkConversion
    ensures { ConvertsInC utf16 utf_ebcdic src.now dst.old result dst.new }
{
    jiskromet::conversions::jk_utf16_to_utf_ebcdic(src, dst)
}

pub fn utf16_to_utf_ebcdic_length(src: &[u16]) -> JkConversion
    ensures { MeasuresInC utf16 utf_ebcdic src.now result }
{
    jiskromet::conversions::jk_utf16_to_utf_ebcdic_length(src)
}

pub fn utf16_to_ucs4(src: &[u16], dst: &mut [u32]) -> JkConversion
    ensures { ConvertsInC utf16 ucs4 src.now dst.old result dst.new }
{
    jiskromet::conversions::jk_utf16_to_ucs4(src, dst)
}

pub fn utf16_to_ucs4_length(src: &[u16]) -> JkConversion
    ensures { MeasuresInC utf16 ucs4 src.now result }
{
    jiskromet::conversions::jk_utf16_to_ucs4_length(src)
}

pub fn ucs4_longest() -> usize
    ensures { result ≡ 1 }
{
    Ucs4::longest()
}

pub fn ucs4_reader() -> Cursor
    ensures { result ≡ cursor 0 }
{
    Ucs4::reader()
}

pub fn ucs4_step(at: Cursor, text: &[u32]) -> Result<Step, Refusal>
    ensures { ReadsItem ucs4 text.now at result }
{
    at.step::<Ucs4>(text)
}

pub fn ucs4_item_at(text: &[u32], offset: usize) -> JkItem
    ensures { result ≡ item_answer (step_at ucs4 text.now (cursor offset)) }
{
    jiskromet::jk_ucs4_item_at(text, offset)
}

pub fn ucs4_item_covering(text: &[u32], offset: usize) -> JkItem
    ensures { result ≡ found_answer (item_covering ucs4 text.now offset) }
{
    jiskromet::finders::jk_ucs4_item_covering(text, offset)
}

pub fn ucs4_decode_lossy(text: &[u32], values: &mut [u32], starts: &mut [u32]) -> JkDecoding
    ensures { DecodesLossyInC ucs4 text.now values.old starts.old result values.new starts.new }
{
    jiskromet::decodings::jk_ucs4_decode_lossy(text, values, starts)
}

pub fn ucs4_to_fss_utf(src: &[u32], dst: &mut [u8]) -> JkConversion
    ensures { ConvertsInC ucs4 fss_utf src.now dst.old result dst.new }
{
    jiskromet::conversions::jk_ucs4_to_fss_utf(src, dst)
}

pub fn ucs4_to_fss_utf_length(src: &[u32]) -> JkConversion
    ensures { MeasuresInC ucs4 fss_utf src.now result }
{
    jiskromet::conversions::jk_ucs4_to_fss_utf_length(src)
}

pub fn ucs4_to_utf_ebcdic(src: &[u32], dst: &mut [u8]) -> JkConversion
    ensures { ConvertsInC ucs4 utf_ebcdic src.now dst.old result dst.new }
{
    jiskromet::conversions::jk_ucs4_to_utf_ebcdic(src, dst)
}

pub fn ucs4_to_utf_ebcdic_length(src: &[u32]) -> JkConversion
    ensures { MeasuresInC ucs4 utf_ebcdic src.now result }
{
    jiskromet::conversions::jk_ucs4_to_utf_ebcdic_length(src)
}

pub fn ucs4_to_utf16(src: &[u32], dst: &mut [u16]) -> JkConversion
    ensures { ConvertsInC ucs4 utf16 src.now dst.old result dst.new }
{
    jiskromet::conversions::jk_ucs4_to_utf16(src, dst)
}

pub fn ucs4_to_utf16_length(src: &[u32]) -> JkConversion
    ensures { MeasuresInC ucs4 utf16 src.now result }
{
    jiskromet::conversions::jk_ucs4_to_utf16_length(src)
}
