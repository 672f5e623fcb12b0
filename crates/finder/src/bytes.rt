// FSS-UTF and UTF-EBCDIC: the start by the nearest bytes alone.
ghost use Rattle.std.specs.Prelude.{◌≡◌, suc, ◌<◌, length};
ghost use Rattle.laws.specs.Finder.{units_before, nearest};
ghost use Rattle.laws.proofs.Distances.{distance_back};
ghost use Rattle.tables.specs.ByteForms.{byte_form};

use crate::start::FindsStart;
use reader::LongestItem;
use tables::{ByteForm, ByteRole};
use types::{FssUtf, UtfEbcdic};

// The byte at an offset and those before it, `count` in all: fewer at the text's start.
fn up_to(text: &[u8], offset: usize, count: usize) -> &[u8]
    requires { offset < length text.now }
    ensures { units_before (length result.now) result.now ≡ nearest count (suc offset) text.now }
{
    let to = offset + 1;
    &text[to.saturating_sub(count)..to]
}

// How far before the last of these bytes its item starts. They are all that is looked at, backwards: trailing bytes up to the lead that takes them.
fn distance_back(form: ByteForm, near: &[u8]) -> usize
    ensures { result ≡ distance_back (byte_form form) 0 (units_before (length near.now) near.now) }
{
    for at in (0..near.len()).rev() {
        match tables::role(form, tables::plain(form, near[at])) {
            ByteRole::Trailing => {}
            ByteRole::Lead(length) => {
                let passed = near.len() - 1 - at;
                if passed < length {
                    return passed;
                }
                return 0;
            }
            ByteRole::Invalid => return 0,
        }
    }
    0
}

impl FindsStart for FssUtf {
    fn distance_back(text: &[u8], offset: usize) -> usize {
        distance_back(ByteForm::FssUtf, up_to(text, offset, FssUtf::LONGEST))
    }
}

impl FindsStart for UtfEbcdic {
    fn distance_back(text: &[u8], offset: usize) -> usize {
        distance_back(ByteForm::UtfEbcdic, up_to(text, offset, UtfEbcdic::LONGEST))
    }
}
