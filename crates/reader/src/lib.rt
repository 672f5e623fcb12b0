// The one-item readers of the four forms: public calls, which ask nothing of their caller.
//
// A reader's state is a `Cursor`. `FssUtf::reader()` starts one, and `step::<FssUtf>` gives the item there with the next cursor.
// `specs/Step` says what a step gives; the rules are those of `forms`.
#![tactic(auto)]

ghost use Rattle.std.specs.Prelude.{◌≡◌, refl, ℕ, ◌+◌, ◌≤◌};
ghost use Rattle.forms.specs.Form.{span_of};
ghost use Rattle.reader.specs.Step.{cursor, behind, ReadsItem};

use items::SourceForm;
pub use types::{FssUtf, Ucs4, Utf16, UtfEbcdic};
use types::{Item, Refusal};

// A place in a text, which each step carries forward past one item.
#[derive(Clone, Copy, PartialEq, Eq, Debug)]
pub struct Cursor {
    pub offset: usize,
}

// What a step gives: the item with the next cursor; or, at the end, the cursor as it is. No Option, since the end has its cursor too.
#[derive(Clone, Copy, PartialEq, Eq, Debug)]
pub enum Step {
    Next(Item, Cursor),
    End(Cursor),
}

// How many code units a form's longest item has. It stands apart from `Reader`, since names in one trait may not differ in case alone.
pub trait LongestItem: SourceForm {
    ghost LONGEST: { ℕ };

    const LONGEST: usize;

    ghost is_longest: { LONGEST ≡ Self.form.longest };
}

// The reader of a form: its longest item, and the cursor that it starts with.
pub trait Reader: LongestItem {
    fn longest() -> usize
        ensures { result ≡ Self.form.longest }
    {
        Self::LONGEST
    }

    fn reader() -> Cursor
        ensures { result ≡ cursor 0 }
    {
        Cursor::start()
    }
}

impl LongestItem for FssUtf {
    ghost LONGEST = { 6 };

    const LONGEST: usize = 6;

    ghost is_longest = { refl };
}

impl Reader for FssUtf {}

impl LongestItem for UtfEbcdic {
    ghost LONGEST = { 7 };

    const LONGEST: usize = 7;

    ghost is_longest = { refl };
}

impl Reader for UtfEbcdic {}

impl LongestItem for Utf16 {
    ghost LONGEST = { 2 };

    const LONGEST: usize = 2;

    ghost is_longest = { refl };
}

impl Reader for Utf16 {}

impl LongestItem for Ucs4 {
    ghost LONGEST = { 1 };

    const LONGEST: usize = 1;

    ghost is_longest = { refl };
}

impl Reader for Ucs4 {}

impl Cursor {
    pub fn start() -> Self
        ensures { result ≡ cursor 0 }
    {
        Cursor { offset: 0 }
    }

    pub fn step<F: SourceForm>(self, text: &[F::Unit]) -> Result<Step, Refusal>
        ensures { ReadsItem F.form (F.units text.now) self result }
    {
        let offset = self.offset;
        if 65536 < text.len() {
            return Err(answers::source_too_long());
        }
        if text.len() < offset {
            return Err(answers::offset_out_of_range(offset));
        }
        if text.len() == offset {
            return Ok(Step::End(self));
        }
        Ok(self.past(F::item_at(text, offset)))
    }

    // The item, with the cursor behind it.
    fn past(self, item: Item) -> Step
        requires { self.offset + (span_of item).length ≤ 65536 }
        ensures { result ≡ Step.Next item (behind self item) }
    {
        let span = answers::span(item);
        Step::Next(
            item,
            Cursor {
                offset: self.offset + span.length,
            },
        )
    }
}
