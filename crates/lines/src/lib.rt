// The lines of the listing program: `listing` renders the items of a text, and `specs/Listing` says what it prints. `line` makes one line.
#![tactic(auto)]

mod line;

ghost use Rattle.std.specs.Prelude.{◌≡◌, ◌+◌, ◌<◌, ◌≤◌, length};
ghost use Rattle.forms.specs.Form.{span_of, items};
ghost use Rattle.forms.specs.Forms.{fss_utf};
ghost use Rattle.forms.specs.Buffer.{with_units, Holds};
ghost use Rattle.arrayvec.specs.ArrayVec.{array_vec_len};
ghost use Rattle.lines.specs.Listing.{placed, line, total, listing_of, listing};

use items::SourceForm;
use line::Line;
use types::{FssUtf, Item, Span};

// The listing of the first 4,096 bytes of a text. A buffer of 73,769 bytes holds the longest: a header of 18, 4,096 lines of at most 18
// and a total of at most 23.
pub fn listing(text: &[u8], out: &mut [u8; 73769]) -> usize
    ensures { Holds out.old (listing text.now) result out.new }
{
    if 4096 < text.len() {
        return list(&text[..4096], out);
    }
    list(text, out)
}

fn list(text: &[u8], out: &mut [u8]) -> usize
    requires { (length text.now ≤ 4096) × (73769 ≤ length out.old) }
    ensures { Holds out.old (listing_of (items fss_utf text.now)) result out.new }
{
    let mut written = put(out, 0, b"START LENGTH READ\n");
    let mut at: usize = 0;
    let mut count: usize = 0;
    let mut marks: usize = 0;
    // No `for`: a turn steps by an item, and only finds out how long that is.
    while at < text.len() {
        let item = FssUtf::item_at(text, at);
        let span = answers::span(item);
        written = put(out, written, item_line(item).as_slice());
        count += 1;
        marks += answers::mark_count(item);
        at += span.length;
    }
    put(out, written, total_line(count, marks).as_slice())
}

// Puts a line into the lent buffer from an offset on, and answers the offset behind it: the buffer's rest stays as it was.
fn put(out: &mut [u8], at: usize, added: &[u8]) -> usize
    requires { at + length added.now ≤ length out.old }
    ensures { (result ≡ at + length added.now) × (out.new ≡ with_units out.old at added.now) }
{
    let end = at + added.len();
    out[at..end].copy_from_slice(added);
    end
}

// No `Display` of an item: this is how the listing shows it, and nothing else.
fn item_line(item: Item) -> Line
    requires { ((span_of item).offset < 10000) × ((span_of item).length < 10) }
    ensures text { result.items ≡ line item }
    ensures len { array_vec_len result ≤ 18 }
{
    let mut line = placed_line(answers::span(item));
    match item {
        Item::Character(value, _) => {
            line::push_text(&mut line, b"U+");
            line::push_hex(&mut line, 8, value);
        }
        Item::Mark(fault, _) => {
            line::push_text(&mut line, b"fault ");
            line::push_decimal(&mut line, answers::number(fault) as usize);
        }
    }
    line.push(b'\n');
    line
}

// The front of an item's line: where the item starts, and its length.
#[tactic(auto, using(crate::proofs::Lines::none_yet, crate::proofs::Lines::four_digits, crate::proofs::Lines::one_digit))]
fn placed_line(span: Span) -> Line
    requires { (span.offset < 10000) × (span.length < 10) }
    ensures text { result.items ≡ placed span }
    ensures len { array_vec_len result ≤ 7 }
{
    let mut line = Line::new();
    line::push_decimal(&mut line, span.offset);
    line.push(b' ');
    line::push_decimal(&mut line, span.length);
    line.push(b' ');
    line
}

#[tactic(auto, using(crate::proofs::Lines::none_yet, crate::proofs::Lines::four_digits))]
fn total_line(count: usize, marks: usize) -> Line
    requires { (count < 10000) × (marks < 10000) }
    ensures text { result.items ≡ total count marks }
    ensures len { array_vec_len result ≤ 23 }
{
    let mut line = Line::new();
    line::push_text(&mut line, b"items ");
    line::push_decimal(&mut line, count);
    line::push_text(&mut line, b" faults ");
    line::push_decimal(&mut line, marks);
    line.push(b'\n');
    line
}
