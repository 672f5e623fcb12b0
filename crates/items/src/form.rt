// A form as a type, for the calls that are the same for each: its code units, and the item at an offset inside a text.
ghost use Rattle.std.specs.Prelude.{◌≡◌, ℕ, List, ◌<◌, length};
ghost use Rattle.forms.specs.Form.{Form};
ghost use Rattle.items.specs.ItemAt.{item_at};
ghost use Rattle.laws.proofs.FormLaws.{Laws};

use types::Item;

pub trait SourceForm {
    type Unit;

    // The form by the rules, and the numbers that its code units are.
    ghost form: { Form };

    ghost units: { List Self.Unit → List ℕ };

    fn item_at(text: &[Self::Unit], at: usize) -> Item
        requires { at < length text.now }
        ensures { result ≡ item_at form (units text.now) at };

    ghost laws: { Laws form };

    ghost counted: { (s : List Self.Unit) → length (units s) ≡ length s };
}
