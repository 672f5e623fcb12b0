// What the finder needs of a form: where the item that covers a place starts. It asks that the place lies inside the text, which the call tests, and
// is not handed on, so that no call asks anything.
ghost use Rattle.std.specs.Prelude.{◌≡◌, suc, ◌<◌, length};
ghost use Rattle.laws.specs.Finder.{nearest};
ghost use Rattle.laws.proofs.Distances.{distance_back};

use reader::Reader;

// A form whose items are found from their middle.
pub trait FindsStart: Reader {
    // How far before the offset the item that covers it starts.
    fn distance_back(text: &[Self::Unit], offset: usize) -> usize
        requires { offset < length text.now }
        ensures { result ≡ distance_back Self.form 0 (nearest Self.form.longest (suc offset) (Self.units text.now)) };
}
