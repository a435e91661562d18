//! Marks at the places of an unrolled cell.

ghost use Rattle.std.specs.Prelude.{◌≡◌, ◌||◌};
ghost use Rattle.whole_circuits.specs.Shown.{is_left_at};

use known_nets::is_marked;

/// Which places of an unrolled cell are those of instances that are left whole, and which are inside these: a mark for each
/// place, by its number.
pub struct Marks {
    /// The places of the instances that are left whole.
    pub whole: Vec<bool>,
    /// The places inside them.
    pub inside: Vec<bool>,
}

/// By hand, so that letting go of them is a call.
impl Drop for Marks {
    fn drop(self) {
        let Marks {
            whole: _whole,
            inside: _inside,
        } = self;
    }
}

/// Whether the cards of a place are left out: it is whole, or inside one that is.
pub(crate) fn is_left_at(marks: &Marks, place: usize) -> bool
    ensures { result ≡ is_left_at marks.now place }
{
    let whole = is_marked(marks.whole.as_slice(), place);
    let inside = is_marked(marks.inside.as_slice(), place);
    whole || inside
}
