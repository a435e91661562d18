//! Ports that are alone in phase after phase.

ghost use Rattle.std.specs.Prelude.{◌≡◌, ◌≢◌, ◌<◌, ◌&&◌, ℕ, length};
ghost use Rattle.lone_outputs.specs.Lone.{AreKept};
ghost use Rattle.vrt_model.specs.Lists.{mark_at};

use known_nets::is_marked;

/// Keeps a mark where a bit is 1.
fn keep_mark(all: &mut Vec<bool>, at: usize, lone: bool)
    requires { at < length all.old.items }
    ensures len { length all.new.items ≡ length all.old.items }
    ensures here { mark_at all.new.items at ≡ (lone && mark_at all.old.items at) }
    ensures others { (j : ℕ) → j ≢ at → mark_at all.new.items j ≡ mark_at all.old.items j }
{
    if !lone {
        all[at] = false;
    }
}

/// Keeps the marks of the ports that are alone in a further phase too. Over all phases this leaves those of the ports that are alone
/// inside their cell.
pub fn keep_lone(all: &mut Vec<bool>, lone: &[bool])
    requires { length all.old.items ≡ length lone.now }
    ensures { AreKept lone.now all.old.items all.new.items }
{
    for at in 0..lone.len() {
        let here = is_marked(lone, at);
        keep_mark(all, at, here);
    }
}
