//! From which valuations some are reached where variables are moved to a bit.

ghost use Rattle.std.specs.Prelude.{◌*◌, length};
ghost use Rattle.bdd_core.specs.Store.{Gives, IsLive, function_of};
ghost use Rattle.bdd_ops.specs.Counting.{Counts};
ghost use Rattle.step_roots.specs.Moved.{moved_by, moved_of};

use bdd_core::{H, Spent, Store};
use bdd_ops::{or, restrict};
use vrt_model::Var;

/// Where a function is 1, or is once a variable has a bit.
fn moved_one(store: &mut Store, variable: u32, bit: bool, f: H) -> Result<H, Spent>
    requires f { IsLive store.old f }
    ensures gives { Gives store.old store.new (moved_by variable bit (function_of store.old f)) result }
    ensures counts { Counts store.old.vars 2 store.old store.new result }
{
    store.sound();
    let there = match restrict(store, f, Var(variable), bit) {
        Ok(there) => there,
        Err(spent) => return Err(spent),
    };
    or(store, f, there)
}

/// Where a function is 1, or is once some of these variables have a bit.
pub fn moved(store: &mut Store, variables: &[u32], bit: bool, f: H) -> Result<H, Spent>
    requires f { IsLive store.old f }
    ensures gives { Gives store.old store.new (moved_of variables.now bit (function_of store.old f)) result }
    ensures counts { Counts store.old.vars (2 * length variables.now) store.old store.new result }
{
    store.sound();
    let mut reached = f;
    let mut left = variables;
    'variables: while let Some((variable, behind)) = left.split_first() {
        reached = match moved_one(store, *variable, bit, reached) {
            Ok(next) => next,
            Err(spent) => return Err(spent),
        };
        left = behind;
    }
    Ok(reached)
}
