//! Limits of unrolled models.

ghost use Rattle.std.specs.Prelude.{◌≡◌, nat_lt};
ghost use Rattle.vrt_model.specs.Unsupported.{too_large};
ghost use Rattle.blif_flat.specs.Flat.{limits_of};

use crate::counts::Counts;

/// Whether a count passes a limit.
fn is_above(count: u64, limit: u64) -> bool
    ensures { result ≡ nat_lt limit count }
{
    count > limit
}

/// The first count that passes its limit: of more than 20,000 signals, 200,000 rows of covers or 40,000 sub-models.
pub(crate) fn first_above(counts: Counts) -> Option<u64>
    ensures { result ≡ too_large (limits_of counts.signals counts.rows counts.subs) }
{
    if is_above(counts.signals, 20_000) {
        return Some(counts.signals);
    }
    if is_above(counts.rows, 200_000) {
        return Some(counts.rows);
    }
    if is_above(counts.subs, 40_000) {
        return Some(counts.subs);
    }
    None
}
