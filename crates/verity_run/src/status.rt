//! How a run ends.

ghost use Rattle.std.specs.Prelude.{◌≡◌};
ghost use Rattle.verity_run.specs.Reports.{counted, with_count, with_undecided};

use vrt_model::Verdict;

/// How a run ended. The program ends with its number.
#[derive(Clone, Copy, Debug, PartialEq, Eq)]
pub enum Status {
    /// 0: no cell has a fault, and each was decided; or help or the version was asked for.
    AllEqual,
    /// 1: a cell has a fault.
    SomeFault,
    /// 2: the words are not understood.
    Usage,
    /// 3: a file is too long or faulty, or what the words name is not there.
    InputRefused,
    /// 4: no cell has a fault, and one was not decided.
    Undecided,
    /// 5: a file could not be read.
    ReadFault,
    /// 6: the output could not be written.
    WriteFault,
    /// 7: memory was wanting.
    NoMemory,
}

/// What a cell counts for in the status of a report.
#[derive(Clone, Copy)]
pub enum Count {
    /// It is equal, or is not looked at.
    Nothing,
    /// It was not decided.
    Pending,
    /// It has a fault.
    Faulty,
}

/// The status with one more cell that is not decided. A fault counts before it.
fn with_undecided(status: Status) -> Status
    ensures { result ≡ with_undecided status }
{
    match status {
        Status::SomeFault => Status::SomeFault,
        _ => Status::Undecided,
    }
}

/// The status with one cell more.
pub fn with_count(status: Status, count: Count) -> Status
    ensures { result ≡ with_count status count }
{
    match count {
        Count::Nothing => status,
        Count::Pending => with_undecided(status),
        Count::Faulty => Status::SomeFault,
    }
}

/// What a verdict counts for. A cell that is skipped does not count.
pub fn counted(verdict: &Verdict) -> Count
    ensures { result ≡ counted verdict.now }
{
    match verdict {
        Verdict::Equal | Verdict::Skipped => Count::Nothing,
        Verdict::Fault(_) => Count::Faulty,
        Verdict::Vacuous { .. } | Verdict::Budget { .. } | Verdict::Unsupported(_) => {
            Count::Pending
        }
    }
}
