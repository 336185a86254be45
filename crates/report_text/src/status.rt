// The status of a run.
ghost use Rattle.std.specs.Prelude.{◌≡◌};
ghost use Rattle.report_text.specs.Status as status;

use run_record::{Finished, GuestEnd};

/// The status of a run without reports: 9 for a guest's fault, 8 for a spent budget, 1 for an exit
/// with another status than 0, and else 0.
pub fn end_status(end: GuestEnd) -> u8
    ensures { result ≡ status.end_status end }
{
    match end {
        GuestEnd::Exit(0) | GuestEnd::AllEnded => 0,
        GuestEnd::Exit(_) => 1,
        GuestEnd::Fault { .. } => 9,
        GuestEnd::Budget => 8,
    }
}

/// The status of a run: 66 where there is a report, and else that of its end.
pub fn status_of(finished: &Finished) -> u8
    ensures { result ≡ status.status_of finished.now }
{
    if finished.reports.len() > 0 {
        66
    } else {
        end_status(finished.last.end)
    }
}
