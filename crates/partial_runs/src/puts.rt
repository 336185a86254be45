// What is put of a run, round by round.

ghost use Rattle.std.specs.Prelude.{◌≡◌, ◌≤◌, ℕ, List, [], ◌∷◌, ◌++◌, Option, Result};
ghost use Rattle.run_record.specs.declared.report.Report.{Report};
ghost use Rattle.run_record.specs.declared.finished.Finished.{Finished};
ghost use Rattle.run_laws.specs.Faithful.{OneByOne};
ghost use Rattle.report_text.specs.Texts.{report_text, summary_of};
ghost use Rattle.tool_ports.specs.Ports.{Rose, Appends, AppendsPart};
ghost use Rattle.partial_runs.specs.declared.partial.Partial.{Partial};
ghost use Rattle.partial_runs.specs.declared.partial.RunFault.{RunFault};
ghost use Rattle.partial_runs.specs.Starts.{BeginsWith, GoesOnByRound};
ghost use Rattle.partial_runs.specs.Partials.{all_rounds};
ghost use Rattle.partial_runs.specs.Puts.{Job, IsRunOf, IsPartialOf, Sinks, run_text};
ghost use Rattle.partial_runs.specs.Puts.{IsPut, IsPutSoFar, IsPartPut, IsCutShort, IsStopped, LeavesRun};

/// The pieces of a run are put one after another: the output of a round, then the text of each of its reports, and the
/// summary at the end.
pub fn put_law()
    ensures nothing { (job : Job) (p : Partial) (before : Sinks) → p.reports ≡ [] → p.output ≡ []
        → IsPutSoFar job p before before }
    ensures output { (job : Job) (p : Partial) (before mid : Sinks) → IsPutSoFar job p before mid
        → (out : Option (List ℕ)) (count : ℕ) (output : List ℕ) → Appends mid.out out output → mid.out_faults ≤ count
        → IsPutSoFar job (record p { output = p.output ++ output }) before (record mid { out = out; out_faults = count }) }
    ensures report { (job : Job) (p : Partial) (before mid : Sinks) → IsPutSoFar job p before mid
        → (err : Option (List ℕ)) (count : ℕ) (report : Report)
        → Appends mid.err err (report_text job.frame_of report) → mid.err_faults ≤ count
        → IsPutSoFar job (record p { reports = p.reports ++ report ∷ [] }) before (record mid { err = err; err_faults = count }) }
    ensures summary { (job : Job) (f : Finished) (before mid : Sinks) → IsPutSoFar job (all_rounds f) before mid
        → (err : Option (List ℕ)) (count : ℕ) → Appends mid.err err (summary_of f)
        → IsPut job f before (record mid { err = err; err_faults = count }) }
{}

/// Where the put of a piece fails, the run is cut short: at the output of its last round, at the text of a report, or at the
/// summary. Where memory runs out between two pieces it is stopped.
pub fn cut_law()
    ensures output { (job : Job) (earlier p : Partial) (before mid : Sinks) (out : Option (List ℕ)) (count : ℕ) (output : List ℕ)
        → IsPartialOf job earlier → IsPartialOf job p
        → GoesOnByRound earlier.history.entries p.history.entries → p.output ≡ earlier.output ++ output
        → IsPutSoFar job earlier before mid → AppendsPart mid.out out output → Rose mid.out_faults count
        → IsCutShort job p before (record mid { out = out; out_faults = count }) }
    ensures report { (job : Job) (p : Partial) (before mid : Sinks) (err : Option (List ℕ)) (count : ℕ) (told : List Report) (report : Report)
        → IsPartialOf job p → BeginsWith p.reports (told ++ report ∷ []) → IsPutSoFar job (record p { reports = told }) before mid
        → AppendsPart mid.err err (report_text job.frame_of report) → Rose mid.err_faults count
        → IsCutShort job p before (record mid { err = err; err_faults = count }) }
    ensures summary { (job : Job) (f : Finished) (before mid : Sinks) (err : Option (List ℕ)) (count : ℕ)
        → IsRunOf job f → IsPutSoFar job (all_rounds f) before mid
        → AppendsPart mid.err err (summary_of f) → Rose mid.err_faults count
        → IsCutShort job (all_rounds f) before (record mid { err = err; err_faults = count }) }
    ensures memory { (job : Job) (p : Partial) (before now : Sinks) (told : List Report)
        → IsPartialOf job p → BeginsWith p.reports told → IsPutSoFar job (record p { reports = told }) before now
        → IsStopped job p before now }
{}

/// Of a run that was cut short or stopped a first part was put on each sink: of its output, and of its text.
pub fn cut_part_law()
    ensures cut { (job : Job) (p : Partial) (before now : Sinks) → IsCutShort job p before now → IsPartPut job p before now }
    ensures stopped { (job : Job) (p : Partial) (before now : Sinks) → IsStopped job p before now → IsPartPut job p before now }
{}

/// Where threads run one at a time, a first part of a partial run, on each sink, is one of the whole run of the same job.
pub fn part_put_law()
    ensures { (job : Job) (p : Partial) (f : Finished) (before now : Sinks) → job.mode ≡ OneByOne → 1 ≤ job.limits.harts
        → IsPartialOf job p → IsRunOf job f → IsPartPut job p before now
        → AppendsPart before.out now.out f.output × AppendsPart before.err now.err (run_text job f) }
{}

/// So whatever a call answers, of threads that run one at a time, it has put a first part of what a call that is done puts.
pub fn answer_law()
    ensures { (job : Job) (f : Finished) (before now : Sinks) (answer : Result Finished RunFault) → job.mode ≡ OneByOne
        → 1 ≤ job.limits.harts → IsRunOf job f → LeavesRun job before now answer
        → AppendsPart before.out now.out f.output × AppendsPart before.err now.err (run_text job f) }
{}
