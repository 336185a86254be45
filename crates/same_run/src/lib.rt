//! What is run decides the run: an executable, limits, a plan and rules have one, and so have words and files.
//!
//! `one_history` shows that two lawful histories of one machine are equal; `machine_laws` knows the machine of an
//! executable file, `whole_runs` what a run of it is (`IsRun`), and `tsanrun_cli` what a call of the tool leaves
//! (`IsDone`). The functions do nothing: the contract of each is a law. `machine_law` says that the machine of a file is
//! one of which `one_history` tells, `same_run_law` that two runs are the same in all that they leave, and
//! `same_call_law` that two calls keep the same run and write the same bytes.
#![tactic(auto)]

ghost use Rattle.std.specs.Prelude.{◌≡◌, ◌≤◌, ℕ, Bool, List, Option, Some};
ghost use Rattle.std.specs.declared.string.String.{String};
ghost use Rattle.std.specs.declared.alloc.Global.{Global};
ghost use Rattle.run_record.specs.declared.limits.Limits.{Limits};
ghost use Rattle.run_record.specs.declared.plan.Turn.{Turn};
ghost use Rattle.run_record.specs.declared.finished.Finished.{Finished};
ghost use Rattle.run_laws.specs.Faithful.{OneByOne};
ghost use Rattle.machine_laws.specs.Machine.{bare_of};
ghost use Rattle.one_history.specs.Reached.{LeaveLabels};
ghost use Rattle.whole_runs.specs.Run.{IsRun};
ghost use Rattle.tsanrun_cli.specs.Ends.{IsDone};
ghost use Rattle.tsanrun_cli.specs.Work.{call_of};

/// An instruction of an executable that uses no object neither raises its thread's epoch nor ends the thread.
pub fn machine_law()
    ensures { (file : List ℕ) (harts : ℕ) → 1 ≤ harts → LeaveLabels (bare_of file harts) }
{}

/// Two runs of an executable, of one thread at a time, by the same limits, plan and rules are the same: in history,
/// reports, counts, output and last state.
pub fn same_run_law()
    ensures { (file : List ℕ) (limits : Limits) (plan : List Turn) (meets : Option (List ℕ) → Option (List ℕ) → Bool) (f other : Finished) → 1 ≤ limits.harts →
        IsRun OneByOne file limits plan meets f → IsRun OneByOne file limits plan meets other
        → f ≡ other }
{}

/// Two calls that are done, with the same words and with the same bytes on their sinks before, keep the same run, and
/// leave the same bytes on each sink and the same status: where both have read the same executable and the same rules, and so where both have
/// the same files.
pub fn same_call_law()
    ensures by_bytes { (words : List (String Global)) (told known : Option (List (List ℕ × List ℕ))) (before after reads more : ℕ) (failed missed : List ℕ) (out_old out_new out_other err_old err_new err_other : Option (List ℕ)) (status code : ℕ) (f other : Finished) →
        (a : IsDone (call_of words told before after failed) out_old out_new err_old err_new status f) →
        (b : IsDone (call_of words known reads more missed) out_old out_other err_old err_other code other) →
        a.bytes ≡ b.bytes → a.run.rules ≡ b.run.rules → (f ≡ other) × (out_new ≡ out_other) × (err_new ≡ err_other) × (status ≡ code) }
    ensures by_files { (words : List (String Global)) (files : List (List ℕ × List ℕ)) (before after reads more : ℕ) (failed missed : List ℕ) (out_old out_new out_other err_old err_new err_other : Option (List ℕ)) (status code : ℕ) (f other : Finished) →
        IsDone (call_of words (Some files) before after failed) out_old out_new err_old err_new status f →
        IsDone (call_of words (Some files) reads more missed) out_old out_other err_old err_other code other →
        (f ≡ other) × (out_new ≡ out_other) × (err_new ≡ err_other) × (status ≡ code) }
{}
