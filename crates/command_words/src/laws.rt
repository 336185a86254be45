//! What the definition of a request makes of some words. No function here has a body: each
//! contract is a law.
ghost use Rattle.std.specs.Prelude.{◌≡◌, ◌≢◌, [], ◌∷◌, ◌++◌, All, List, ℕ, None, Some, codes};
ghost use Rattle.command_words.specs.Command.{option_names};
ghost use Rattle.command_words.specs.Numbers.{default_limits};
ghost use Rattle.command_words.specs.Requests.{generate, request_of, step};

use crate::UsageFault;

/// Words that `clap` refuses: none at all, an option without its text, an unknown one, a call for
/// help, and more than a command and a file.
pub fn refused_words()
    ensures none { request_of [] ≡ Err UsageFault.Words }
    ensures no_text { request_of (codes "step" ∷ codes "a" ∷ codes "--plan" ∷ []) ≡ Err UsageFault.Words }
    ensures unknown { request_of (codes "step" ∷ codes "a" ∷ codes "--slot=2" ∷ []) ≡ Err UsageFault.Words }
    ensures help { request_of (codes "step" ∷ codes "--help" ∷ []) ≡ Err UsageFault.Words }
    ensures short_help { request_of (codes "-h" ∷ []) ≡ Err UsageFault.Words }
    ensures third { request_of (codes "step" ∷ codes "a" ∷ codes "b" ∷ []) ≡ Err UsageFault.Words }
{}

/// No option is given twice, whatever its texts.
pub fn no_option_twice()
    ensures { All (λ name. (text other : List ℕ) → request_of ((codes "--" ++ name ++ codes "=" ++ text)
        ∷ codes "gen" ∷ (codes "--" ++ name ++ codes "=" ++ other) ∷ []) ≡ Err UsageFault.Words) option_names }
{}

/// `--name=TEXT` and `--name TEXT` are the same, where the text has a first byte other than `-`.
pub fn two_spellings()
    ensures { All (λ name. (first : ℕ) (rest : List ℕ) → first ≢ 45
        → request_of (codes "gen" ∷ (codes "--" ++ name ++ codes "=" ++ (first ∷ rest)) ∷ [])
        ≡ request_of (codes "gen" ∷ (codes "--" ++ name) ∷ (first ∷ rest) ∷ [])) option_names }
{}

/// Behind `=` stands any text, and behind `--` any file.
pub fn any_text()
    ensures { (file rules : List ℕ) → request_of (codes "step" ∷ (codes "--suppressions=" ++ rules) ∷ codes "--" ∷ file ∷ [])
        ≡ Ok (record { task = step file; limits = default_limits; plan = []; suppressions = Some rules }) }
{}

/// A command alone takes the defaults.
pub fn defaults()
    ensures { request_of (codes "gen" ∷ []) ≡ Ok (record { task = generate 1 1000; limits = default_limits; plan = []; suppressions = None }) }
{}

/// Of several faults the first in the order of the tests is told.
pub fn first_faults()
    ensures command { request_of (codes "stop" ∷ codes "--harts=0" ∷ []) ≡ Err UsageFault.Command }
    ensures file { request_of (codes "gen" ∷ codes "a" ∷ codes "--harts=0" ∷ []) ≡ Err UsageFault.File }
    ensures number { request_of (codes "gen" ∷ codes "--harts=9" ∷ codes "--slots=8" ∷ codes "--plan=" ∷ codes "--size=10001" ∷ []) ≡ Err UsageFault.Number }
    ensures plan { request_of (codes "gen" ∷ codes "--harts=9" ∷ codes "--slots=8" ∷ codes "--plan=0:1," ∷ []) ≡ Err UsageFault.Plan }
    ensures slots { request_of (codes "gen" ∷ codes "--harts=9" ∷ codes "--slots=8" ∷ codes "--plan=0:1" ∷ []) ≡ Err UsageFault.FewSlots }
{}
