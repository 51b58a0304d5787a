//! Laws of how a run ends.
ghost use Rattle.std.specs.Prelude.{◌≡◌, ◌↔◌};
ghost use Rattle.metis_output.specs.Terms.{code_of};
ghost use Rattle.metis_output.specs.declared.status.Status.{Status};
ghost use Rattle.metis_output.specs.declared.status.Status.TheVariants.{Done};

/// An exit code tells the status: no two statuses have one code, and only a run whose work was done ends with 0.
pub fn codes_tell_statuses()
    ensures apart { (s t : Status) → code_of s ≡ code_of t → s ≡ t }
    ensures zero { (s : Status) → code_of s ≡ 0 ↔ s ≡ Done }
{}
