//! Laws of the judgement of releases, each the contract of a function that does nothing.

ghost use Rattle.release_laws.specs.RoundingLaws.{RoundedAreReadBack, RoundingIsAccepted, WrittenRoundingIsAccepted};
ghost use Rattle.release_laws.specs.RunLaws.{PutsAreAccepted, RunsAreAccepted};
ghost use Rattle.release_laws.specs.Laws.{GuardingIsAccepted, GuardsAreJudgedInOneWay, InputsAreJudgedInOneWay, ProtectionIsAccepted, WrittenIsAccepted};

use job_lang::names_apart;

/// The certificate of a protection has no fault with the tables that hide its set; nor has that of a job's protection
/// for the case of the job's inputs.
pub fn written_is_accepted()
    ensures protection { ProtectionIsAccepted }
    ensures written { WrittenIsAccepted }
{}

/// The inputs of a job are judged in one way: whether a release is accepted, and for which fault it isn't, rests on
/// them, the certificate and the tables alone.
pub fn inputs_are_judged_in_one_way()
    ensures { InputsAreJudgedInOneWay }
{}

/// A release with the extra cells of a guarded protection has no fault, with the tables that hide both; and whether one is
/// accepted, and for which fault it isn't, rests on the inputs, the certificate, the extra cells and the tables alone.
pub fn guarded_is_accepted()
    ensures written { GuardingIsAccepted }
    ensures one_way { GuardsAreJudgedInOneWay }
{}

/// Texts that were written for numbers are read as these numbers; so the certificate of a rounding, which lists
/// nothing, has no fault with the tables that show it, and nor has that of a job's rounding for the case of the job's
/// inputs.
pub fn rounded_is_accepted()
    ensures read_back { RoundedAreReadBack }
    ensures rounding { RoundingIsAccepted }
    ensures written { WrittenRoundingIsAccepted }
{}

/// What a run of a job puts, a check of the job accepts, or there is no memory: where it finds the same inputs, and so where
/// it finds the run's own files, among them what the run put.
pub fn runs_are_accepted()
    ensures inputs { RunsAreAccepted }
    ensures files { PutsAreAccepted }
{
    names_apart();
    written_is_accepted();
    guarded_is_accepted();
    rounded_is_accepted();
}
