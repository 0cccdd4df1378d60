ghost use Rattle.std.specs.Prelude.{◌≡◌};
ghost use Rattle.plan_lines.specs.Refusals.{plan_error_name};

use sets::PlanError;

/// The name of a refusal, as the program prints it.
pub fn plan_error_name(error: &PlanError) -> &'static str
    ensures { result.now ≡ plan_error_name error.now }
{
    match error {
        PlanError::NameTooLong => "NameTooLong",
        PlanError::BadSpec => "BadSpec",
        PlanError::Foreign(_) => "Foreign",
        PlanError::OrdinalTooLarge => "OrdinalTooLarge",
        PlanError::NoRevisionName => "NoRevisionName",
        PlanError::Memory => "Memory",
    }
}
