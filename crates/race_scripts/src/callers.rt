// Who calls in a run.
ghost use Rattle.std.specs.Prelude.{◌≡◌, ◌∷◌, Some};
ghost use Rattle.std.specs.List.{list_any};
ghost use Rattle.race_lines.specs.RaceTexts.{is_caller};
ghost use Rattle.race_scripts.specs.Callers.{are_apart, are_callers, is_apart};

/// Whether each participant is a caller.
pub(crate) fn are_callers(callers: &[Option<u64>]) -> bool
    ensures { result ≡ are_callers callers.now }
{
    callers.iter().all(|caller| caller.is_some())
}

/// Whether no two of the first and the others are one caller.
pub(crate) fn are_apart(first: u64, others: &[Option<u64>]) -> bool
    ensures { result ≡ are_apart (Some first ∷ others.now) }
{
    is_apart(Some(first), others) && all_apart(others)
}

fn all_apart(callers: &[Option<u64>]) -> bool
    ensures { result ≡ are_apart callers.now }
{
    let mut rest = callers;
    'callers: while let Some((caller, behind)) = rest.split_first() {
        if !is_apart(*caller, behind) {
            return false;
        }
        rest = behind;
    }
    true
}

/// Whether this is no caller, or none of the others.
fn is_apart(caller: Option<u64>, others: &[Option<u64>]) -> bool
    ensures { result ≡ is_apart caller others.now }
{
    match caller {
        Some(number) => !is_among(others, number),
        None => true,
    }
}

/// Whether the caller is one of these.
pub(crate) fn is_among(callers: &[Option<u64>], caller: u64) -> bool
    ensures { result ≡ list_any (is_caller caller) callers.now }
{
    callers.iter().any(|one| is_caller(caller, *one))
}

fn is_caller(caller: u64, one: Option<u64>) -> bool
    ensures { result ≡ is_caller caller one }
{
    match one {
        Some(number) => number == caller,
        None => false,
    }
}
