//! A law of lines for a person.
ghost use Rattle.std.specs.Prelude.{[], List};
ghost use Rattle.outcome_lines.specs.Brief.{AreToldOnce, Said, firsts};

/// Each end has one line for a person, with the number of the first that is the same but for versions and UIDs.
pub fn ends_are_told_once()
    ensures { (ends : List Said) → AreToldOnce ends (firsts [] 1 ends) }
{}
