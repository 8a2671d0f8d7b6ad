// The rules of the three stores obey the laws of every rule.
ghost use Rattle.regions.specs.Rules.{ArenaLawful, PagesLawful, QuotaLawful};
ghost use Rattle.regions.specs.Worked.{RulesWorked, StepsWorked};

pub fn rules_are_lawful() -> u8
    ensures arena { ArenaLawful }
    ensures pages { PagesLawful }
    ensures quota { QuotaLawful }
{
    0
}

// What the definitions give in worked cases.
pub fn worked_cases_hold() -> u8
    ensures rules { RulesWorked }
    ensures steps { StepsWorked }
{
    0
}
